// Octets as the programs print them: in uppercase hex, a `-` where there are none.
#![tactic(auto)]

use std::{fmt, str};

#[derive(Clone, Copy)]
pub struct Octets<'a>(pub &'a [u8]);

const DIGITS: &[u8; 16] = b"0123456789ABCDEF";

// So many octets are printed at once: a call for each octet costs more than its digits.
const PART: usize = 32;

impl fmt::Display for Octets<'_> {
    fn fmt<W: fmt::Write>(&self, f: &mut fmt::Formatter<W>) -> fmt::Result {
        if self.0.is_empty() {
            return f.write_str("-");
        }
        for part in self.0.chunks(PART) {
            let mut pairs = [[0u8; 2]; PART];
            for (pair, octet) in pairs.iter_mut().zip(part) {
                *pair = [DIGITS[(octet / 16) as usize], DIGITS[(octet % 16) as usize]];
            }
            let digits = pairs
                .as_flattened()
                .get(..2 * part.len())
                .ok_or(fmt::Error)?;
            f.write_str(str::from_utf8(digits).map_err(|_| fmt::Error)?)?;
        }
        Ok(())
    }
}
