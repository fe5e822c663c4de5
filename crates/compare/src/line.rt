// An answer in the making, so that it leaves by one call.
use std::fmt;

// No answer is longer: the hex of 48 octets, their count and the refusal number have some 110 octets.
const MOST_OCTETS: usize = 256;

#[derive(Drop)]
pub struct Line {
    octets: [u8; MOST_OCTETS],
    length: usize,
}

impl Line {
    pub fn new() -> Line {
        Line {
            octets: [0; MOST_OCTETS],
            length: 0,
        }
    }

    pub fn clear(&mut self) {
        self.length = 0;
    }

    pub fn written(&self) -> &[u8] {
        self.octets.get(..self.length).unwrap_or(&[])
    }
}

impl fmt::Write for Line {
    fn write_str(&mut self, s: &str) -> fmt::Result {
        let rest = self.octets.get_mut(self.length..).ok_or(fmt::Error)?;
        let place = rest.get_mut(..s.len()).ok_or(fmt::Error)?;
        place.copy_from_slice(s.as_bytes());
        self.length = self.length.saturating_add(s.len());
        Ok(())
    }
}
