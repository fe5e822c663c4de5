// The fields of a case, in turn. Each reader takes one, and answers none where it is not as it should be.
ghost use Rattle.std.specs.Prelude.{◌<◌, IfSome};

use std::num::ParseIntError;
use std::str::FromStr;

// What is left of the case, from the next field on; none behind the last one.
#[derive(Drop)]
pub struct Fields<'a> {
    rest: Option<&'a str>,
}

impl<'a> Fields<'a> {
    // Exactly one space stands between two fields.
    pub fn of(case: &'a str) -> Fields<'a> {
        Fields { rest: Some(case) }
    }

    // Octet by octet: to look for the space as a character costs more than all else that is done with a field. Inlined, as `number` is: what is left of
    // the case stays in registers then.
    #[inline(always)]
    pub fn text(&mut self) -> Option<&'a str> {
        let rest = self.rest?;
        let Some(end) = rest.bytes().position(|octet| octet == b' ') else {
            self.rest = None;
            return Some(rest);
        };
        self.rest = rest.get(end + 1..);
        rest.get(..end)
    }

    // Digits, behind a minus where the number's type has one: a plus, which `parse` takes, is none.
    #[inline(always)]
    pub fn number<N: FromStr<Err = ParseIntError>>(&mut self) -> Option<N> {
        let field = self.text()?;
        if field.as_bytes().first() == Some(&b'+') {
            return None;
        }
        field.parse().ok()
    }

    // In uppercase hex, `-` for none, as an empty field is wrong; and no more than have room.
    pub fn octets<'b>(&mut self, room: &'b mut [u8]) -> Option<&'b [u8]> {
        let field = self.text()?;
        if field.is_empty() {
            return None;
        }
        if field == "-" {
            return Some(&[]);
        }
        let (pairs, odd) = field.as_bytes().as_chunks::<2>();
        if !odd.is_empty() {
            return None;
        }
        let octets = room.get_mut(..pairs.len())?;
        for (octet, [high, low]) in octets.iter_mut().zip(pairs) {
            *octet = hex_value(*high)? * 16 + hex_value(*low)?;
        }
        Some(octets)
    }
}

fn hex_value(digit: u8) -> Option<u8>
    ensures { IfSome result (λ value. value < 16) }
{
    match digit {
        b'0'..=b'9' => Some(digit - b'0'),
        b'A'..=b'F' => Some(digit - b'A' + 10),
        _ => None,
    }
}
