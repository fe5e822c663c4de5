// The lengths of texts and of their parts, and how many fraction digits a text has.
ghost use Rattle.std.specs.Prelude.{◌≡◌};
ghost use Rattle.format.specs.Text.{text_length};
ghost use Rattle.format.specs.TextReading.{digits_found};
ghost use Rattle.values.specs.Meaning.{kind_from};
ghost use Rattle.text.specs.Parts.{counted};

use crate::fraction::Digits;
use crate::writing;
use values::{Kind, Settings};

// The parts, in octets: `yyyy-mm-dd`, `hh:mm:ss` and an offset.
pub const DATE: usize = 10;

pub const TIME: usize = 8;

pub const OFFSET: usize = 6;

// Texts of several parts, without a fraction.
pub const DATE_TZ: usize = DATE + OFFSET;

const TIME_TZ: usize = TIME + OFFSET;

// The time of a date-time stands behind its `T`.
pub const TIME_AT: usize = DATE + 1;

pub const DATETIME: usize = TIME_AT + TIME;

const DATETIME_TZ: usize = DATETIME + OFFSET;

// The length of a text without a fraction.
fn whole_length(kind: Kind) -> usize
    ensures { result ≡ text_length (kind_from kind) 0 }
{
    match kind {
        Kind::Date => DATE,
        Kind::DateTz => DATE_TZ,
        Kind::Time => TIME,
        Kind::TimeTz => TIME_TZ,
        Kind::Datetime => DATETIME,
        Kind::DatetimeTz => DATETIME_TZ,
    }
}

// The length of a text with so many digits.
pub fn text_length(kind: Kind, digits: Digits) -> usize
    ensures { result ≡ text_length (kind_from kind) digits.number }
{
    let whole = whole_length(kind);
    if kind.timed() {
        return whole + writing::fraction_length(digits);
    }
    whole
}

// How many fraction digits a text of this kind and length has; None where there is no such text.
// A point stands before the digits: so no text is one octet longer than the shortest.
pub fn digits_in(kind: Kind, octets: usize) -> Option<Digits>
    ensures { counted (digits_found (kind_from kind) octets) result }
{
    let whole = whole_length(kind);
    if octets == whole {
        return Some(Digits { number: 0 });
    }
    if !kind.timed() {
        return None;
    }
    let shortest = whole + 2;
    let longest = whole + 1 + Settings::MAX_DIGITS as usize;
    if octets < shortest || longest < octets {
        return None;
    }
    Some(Digits {
        number: (octets - whole - 1) as u32,
    })
}
