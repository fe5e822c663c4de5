// The reading place, handed from field to field: a method takes the cursor, reads one field there and answers what it read with the next cursor.
// None: an octet is wrong. The methods named by a kind read the field where the kind has it, and else nothing, which stands for zeros.
ghost use Rattle.std.specs.Prelude.{◌≡◌, ◌+◌, ◌<◌, ◌≤◌, true, [], ◌∷◌, length};
ghost use Rattle.format.specs.Words.{both, if_any};
ghost use Rattle.format.specs.Values.{dated, timed, zoned};
ghost use Rattle.format.specs.Fields.{digits, after, width};
ghost use Rattle.format.specs.Text.{date_row, offset_row};
ghost use Rattle.text.specs.Putting.{fraction_field};
ghost use Rattle.text.specs.Pairs.{row_at, part_at};
ghost use Rattle.text.specs.Cursors.{dated_row, timed_row, parted_row, zoned_row, dated_to, joined_to, timed_to, parted_to, zoned_to, joint_by, pairs_by};

use crate::fraction::Digits;
use crate::parts::Zone;
use crate::{fraction, lengths, pairs, parts, writing};
use calendar::Date;
use values::Stamp;

#[derive(Clone, Copy)]
pub struct Cursor {
    pub at: usize,
}

impl Cursor {
    pub fn date(self, s: &[u8]) -> Option<(Date, Cursor)>
        requires { self.at + 10 ≤ length s.now }
        ensures { (dated_row result ≡ row_at (date_row true) s.now self.at) × dated_to (self.at + 10) result }
    {
        let century = pairs::pair(s, self.at)?;
        let (year, month, day) = pairs::three_pairs(s, self.at + 2, b'-')?;
        Some((
            Date::new(century * 100 + year, month, day),
            Cursor {
                at: self.at + lengths::DATE,
            },
        ))
    }

    // The `T` behind a date.
    pub fn joint(self, s: &[u8]) -> Option<Cursor>
        requires { self.at < length s.now }
        ensures { joined_to s.now self.at result }
    {
        if s[self.at] != parts::T {
            return None;
        }
        Some(Cursor { at: self.at + 1 })
    }

    // Hour, minute and second.
    pub fn clock(self, s: &[u8]) -> Option<(u32, u32, u32, Cursor)>
        requires { self.at + 8 ≤ length s.now }
        ensures { (timed_row result ≡ row_at (digits 2 ∷ after 58 2 ∷ after 58 2 ∷ []) s.now self.at) × timed_to (self.at + 8) result }
    {
        let (hour, minute, second) = pairs::three_pairs(s, self.at, b':')?;
        Some((
            hour,
            minute,
            second,
            Cursor {
                at: self.at + lengths::TIME,
            },
        ))
    }

    // The microseconds of a second.
    pub fn fraction(self, s: &[u8], digits: Digits) -> Option<(u32, Cursor)>
        requires { self.at + width (fraction_field digits.number) ≤ length s.now }
        ensures { (parted_row result ≡ part_at digits.number s.now self.at) × parted_to (self.at + width (fraction_field digits.number)) result }
    {
        // the usual ones, as a word
        if digits.number == 3 {
            let micros = pairs::thousandths(s, self.at)?;
            return Some((micros, Cursor { at: self.at + 4 }));
        }
        let micros = fraction::digit_by_digit(s, self.at, digits)?;
        Some((
            micros,
            Cursor {
                at: self.at + writing::fraction_length(digits),
            },
        ))
    }

    pub fn zone(self, s: &[u8]) -> Option<(Zone, Cursor)>
        requires { self.at + 6 ≤ length s.now }
        ensures { (zoned_row result ≡ row_at (offset_row true) s.now self.at) × zoned_to (self.at + 6) result }
    {
        let sign = s[self.at];
        if !parts::is_sign(sign) {
            return None;
        }
        let (hours, minutes) = pairs::two_pairs(s, self.at + 1)?;
        let zone = Zone {
            minus: parts::is_minus(sign),
            hours,
            minutes,
        };
        Some((
            zone,
            Cursor {
                at: self.at + lengths::OFFSET,
            },
        ))
    }

    pub fn date_of<T: Stamp>(self, s: &[u8]) -> Option<(Date, Cursor)>
        requires { self.at + if_any (dated T.kind) 10 ≤ length s.now }
        ensures { (dated_row result ≡ row_at (date_row (dated T.kind)) s.now self.at) × dated_to (self.at + if_any (dated T.kind) 10) result }
    {
        if T::kind().dated() {
            return self.date(s);
        }
        Some((Date::new(0, 0, 0), self))
    }

    // The `T` joins a date and a time.
    pub fn joint_of<T: Stamp>(self, s: &[u8]) -> Option<Cursor>
        requires { (both (dated T.kind) (timed T.kind) ≡ true) → (self.at < length s.now) }
        ensures { joint_by (both (dated T.kind) (timed T.kind)) s.now self.at result }
    {
        let kind = T::kind();
        if kind.dated() && kind.timed() {
            return self.joint(s);
        }
        Some(self)
    }

    pub fn clock_of<T: Stamp>(self, s: &[u8]) -> Option<(u32, u32, u32, Cursor)>
        requires { self.at + if_any (timed T.kind) 8 ≤ length s.now }
        ensures { (timed_row result ≡ row_at (pairs_by (timed T.kind)) s.now self.at) × timed_to (self.at + if_any (timed T.kind) 8) result }
    {
        if T::kind().timed() {
            return self.clock(s);
        }
        Some((0, 0, 0, self))
    }

    // Only a time has digits.
    pub fn fraction_of<T: Stamp>(self, s: &[u8], digits: Digits) -> Option<(u32, Cursor)>
        requires { self.at + width (fraction_field (if_any (timed T.kind) digits.number)) ≤ length s.now }
        ensures { (parted_row result ≡ part_at (if_any (timed T.kind) digits.number) s.now self.at) × parted_to (self.at + width (fraction_field (if_any (timed T.kind) digits.number))) result }
    {
        if T::kind().timed() {
            return self.fraction(s, digits);
        }
        Some((0, self))
    }

    pub fn zone_of<T: Stamp>(self, s: &[u8]) -> Option<(Zone, Cursor)>
        requires { self.at + if_any (zoned T.kind) 6 ≤ length s.now }
        ensures { (zoned_row result ≡ row_at (offset_row (zoned T.kind)) s.now self.at) × zoned_to (self.at + if_any (zoned T.kind) 6) result }
    {
        if T::kind().zoned() {
            return self.zone(s);
        }
        Some((Zone::NONE, self))
    }
}
