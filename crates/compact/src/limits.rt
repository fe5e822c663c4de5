// What document 01 sets for each kind: the least and the greatest number, and the least octets of a number.
ghost use Rattle.std.specs.Prelude.{◌≡◌, pos, neg_ℤ};
ghost use Rattle.format.specs.Words.{if_any};
ghost use Rattle.format.specs.Compact.{start, greatest, padded_to};
ghost use Rattle.values.specs.Meaning.{kind_from};

use values::{Kind, Time};

// The day number of 2020-01-01.
pub const EPOCH: i64 = 737_424;

// 24:00 in whole milliseconds.
pub const MILLIS_PER_DAY: u64 = Time::END_OF_DAY / 1000;

// 0001-01-01 and 9999-12-31, in days from 2020-01-01.
const FIRST_DAY: i64 = -EPOCH;

const LAST_DAY: i64 = 2_914_634;

// 0001-01-01T00:00 in milliseconds from 2020-01-01.
const FIRST_T: i64 = FIRST_DAY * MILLIS_PER_DAY as i64;

// T without an offset ends where a seventh octet would begin: that would read as an offset and 5 octets.
const LAST_T_ALONE: i64 = 140_737_488_355_327;

// The last millisecond of 9999-12-31.
const LAST_T_BEHIND_OFFSET: i64 = 251_824_463_999_999;

#[tactic(auto, unfolding(format::specs::Compact::start, format::specs::Compact::per_day))]
pub fn least_number(kind: Kind) -> i64
    ensures { result ≡ neg_ℤ (pos (start (kind_from kind))) }
{
    match kind {
        Kind::Date | Kind::DateTz => FIRST_DAY,
        Kind::Time | Kind::TimeTz => 0,
        Kind::Datetime | Kind::DatetimeTz => FIRST_T,
    }
}

// `front`: an offset stands in front.
#[tactic(auto, unfolding(format::specs::Compact::greatest))]
pub fn greatest_number(kind: Kind, front: bool) -> i64
    ensures { result ≡ pos (greatest (kind_from kind) front) }
{
    match kind {
        Kind::Date | Kind::DateTz => LAST_DAY,
        Kind::Time | Kind::TimeTz => MILLIS_PER_DAY as i64,
        Kind::Datetime | Kind::DatetimeTz if front => LAST_T_BEHIND_OFFSET,
        Kind::Datetime | Kind::DatetimeTz => LAST_T_ALONE,
    }
}

#[tactic(auto, unfolding(format::specs::Compact::padded_to))]
pub fn padded_to(kind: Kind, front: bool) -> usize
    ensures { result ≡ padded_to (kind_from kind) front }
{
    if !front {
        return 1;
    }
    match kind {
        Kind::Date | Kind::DateTz => 2,
        Kind::Time | Kind::TimeTz => 3,
        Kind::Datetime | Kind::DatetimeTz => 5,
    }
}

// The octets of an offset in front.
pub fn front_octets(front: bool) -> usize
    ensures { result ≡ if_any front 2 }
{
    if front { 2 } else { 0 }
}
