// A stamp restated within its month, without its day number: most stamps stay there.
ghost use Rattle.std.specs.Prelude.{◌≡◌, ◌+◌, ◌<◌, ◌≤◌, true, pos, ◌+ℤ◌, ◌-ℤ◌};
ghost use Rattle.format.specs.Local.{day_part};
ghost use Rattle.format.specs.Values.{end_of_day, offset_in_range};
ghost use Rattle.values.specs.Meaning.{datetime_tz_value};
ghost use Rattle.moments.specs.Instant.{ahead};
ghost use Rattle.moments.specs.Calls.{restate};
ghost use Rattle.instants.specs.Steps.{two_days, five_days, Restated};

use crate::ahead_of_utc;
use calendar::Date;
use values::{DatetimeTz, Kind, Offset, Stamp, Time};

const TWO_DAYS: i64 = 172_800_000_000;

// What a clock at the other offset reads, from the start of the day two days before the stamp's: two offsets are less than two days apart, so it is not below 0.
#[tactic(auto, using(std::proofs::lemmas::Int::ints))]
fn reads(micros: u64, from: Offset, to: Offset) -> u64
    requires { (micros ≤ end_of_day) × (offset_in_range from.minutes ≡ true) × (offset_in_range to.minutes ≡ true) }
    ensures { (pos result ≡ pos (two_days + micros) -ℤ ahead from.minutes +ℤ ahead to.minutes) × (result < five_days) }
{
    (TWO_DAYS + micros as i64 - ahead_of_utc(from) + ahead_of_utc(to)) as u64
}

// The whole days in less than five. A day is 8,192 times 10,546,875 microseconds, and the quotient by the second is a product with a rounded constant.
fn whole_days(micros: u64) -> u64
    requires { micros < five_days }
    ensures { result ≡ day_part end_of_day micros }
{
    micros / 8_192 * 13_343_999 / 140_737_488_355_328
}

// Nothing where it is in another month, or something is out of range.
pub fn restate(stamp: DatetimeTz, to: Offset) -> Option<DatetimeTz>
    ensures { Restated result (restate (datetime_tz_value stamp) to.minutes) }
{
    if !stamp.parts().in_range(Kind::DatetimeTz) || !to.in_range() {
        return None;
    }
    let read = reads(stamp.time.micros, stamp.offset, to);
    let days = whole_days(read);
    // Two more than the day of the month there.
    let day = stamp.date.day as u64 + days;
    if day < 3 {
        return None;
    }
    let date = Date::new(stamp.date.year, stamp.date.month, (day - 2) as u32);
    if !date.in_range() {
        return None;
    }
    Some(DatetimeTz {
        date,
        time: Time::new(read - days * Time::END_OF_DAY),
        offset: to,
    })
}
