// The calls on UTC instants, for C: a DatetimeTz by its parts, an instant as a number.
ghost use Rattle.std.specs.Prelude.{◌≡◌, ◌≤◌};
ghost use Rattle.format.specs.Values.{end_of_day};
ghost use Rattle.values.specs.Meaning.{datetime_tz_value};
ghost use Rattle.instants.specs.Meaning.{found, stated};
ghost use Rattle.boundary.specs.Utc.{stamp_numbers, in_day, HandsNumber, HandsStamp, InstantForC, AddForC, DifferenceForC, AtForC, RestateForC};

use crate::handing::handed;
use calendar::Date;
use instants::{Instant, Refusal};
use values::{DatetimeTz, Offset, Time};

fn stamp_by_parts(year: u32, month: u32, day: u32, micros: u64, offset: i32) -> DatetimeTz
    ensures { datetime_tz_value result ≡ record { date = record { year = year; month = month; day = day }; micros = micros; offset = offset } }
{
    let date = Date::new(year, month, day);
    let time = Time::new(micros);
    let offset = Offset::new(offset);
    DatetimeTz { date, time, offset }
}

// ---- what is handed over; after a refusal nothing is

fn hand_instant(answer: Result<Instant, Refusal>, to: &mut i64) -> u32
    ensures { HandsNumber (found answer) to.old result to.new }
{
    handed(answer, to, |instant| instant.micros)
}

// What the calls state has a time of the day, so that its cast keeps it.
fn stamp_parts(stamp: DatetimeTz) -> [i64; 5]
    requires { stamp.time.micros ≤ end_of_day }
    ensures { result ≡ stamp_numbers (datetime_tz_value stamp) }
{
    let year = stamp.date.year as i64;
    let month = stamp.date.month as i64;
    let day = stamp.date.day as i64;
    let micros = stamp.time.micros as i64;
    let minutes = stamp.offset.minutes as i64;
    [year, month, day, micros, minutes]
}

fn hand_stamp(answer: Result<DatetimeTz, Refusal>, parts: &mut [i64; 5]) -> u32
    requires { in_day (stated answer) }
    ensures { HandsStamp (stated answer) parts.old result parts.new }
{
    handed(answer, parts, stamp_parts)
}

// ---- the calls

pub fn stamp_instant(
    year: u32,
    month: u32,
    day: u32,
    micros: u64,
    offset: i32,
    instant: &mut i64,
) -> u32
    ensures { InstantForC (record { date = record { year = year; month = month; day = day }; micros = micros; offset = offset }) instant.old result instant.new }
{
    let stamp = stamp_by_parts(year, month, day, micros, offset);
    hand_instant(Instant::try_from(stamp), instant)
}

pub fn stamp_add(instant: i64, micros: i64, sum: &mut i64) -> u32
    ensures { AddForC instant micros sum.old result sum.new }
{
    let start = Instant::new(instant);
    hand_instant(start.add(micros), sum)
}

pub fn stamp_difference(a: i64, b: i64, difference: &mut i64) -> u32
    ensures { DifferenceForC a b difference.old result difference.new }
{
    let one = Instant::new(a);
    let other = Instant::new(b);
    handed(one.difference(other), difference, |micros| micros)
}

pub fn stamp_at(instant: i64, offset: i32, parts: &mut [i64; 5]) -> u32
    ensures { AtForC instant offset parts.old result parts.new }
{
    let moment = Instant::new(instant);
    let offset = Offset::new(offset);
    hand_stamp(moment.at(offset), parts)
}

pub fn stamp_restate(
    year: u32,
    month: u32,
    day: u32,
    micros: u64,
    offset: i32,
    to: i32,
    parts: &mut [i64; 5],
) -> u32
    ensures { RestateForC (record { date = record { year = year; month = month; day = day }; micros = micros; offset = offset }) to parts.old result parts.new }
{
    let stamp = stamp_by_parts(year, month, day, micros, offset);
    hand_stamp(instants::restate(stamp, Offset::new(to)), parts)
}
