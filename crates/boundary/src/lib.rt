// The calls for C: numbers, and octets as slices. `boundary_c` exports them. No allocation, no state.
#![tactic(auto)]

ghost use Rattle.std.specs.Prelude.{◌≡◌};
ghost use Rattle.format.specs.Writing.{encode};
ghost use Rattle.values.specs.Meaning.{kind_from, kind_found, settings_from, value_from};
ghost use Rattle.values.specs.Promise.{Writes};
ghost use Rattle.boundary.specs.Boundary.{writing, WritesNumbered, reading_as, reading_of, ReadsNumbered};

mod files;
mod handing;
mod utc;

use calendar::Date;
pub use files::{
    stamp_schedule_holds, stamp_schedule_over, stamp_schedule_read, stamp_schedule_record,
};
pub use utc::{stamp_add, stamp_at, stamp_difference, stamp_instant, stamp_restate};
use values::{
    DateTz, Datetime, DatetimeTz, Kind, NoSuchKind, Offset, Refusal, Settings, Stamp, Time, TimeTz,
    Value,
};

// ---- writing

// The kind's own value, by the parts that the kind has.
fn write_as<T: Stamp>(value: Value, settings: Settings, octets: &mut [u8]) -> Result<usize, Refusal>
    ensures { Writes (encode T.kind (settings_from settings) (value_from value)) octets.old result octets.new }
{
    stamp::write(T::of(value), settings, octets)
}

// Each writer is called here and nowhere else, so that it is compiled into this place.
fn write_known(
    kind: Kind,
    value: Value,
    settings: Settings,
    octets: &mut [u8],
) -> Result<usize, Refusal>
    ensures { Writes (encode (kind_from kind) (settings_from settings) (value_from value)) octets.old result octets.new }
{
    match kind {
        Kind::Date => write_as::<Date>(value, settings, octets),
        Kind::DateTz => write_as::<DateTz>(value, settings, octets),
        Kind::Time => write_as::<Time>(value, settings, octets),
        Kind::TimeTz => write_as::<TimeTz>(value, settings, octets),
        Kind::Datetime => write_as::<Datetime>(value, settings, octets),
        Kind::DatetimeTz => write_as::<DatetimeTz>(value, settings, octets),
    }
}

// No such kind comes after the digits, which every writer tests first.
fn write_numbered(
    number: u32,
    value: Value,
    settings: Settings,
    octets: &mut [u8],
) -> Result<usize, Refusal>
    ensures { Writes (writing number (settings_from settings) (value_from value)) octets.old result octets.new }
{
    let Ok(kind) = Kind::try_from(number) else {
        if !settings.in_range() {
            return Err(Refusal::Digits);
        }
        return Err(Refusal::Value);
    };
    write_known(kind, value, settings, octets)
}

// Numbers and a flag, as C has them. Parts that the kind lacks are not looked at.
pub fn stamp_write(
    kind: u32,
    year: u32,
    month: u32,
    day: u32,
    micros: u64,
    offset: i32,
    binary: bool,
    version: u32,
    digits: u32,
    octets: &mut [u8],
    count: &mut usize,
) -> u32
    ensures { WritesNumbered kind (record { binary = binary; version = version; digits = digits }) (record { date = record { year = year; month = month; day = day }; micros = micros; offset = offset }) octets.old result count.new octets.new }
{
    let settings = Settings::new(binary, version, digits);
    let value = Value {
        date: Date::new(year, month, day),
        time: Time::new(micros),
        offset: Offset::new(offset),
    };
    match write_numbered(kind, value, settings, octets) {
        Ok(length) => {
            *count = length;
            0
        }
        Err(refusal) => {
            *count = 0;
            refusal.into()
        }
    }
}

// ---- reading

// 6, 7 and 8 name an either-or reader, which finds the kind in the octets; no other number looks at them. Most callers name one of the six kinds, so
// that is asked first.
fn kind_in(number: u32, octets: &[u8]) -> Result<Kind, NoSuchKind>
    ensures { reading_as (kind_found result) octets.now ≡ reading_of number octets.now }
{
    if number < 6 {
        return Kind::try_from(number);
    }
    match number {
        6 => Ok(stamp::date_kind(octets)),
        7 => Ok(stamp::time_kind(octets)),
        8 => Ok(stamp::datetime_kind(octets)),
        _ => Err(NoSuchKind),
    }
}

pub fn stamp_read(kind: u32, octets: &[u8], parts: &mut [i64; 8]) -> u32
    ensures { ReadsNumbered kind octets.now parts.old result parts.new }
{
    let Ok(found) = kind_in(kind, octets) else {
        return Refusal::Value.into();
    };
    handing::hand_known(found, octets, parts)
}
