// The compact image of a value: whether an offset stands in front, the number, and how many octets it takes.
ghost use Rattle.std.specs.Prelude.{◌≡◌, true, not, ◌/◌};
ghost use Rattle.format.specs.Words.{if_any, accepted, unless};
ghost use Rattle.format.specs.Calendar.{day_number};
ghost use Rattle.format.specs.Values.{dated, timed, in_range};
ghost use Rattle.format.specs.Compact.{epoch, number, carried, has_compact, number_octets, compact_image};
ghost use Rattle.calendar.specs.Meaning.{day_from};
ghost use Rattle.values.specs.Meaning.{kind_from, value_from};
ghost use Rattle.values.specs.Answers.{outcome};
ghost use Rattle.compact.specs.Meaning.{image_octets};

use crate::limits;
use crate::put::Image;
use values::{Kind, Refusal, Value};

// Always of a DateTz; of the others only where it is not zero.
#[tactic(auto, unfolding(format::specs::Compact::carried))]
fn carries(kind: Kind, value: Value) -> bool
    ensures { result ≡ carried (kind_from kind) (value_from value) }
{
    match kind {
        Kind::DateTz => true,
        Kind::TimeTz | Kind::DatetimeTz => value.offset.minutes != 0,
        Kind::Date | Kind::Time | Kind::Datetime => false,
    }
}

// The number since 2020-01-01: days, milliseconds of the day, or both. What is cut is a part of the day, so the moment goes down before 2020 too;
// 24:00 counts as the whole day, and so becomes the next day's 00:00.
#[tactic(auto, unfolding(format::specs::Compact::number, format::specs::Compact::count, format::specs::Compact::start, format::specs::Compact::per_day))]
fn number_of(kind: Kind, value: Value, day: u32) -> i64
    requires { dated (kind_from kind) ≡ true → day ≡ day_number (day_from value.date) }
    ensures { result ≡ number (kind_from kind) (value_from value) }
{
    let days = i64::from(day) - limits::EPOCH;
    let millis = (value.time.micros / 1000) as i64;
    match kind {
        Kind::Date | Kind::DateTz => days,
        Kind::Time | Kind::TimeTz => millis,
        Kind::Datetime | Kind::DatetimeTz => days * limits::MILLIS_PER_DAY as i64 + millis,
    }
}

// As few as hold the number, but no fewer than what lies behind an offset takes.
#[tactic(auto, unfolding(format::specs::Compact::number_octets))]
fn octets_of(kind: Kind, front: bool, number: i64) -> usize
    ensures { result ≡ number_octets (kind_from kind) front number }
{
    octets::fewest_octets(number).max(limits::padded_to(kind, front))
}

// Whether the value has no compact form: x, its number, is past the greatest. The value itself is only what the contract speaks of.
#[inline(always)]
fn is_beyond(kind: Kind, value: Value, front: bool, x: i64) -> bool
    requires { (front ≡ carried (kind_from kind) (value_from value)) × (x ≡ number (kind_from kind) (value_from value)) }
    ensures { result ≡ not (has_compact (kind_from kind) (value_from value)) }
{
    limits::greatest_number(kind, front) < x
}

// `day`: the day number of the value's date, where the kind has one.
pub fn image(kind: Kind, value: Value, day: u32) -> Result<Image, Refusal>
    requires { (in_range (kind_from kind) (value_from value) ≡ true) × (dated (kind_from kind) ≡ true → day ≡ day_number (day_from value.date)) }
    ensures { outcome image_octets result ≡ unless (has_compact (kind_from kind) (value_from value)) 3 (accepted (compact_image (kind_from kind) (value_from value))) }
{
    let front = carries(kind, value);
    let number = number_of(kind, value, day);
    if is_beyond(kind, value, front, number) {
        return Err(Refusal::NoCompact); // past the last T
    }
    Ok(Image {
        offset: front.then_some(value.offset.minutes),
        octets: octets_of(kind, front, number),
        number,
    })
}
