// Reading: the length, the header, the ranges, each before the next. The caller has seen the header's first four bits.
ghost use Rattle.std.specs.Prelude.{◌≡◌, ◌+◌, ◌%◌, ◌<◌, ◌≤◌, true, false, eqb, leb, length};
ghost use Rattle.format.specs.Words.{pick, either, accepted, unless};
ghost use Rattle.format.specs.Calendar.{no_date, last_number, day_of};
ghost use Rattle.format.specs.Values as format;
ghost use Rattle.format.specs.Octets.{unsigned_at};
ghost use Rattle.format.specs.Extended.{head_bits, day_width, offset_from};
ghost use Rattle.format.specs.Reading.{first_bits, read_as};
ghost use Rattle.calendar.specs.Meaning.{day_from};
ghost use Rattle.values.specs.Answers.{outcome};
ghost use Rattle.values.specs.Promise.{Parses, Locates};

use crate::{DATETIME_LENGTH, MICROS_LENGTH, head, image_length};
use calendar::Date;
use values::{Answer, DatetimeTz, Form, Located, Offset, Refusal, Stamp, Time, Value};

// ---- the header

// Whether a plain header's twelve bits are zero: its second octet is 0 then. Both are compared at once, the least significant first.
fn is_plain(s: &[u8]) -> bool
    requires { (2 ≤ length s.now) × (first_bits s.now ≡ 8) }
    ensures { result ≡ eqb (unsigned_at s.now 0 2 % 4096) 0 }
{
    (s[0] as u32) + (s[1] as u32) * 256 == head::PLAIN_OCTET
}

// The offset of a zoned header.
fn zoned_offset(s: &[u8]) -> Offset
    requires { 2 ≤ length s.now }
    ensures { result.minutes ≡ offset_from (unsigned_at s.now 0 2 % 4096) }
{
    let header = (s[0] as u32) * 256 + (s[1] as u32);
    head::offset_of(header % 4096)
}

// The offset of the kind's header, 0 where it is plain.
fn offset_in<T: Stamp>(s: &[u8]) -> Result<Offset, Refusal>
    requires { (2 ≤ length s.now) × (format.zoned T.kind ≡ false → first_bits s.now ≡ 8) }
    ensures { let bits = unsigned_at s.now 0 2 % 4096 in
        outcome (λ o. o.minutes) result
        ≡ unless (either (format.zoned T.kind) (eqb bits 0)) 6
        (unless (format.offset_in_range (offset_from bits)) 8
        (accepted (offset_from bits))) }
{
    if T::kind().zoned() {
        let offset = zoned_offset(s);
        if !offset.in_range() {
            return Err(Refusal::Range);
        }
        return Ok(offset);
    }
    if !is_plain(s) {
        return Err(Refusal::Octet);
    }
    Ok(Offset::new(0))
}

// ---- the time

// An octet and a word of 4, behind the header and the day number. Where there is a day number, it is in one word with them, but the compiler would not load
// that once for both.
fn time_at(s: &[u8], at: usize) -> Time
    requires { at + 5 ≤ length s.now }
    ensures { result.micros ≡ unsigned_at s.now at 5 }
{
    Time::new((s[at] as u64) * 0x1_0000_0000 + (octets::take4(s, at + 1) as u64))
}

fn time_in<T: Stamp>(s: &[u8]) -> Result<Time, Refusal>
    requires { 7 + day_width T.kind ≤ length s.now }
    ensures { let micros = unsigned_at s.now (2 + day_width T.kind) 5 in
        outcome (λ t. t.micros) result ≡ unless (format.time_in_range micros) 8 (accepted micros) }
{
    let time = time_at(s, image_length::<T>() - MICROS_LENGTH);
    if !time.in_range() {
        return Err(Refusal::Range);
    }
    Ok(time)
}

// ---- the day

// The first 3 octets of a word of 8.
fn day_in(s: &[u8]) -> u32
    requires { 10 ≤ length s.now }
    ensures { result ≡ unsigned_at s.now 2 3 }
{
    (octets::take8(s, 2) / 0x100_0000_0000) as u32
}

// The date, no day where the kind has none.
#[tactic(auto, unfolding(format::specs::Extended::day_width, format::specs::Octets::unsigned_at))]
fn date_in<T: Stamp>(s: &[u8]) -> Result<Date, Refusal>
    requires { 7 + day_width T.kind ≤ length s.now }
    ensures { let day = unsigned_at s.now 2 (day_width T.kind) in
        outcome day_from result ≡ unless (leb day last_number) 8 (accepted (pick (format.dated T.kind) (day_of day) no_date)) }
{
    if T::kind().dated() {
        return calendar::date_of(day_in(s)).ok_or(Refusal::Range);
    }
    Ok(Date::new(0, 0, 0))
}

// ---- readers

pub fn read<T: Stamp>(s: &[u8]) -> Result<Answer<Value>, Refusal>
    requires header { (first_bits s.now ≡ head_bits T.kind) × (0 < length s.now) }
    requires timed { format.timed T.kind ≡ true }
    ensures { Parses T.kind (read_as T.kind format.extended s.now) result }
{
    if s.len() != image_length::<T>() {
        return Err(Refusal::Length);
    }
    let offset = offset_in::<T>(s)?;
    let time = time_in::<T>(s)?;
    let date = date_in::<T>(s)?;
    Ok(Answer {
        value: Value { date, time, offset },
        form: Form::Extended,
    })
}

// The local reading of a DatetimeTz whose date nobody asks for, and its offset: the tests are those of `read`, but no date is made.
#[tactic(auto, unfolding(format::specs::Extended::day_width))]
pub fn locate_datetime_tz(s: &[u8]) -> Result<Located, Refusal>
    ensures { Locates (read_as format.DatetimeTz format.extended s.now) result }
{
    if s.len() != DATETIME_LENGTH {
        return Err(Refusal::Length);
    }
    let offset = offset_in::<DatetimeTz>(s)?;
    let time = time_in::<DatetimeTz>(s)?;
    let day = day_in(s);
    if Date::LAST_NUMBER < day {
        return Err(Refusal::Range);
    }
    Ok(Located {
        local: day as u64 * Time::END_OF_DAY + time.micros,
        offset,
    })
}
