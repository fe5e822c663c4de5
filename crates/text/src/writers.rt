// The text writer of each kind: each part has its place, so that nothing of the kind is left to test when it runs.
// The refusals come in their order: a part out of its range, then a buffer too short. The length is known before the first store.
ghost use Rattle.std.specs.Prelude.{◌≡◌, ◌+◌, ◌-◌, ◌≤◌, true, length, slice_set};
ghost use Rattle.std.proofs.lemmas.List.Edits.{sets};
ghost use Rattle.format.specs.Words.{needs, if_any};
ghost use Rattle.format.specs.Calendar.{is_day};
ghost use Rattle.format.specs.Values.{text, dated, timed, zoned, time_in_range, offset_in_range, in_range};
ghost use Rattle.format.specs.Fields.{widths};
ghost use Rattle.format.specs.Text.{clock_row, text_length};
ghost use Rattle.format.specs.Writing.{encode_in};
ghost use Rattle.calendar.specs.Meaning.{day_from};
ghost use Rattle.values.specs.Meaning.{value_from};
ghost use Rattle.values.specs.Promise.{Left, Writes};
ghost use Rattle.text.specs.Putting.{date_octets, clock_octets, offset_octets};

use crate::fraction::Digits;
use crate::{lengths, parts, writing};
use calendar::Date;
use values::{Offset, Refusal, Stamp, Time, Value};

// `T` joins a date and a time.
fn put_joint(buf: &mut [u8])
    requires { 11 ≤ length buf.old }
    ensures { buf.new ≡ slice_set buf.old 10 84 }
{
    buf[lengths::DATE] = parts::T;
}

// Only a time has digits.
fn digits_of<T: Stamp>(number: u32) -> Digits
    requires { if_any (timed T.kind) number ≤ 6 }
    ensures { result.number ≡ if_any (timed T.kind) number }
{
    let number = if T::kind().timed() { number } else { 0 };
    Digits { number }
}

fn put_date_of<T: Stamp>(buf: &mut [u8], date: Date)
    requires { (needs (dated T.kind) (is_day (day_from date)) ≡ true) × (if_any (dated T.kind) 10 ≤ length buf.old) }
    ensures { buf.new ≡ sets buf.old 0 (date_octets (dated T.kind) (day_from date)) }
{
    if T::kind().dated() {
        writing::put_date(buf, date);
    }
}

fn put_time_of<T: Stamp>(buf: &mut [u8], digits: Digits, time: Time)
    requires { (needs (timed T.kind) (time_in_range time.micros) ≡ true) × (if_any (dated T.kind) 10 + widths (clock_row (timed T.kind) (dated T.kind) digits.number) ≤ length buf.old) }
    ensures { buf.new ≡ sets buf.old (if_any (dated T.kind) 10) (clock_octets (timed T.kind) (dated T.kind) digits.number time.micros) }
{
    if !T::kind().timed() {
        return;
    }
    if T::kind().dated() {
        put_joint(buf);
        writing::put_time(buf, lengths::TIME_AT, digits, time);
        return;
    }
    writing::put_time(buf, 0, digits, time);
}

// The text ends with it.
fn put_offset_of<T: Stamp>(buf: &mut [u8], end: usize, offset: Offset)
    requires { (needs (zoned T.kind) (offset_in_range offset.minutes) ≡ true) × (if_any (zoned T.kind) 6 ≤ end) × (end ≤ length buf.old) }
    ensures { buf.new ≡ sets buf.old (end - if_any (zoned T.kind) 6) (offset_octets (zoned T.kind) offset.minutes) }
{
    if T::kind().zoned() {
        writing::put_offset(buf, end - lengths::OFFSET, offset);
    }
}

// The parts of a value in range, each at its place in a buffer with room for them all: its text, which has `end` octets.
#[inline(always)]
fn put_parts<T: Stamp>(buf: &mut [u8], end: usize, digits: Digits, value: Value)
    requires { (in_range T.kind (value_from value) ≡ true) × (end ≡ text_length T.kind digits.number) × (end ≤ length buf.old) }
    ensures { Left (encode_in T.kind (text digits.number) (value_from value)) buf.old 0 end buf.new }
{
    put_date_of::<T>(buf, value.date);
    put_time_of::<T>(buf, digits, value.time);
    put_offset_of::<T>(buf, end, value.offset);
}

pub fn write<T: Stamp>(value: Value, digits: u32, buf: &mut [u8]) -> Result<usize, Refusal>
    requires { if_any (timed T.kind) digits ≤ 6 }
    ensures { Writes (encode_in T.kind (text (if_any (timed T.kind) digits)) (value_from value)) buf.old result buf.new }
{
    if !value.in_range(T::kind()) {
        return Err(Refusal::Value);
    }
    let digits = digits_of::<T>(digits);
    let length = lengths::text_length(T::kind(), digits);
    if buf.len() < length {
        return Err(Refusal::Buffer);
    }
    put_parts::<T>(buf, length, digits, value);
    Ok(length)
}
