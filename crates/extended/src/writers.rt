// Writing: the ranges, the room, then the image in two or three stores.
ghost use Rattle.std.specs.Prelude.{◌≡◌, ◌+◌, ◌*◌, ◌++◌, ◌<◌, ◌≤◌, true, length};
ghost use Rattle.std.proofs.lemmas.List.Edits.{sets};
ghost use Rattle.format.specs.Words.{needs, if_any, accepted, unless};
ghost use Rattle.format.specs.Floor.{mod_f};
ghost use Rattle.format.specs.Calendar.{is_day, day_number};
ghost use Rattle.format.specs.Values as format;
ghost use Rattle.format.specs.Octets.{unsigned_octets};
ghost use Rattle.format.specs.Extended.{head_bits, day_width};
ghost use Rattle.format.specs.Writing.{encode_in};
ghost use Rattle.calendar.specs.Meaning.{day_from, number_answered};
ghost use Rattle.values.specs.Meaning.{value_from};
ghost use Rattle.values.specs.Promise.{Writes};

use crate::{head, image_length};
use calendar::Date;
use values::{Offset, Refusal, Stamp, Value};

// The day number, 0 where the kind has no date: no octet is written of it then.
#[tactic(auto, unfolding(format::specs::Calendar::number_asked))]
fn day_of<T: Stamp>(date: Date) -> Option<u32>
    ensures { number_answered result
        ≡ unless (needs (format.dated T.kind) (is_day (day_from date))) 2
        (accepted (if_any (format.dated T.kind) (day_number (day_from date)))) }
{
    if T::kind().dated() {
        return calendar::day_number(date);
    }
    Some(0)
}

// The header of the kind, proved by itself: the writer asks nothing more of the kind for it.
#[inline(always)]
fn header_of<T: Stamp>(offset: Offset) -> u16
    ensures { result ≡ head_bits T.kind * 4096 + if_any (format.zoned T.kind) (mod_f offset.minutes 4096) }
{
    head::header(T::kind(), offset)
}

// Without a day number the microseconds are five octets by themselves.
fn put_time(buf: &mut [u8], header: u16, micros: u64)
    requires { 7 ≤ length buf.old }
    ensures { buf.new ≡ sets buf.old 0 (unsigned_octets 2 header ++ unsigned_octets 5 micros) }
{
    octets::put_unsigned::<2>(buf, 0, header as u64);
    octets::put_unsigned::<5>(buf, 2, micros);
}

// Day number and microseconds are one word of 8.
fn put_datetime(buf: &mut [u8], header: u16, day: u32, micros: u64)
    requires { (10 ≤ length buf.old) × (day < 0x100_0000) × (micros < 0x100_0000_0000) }
    ensures { buf.new ≡ sets buf.old 0 (unsigned_octets 2 header ++ (unsigned_octets 3 day ++ unsigned_octets 5 micros)) }
{
    octets::put_unsigned::<2>(buf, 0, header as u64);
    octets::put_unsigned::<8>(buf, 2, (day as u64) * 0x100_0000_0000 + micros);
}

#[tactic(auto, unfolding(format::specs::Extended::day_width, format::specs::Octets::unsigned_octets))]
fn put<T: Stamp>(buf: &mut [u8], header: u16, day: u32, micros: u64)
    requires { (7 + day_width T.kind ≤ length buf.old) × (day < 0x100_0000) × (micros < 0x100_0000_0000) }
    ensures { buf.new ≡ sets buf.old 0 (unsigned_octets 2 header ++ (unsigned_octets (day_width T.kind) day ++ unsigned_octets 5 micros)) }
{
    if T::kind().dated() {
        put_datetime(buf, header, day, micros);
    } else {
        put_time(buf, header, micros);
    }
}

pub fn write<T: Stamp>(value: Value, buf: &mut [u8]) -> Result<usize, Refusal>
    requires { format.timed T.kind ≡ true }
    ensures { Writes (encode_in T.kind format.extended (value_from value)) buf.old result buf.new }
{
    if !value.rest_in_range(T::kind()) {
        return Err(Refusal::Value);
    }
    let Some(day) = day_of::<T>(value.date) else {
        return Err(Refusal::Value);
    };
    let length = image_length::<T>();
    if buf.len() < length {
        return Err(Refusal::Buffer);
    }
    let header = header_of::<T>(value.offset);
    put::<T>(buf, header, day, value.time.micros);
    Ok(length)
}
