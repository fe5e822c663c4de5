// The parts of a text, each stored in words of up to eight octets.
ghost use Rattle.std.specs.Prelude.{◌≡◌, ◌+◌, ◌/◌, ◌%◌, ◌<◌, ◌≤◌, true, false, ◌++◌, length, drop};
ghost use Rattle.std.proofs.lemmas.List.Edits.{sets};
ghost use Rattle.format.specs.Calendar.{is_day};
ghost use Rattle.format.specs.Values.{time_in_range, offset_in_range};
ghost use Rattle.format.specs.Fields.{width};
ghost use Rattle.octets.specs.Words.{low_octets};
ghost use Rattle.calendar.specs.Meaning.{day_from};
ghost use Rattle.text.specs.Putting.{date_octets, clock_octets, offset_octets, year_month_day, hour_minute_second, fraction_field, PointDigits, sign_hour_minute, sign_mark};

use crate::fraction::Digits;
use crate::parts::{MINUS, PLUS};
use crate::words;
use calendar::Date;
use values::{Offset, Time};

// ---- the date

// A year's century, by a product: exact for the years that there are.
fn century(year: u32) -> u32
    requires { year < 10000 }
    ensures { result ≡ year / 100 }
{
    year * 5243 / 524288
}

// The digits, added to the word of `00-00-00`.
fn year_month_day(year: u32, month: u32, day: u32) -> u64
    requires { (year < 100) × (month < 100) × (day < 100) }
    ensures { low_octets 8 result ≡ year_month_day year month day }
{
    words::clock_digits(year as u64, month as u64, day as u64) + 0x30302d30302d3030
}

// A date stands in front, whatever the kind.
pub fn put_date(buf: &mut [u8], date: Date)
    requires { (is_day (day_from date) ≡ true) × (10 ≤ length buf.old) }
    ensures { buf.new ≡ sets buf.old 0 (date_octets true (day_from date)) }
{
    let century = century(date.year);
    octets::put_low::<2>(buf, 0, words::two_digits(century as u64) + 0x3030);
    octets::put_low::<8>(
        buf,
        2,
        year_month_day(date.year - 100 * century, date.month, date.day),
    );
}

// ---- the time

// Whole minutes and hours of the day's seconds, by products: exact up to 24:00.
fn minutes_in(seconds: u64) -> u64
    requires { seconds ≤ 86400 }
    ensures { result ≡ seconds / 60 }
{
    seconds * 1118482 / 67108864
}

fn hours_in(seconds: u64) -> u64
    requires { seconds ≤ 86400 }
    ensures { result ≡ seconds / 3600 }
{
    seconds * 37283 / 134217728
}

// The digits, added to the word of `00:00:00`.
fn hour_minute_second(seconds: u64) -> u64
    requires { seconds ≤ 86400 }
    ensures { low_octets 8 result ≡ hour_minute_second seconds }
{
    let minutes = minutes_in(seconds);
    let hours = hours_in(seconds);
    words::clock_digits(hours, minutes - 60 * hours, seconds - 60 * minutes) + 0x30303a30303a3030
}

// An octet 0, the point and all six digits: the digits, added to the word of 0 and `.000000`.
fn point_digits(micros: u32) -> u64
    requires { micros < 1000000 }
    ensures { PointDigits micros result }
{
    let first = micros / 10000;
    let hundreds = micros / 100;
    let middle = hundreds - 100 * first;
    let last = micros - 100 * hundreds;
    words::fraction_digits(first as u64, middle as u64, last as u64) + 0x3030303030302e00
}

// How many octets the fraction takes: its point too.
pub fn fraction_length(digits: Digits) -> usize
    ensures { result ≡ width (fraction_field digits.number) }
{
    if digits.number == 0 {
        0
    } else {
        digits.number as usize + 1
    }
}

// The word to store so many octets further on: what is left of the first word, and then that many octets of the second, from its second on.
fn shifted(first: u64, second: u64, octets: usize) -> u64
    requires { (octets ≤ 7) × (second % 256 ≡ 0) }
    ensures { low_octets 8 result ≡ drop octets (low_octets 8 first) ++ low_octets octets (second / 256) }
{
    let bits = octets as u64 * 8;
    (first >> bits) + (second << (56 - bits))
}

// The second word begins so far into the first that it ends with the fraction: one way for any number of digits. Digits past it are cut.
pub fn put_time(buf: &mut [u8], at: usize, digits: Digits, time: Time)
    requires { (time_in_range time.micros ≡ true) × (at + (8 + width (fraction_field digits.number)) ≤ length buf.old) }
    ensures { buf.new ≡ sets buf.old at (clock_octets true false digits.number time.micros) }
{
    let micros = time.micros;
    let clock = hour_minute_second(micros / 1000000);
    let fraction = point_digits((micros % 1000000) as u32);
    let octets = fraction_length(digits);
    octets::put_low::<8>(buf, at, clock);
    octets::put_low::<8>(buf, at + octets, shifted(clock, fraction, octets));
}

// ---- the offset

fn sign_mark(minutes: i32) -> u8
    ensures { result ≡ sign_mark minutes }
{
    if minutes < 0 { MINUS } else { PLUS }
}

// The sign and the digits, added to the word of an octet 0 and `00:00`.
fn sign_hour_minute(minutes: i32, ahead: u32) -> u64
    requires { ahead ≤ 1439 }
    ensures { low_octets 6 result ≡ sign_hour_minute minutes ahead }
{
    let hours = ahead / 60;
    words::offset_digits(hours as u64, (ahead - 60 * hours) as u64)
        + 0x30303a303000
        + sign_mark(minutes) as u64
}

// The minutes lose their sign before they are split, so that the sign of -00:30 is not that of its hours.
pub fn put_offset(buf: &mut [u8], at: usize, offset: Offset)
    requires { (offset_in_range offset.minutes ≡ true) × (at + 6 ≤ length buf.old) }
    ensures { buf.new ≡ sets buf.old at (offset_octets true offset.minutes) }
{
    let minutes = offset.minutes;
    let word = sign_hour_minute(minutes, minutes.unsigned_abs());
    octets::put_low::<6>(buf, at, word);
}
