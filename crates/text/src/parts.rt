// The parts of a text: the numbers as they stand, right or wrong, and the questions about them.
ghost use Rattle.std.specs.Prelude.{◌≡◌, ◌+◌, ◌*◌, ◌≤◌, ◌==◌, nat_le};
ghost use Rattle.format.specs.Words.{both};
ghost use Rattle.format.specs.Fields.{is_sign};
ghost use Rattle.text.specs.Parts.{clock_in_day, offset_of};

use values::{Offset, Time};

// What joins a date and a time.
pub const T: u8 = b'T';

pub const PLUS: u8 = b'+';

pub const MINUS: u8 = b'-';

// Minutes of an hour and seconds of a minute go up to this.
const LAST_SIXTIETH: u32 = 59;

// `time` is all of it: hour, minute, second and fraction.
#[derive(Clone, Copy)]
pub struct Clock {
    pub minute: u32,
    pub second: u32,
    pub time: Time,
}

// A sign and a size, as the octets have them, so that `-00:00` can be told from `+00:00`.
#[derive(Clone, Copy)]
pub struct Zone {
    pub minus: bool,
    pub hours: u32,
    pub minutes: u32,
}

// `+` or `-`.
pub fn is_sign(octet: u8) -> bool
    ensures { result ≡ is_sign octet }
{
    matches!(octet, PLUS | MINUS)
}

pub fn is_minus(octet: u8) -> bool
    ensures { result ≡ (octet == 45) }
{
    octet == MINUS
}

impl Clock {
    pub fn new(hour: u32, minute: u32, second: u32, part: u32) -> Clock
        requires { (hour ≤ 255) × (minute ≤ 255) × (second ≤ 255) }
        ensures { result ≡ record { minute = minute; second = second; time = record { micros = (hour * 3600 + minute * 60 + second) * 1000000 + part } } }
    {
        let seconds = hour * 3_600 + minute * 60 + second;
        let time = Time::new(seconds as u64 * 1_000_000 + part as u64);
        Clock {
            minute,
            second,
            time,
        }
    }

    // Where no minute and no second is above 59, the hour is one of the day, or 24 with nothing behind it: then the whole is at most a day.
    pub fn in_range(self) -> bool
        ensures { result ≡ clock_in_day self.minute self.second self.time.micros }
    {
        self.minute <= LAST_SIXTIETH && self.second <= LAST_SIXTIETH && self.time.in_range()
    }
}

impl Zone {
    // What stands for the offset of a kind without one.
    pub const NONE: Zone = Zone {
        minus: false,
        hours: 0,
        minutes: 0,
    };

    // One sum: signs come at random, and a branch on one is guessed wrong half the time.
    pub fn is_minus_zero(self) -> bool
        ensures { result ≡ both self.minus (both (self.hours == 0) (self.minutes == 0)) }
    {
        let plus = !self.minus as u64;
        plus + self.hours as u64 + self.minutes as u64 == 0
    }

    pub fn in_range(self) -> bool
        ensures { result ≡ both (nat_le self.hours 23) (nat_le self.minutes 59) }
    {
        self.hours <= 23 && self.minutes <= LAST_SIXTIETH
    }

    // The sign is that of the whole: -00:30 is -30.
    pub fn offset(self) -> Offset
        requires { (self.hours ≤ 23) × (self.minutes ≤ 59) }
        ensures { result.minutes ≡ offset_of self }
    {
        let size = (self.hours * 60 + self.minutes) as i32;
        if self.minus {
            return Offset::new(-size);
        }
        Offset::new(size)
    }
}
