// The value of a number in its range.
ghost use Rattle.std.specs.Prelude.{◌≡◌, true, false, ◌≤◌};
ghost use Rattle.format.specs.Calendar.{last_number};
ghost use Rattle.format.specs.Values.{DatetimeTz, dated};
ghost use Rattle.format.specs.Local.{day_part};
ghost use Rattle.format.specs.Compact.{millis_per_day, per_day};
ghost use Rattle.format.specs.CompactReading.{compact_value};
ghost use Rattle.calendar.specs.Meaning.{day_from};
ghost use Rattle.values.specs.Meaning.{kind_from, value_from};
ghost use Rattle.values.specs.Answers.{local_found, local_and_offset};

use crate::limits;
use calendar::Date;
use values::{Kind, Located, Offset, Time, Value};

// The number of a value, counted from the least one of its kind: so that it is split unsigned, and goes down to its day before 2020 too.
#[derive(Clone, Copy)]
pub struct Counted {
    pub kind: Kind,
    pub count: u64,
    pub offset: Offset,
    ghost has_day: { dated (kind_from kind) ≡ true → day_part (per_day (kind_from kind)) count ≤ last_number },
    ghost within_day: { dated (kind_from kind) ≡ false → count ≤ millis_per_day },
}

impl Counted {
    // The day number.
    #[tactic(auto, unfolding(format::specs::Compact::per_day))]
    fn day(self) -> u32
        requires { dated (kind_from self.kind) ≡ true }
        ensures { result ≡ day_part (per_day (kind_from self.kind)) self.count }
    {
        if self.kind.timed() {
            return (self.count / limits::MILLIS_PER_DAY) as u32;
        }
        self.count as u32
    }

    #[tactic(auto, unfolding(format::specs::CompactReading::compact_value))]
    fn date(self) -> Date
        ensures { day_from result ≡ (compact_value (kind_from self.kind) self.count self.offset.minutes).date }
    {
        if !self.kind.dated() {
            return Date::new(0, 0, 0);
        }
        // There is such a day: the number is in its range.
        calendar::date_of(self.day()).unwrap()
    }

    #[tactic(auto, unfolding(format::specs::CompactReading::compact_value))]
    fn micros(self) -> u64
        ensures { result ≡ (compact_value (kind_from self.kind) self.count self.offset.minutes).micros }
    {
        match self.kind {
            Kind::Date | Kind::DateTz => 0,
            Kind::Time | Kind::TimeTz => self.count * 1000,
            Kind::Datetime | Kind::DatetimeTz => self.count % limits::MILLIS_PER_DAY * 1000,
        }
    }

    #[tactic(auto, unfolding(format::specs::CompactReading::compact_value))]
    pub fn value(self) -> Value
        ensures { value_from result ≡ compact_value (kind_from self.kind) self.count self.offset.minutes }
    {
        Value {
            date: self.date(),
            time: Time::new(self.micros()),
            offset: self.offset,
        }
    }

    // Where nobody asks for the date: the count is the local reading, in milliseconds.
    pub fn located(self) -> Located
        requires { kind_from self.kind ≡ DatetimeTz }
        ensures { local_found result ≡ local_and_offset (compact_value DatetimeTz self.count self.offset.minutes) }
    {
        Located {
            local: self.count * 1000,
            offset: self.offset,
        }
    }
}
