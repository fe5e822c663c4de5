// The parts of a value besides its date: the time of day and the offset from UTC.
ghost use Rattle.values.specs.Calls.{TimeNew, TimeEndOfDay, TimeIsEndOfDay, TimeInRange, OffsetNew, OffsetInRange};

// Microseconds since the start of the day.
#[derive(Clone, Copy)]
pub struct Time {
    pub micros: u64,
}

impl Time {
    // 24:00, the end of the day: the largest time, and not the same as 00:00.
    pub const END_OF_DAY: u64 = 86_400_000_000;

    pub fn new(micros: u64) -> Time
        ensures { TimeNew micros result }
    {
        Time { micros }
    }

    pub fn end_of_day() -> Time
        ensures { TimeEndOfDay result }
    {
        Time {
            micros: Time::END_OF_DAY,
        }
    }

    pub fn is_end_of_day(self) -> bool
        ensures { TimeIsEndOfDay self result }
    {
        self.micros == Time::END_OF_DAY
    }

    pub fn in_range(self) -> bool
        ensures { TimeInRange self result }
    {
        self.micros <= Time::END_OF_DAY
    }
}

// Minutes ahead of UTC, negative behind it: carried beside the local date and time.
#[derive(Clone, Copy)]
pub struct Offset {
    pub minutes: i32,
}

impl Offset {
    // 23:59, either way.
    pub const LIMIT: i32 = 1_439;

    pub fn new(minutes: i32) -> Offset
        ensures { OffsetNew minutes result }
    {
        Offset { minutes }
    }

    // Both bounds are tested, and nothing is negated: the least number of 32 bits has no opposite.
    pub fn in_range(self) -> bool
        ensures { OffsetInRange self result }
    {
        let minutes = self.minutes;
        if minutes < 0 - Offset::LIMIT {
            return false;
        }
        minutes <= Offset::LIMIT
    }
}
