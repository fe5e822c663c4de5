// The six kinds of value, and what a value of each has. A `Date` and a `Time` stand for themselves.
ghost use Rattle.std.specs.Prelude.{◌≡◌};
ghost use Rattle.format.specs.Values as format;
ghost use Rattle.format.specs.Keeping.{owned};
ghost use Rattle.values.specs.Meaning.{kind_from, form_from, value_from, date_value, date_tz_value, time_value, time_tz_value, datetime_value, datetime_tz_value};
ghost use Rattle.values.specs.Answers.{decoded};
ghost use Rattle.values.specs.Calls.{KindDated, KindTimed, KindZoned, KindOfNumber, KindNumber, ValueRestInRange, ValueInRange};

use crate::{Answer, Decoded, Form, Offset, Time};
use calendar::Date;

#[derive(Clone, Copy)]
pub struct DateTz {
    pub date: Date,
    pub offset: Offset,
}

#[derive(Clone, Copy)]
pub struct TimeTz {
    pub time: Time,
    pub offset: Offset,
}

#[derive(Clone, Copy)]
pub struct Datetime {
    pub date: Date,
    pub time: Time,
}

#[derive(Clone, Copy)]
pub struct DatetimeTz {
    pub date: Date,
    pub time: Time,
    pub offset: Offset,
}

#[derive(Clone, Copy)]
pub enum Kind {
    Date,
    DateTz,
    Time,
    TimeTz,
    Datetime,
    DatetimeTz,
}

impl Kind {
    pub fn dated(self) -> bool
        ensures { KindDated self result }
    {
        !matches!(self, Kind::Time | Kind::TimeTz)
    }

    pub fn timed(self) -> bool
        ensures { KindTimed self result }
    {
        !matches!(self, Kind::Date | Kind::DateTz)
    }

    pub fn zoned(self) -> bool
        ensures { KindZoned self result }
    {
        matches!(self, Kind::DateTz | Kind::TimeTz | Kind::DatetimeTz)
    }
}

// A number that names no kind.
#[derive(Clone, Copy)]
pub struct NoSuchKind;

impl TryFrom<u32> for Kind {
    type Error = NoSuchKind;

    ghost try_from_gives = { KindOfNumber };

    fn try_from(number: u32) -> Result<Kind, NoSuchKind> {
        match number {
            0 => Ok(Kind::Date),
            1 => Ok(Kind::DateTz),
            2 => Ok(Kind::Time),
            3 => Ok(Kind::TimeTz),
            4 => Ok(Kind::Datetime),
            5 => Ok(Kind::DatetimeTz),
            _ => Err(NoSuchKind),
        }
    }
}

impl From<Kind> for u32 {
    ghost from_gives = { KindNumber };

    fn from(kind: Kind) -> u32 {
        match kind {
            Kind::Date => 0,
            Kind::DateTz => 1,
            Kind::Time => 2,
            Kind::TimeTz => 3,
            Kind::Datetime => 4,
            Kind::DatetimeTz => 5,
        }
    }
}

// The parts of a value of any kind, as `stamp` hands them to a form's writer: those that the kind lacks are not looked at. Between our own crates.
#[derive(Clone, Copy)]
pub struct Value {
    pub date: Date,
    pub time: Time,
    pub offset: Offset,
}

impl Value {
    // Whether time and offset are, where the kind has them: what is left to test where the date's day number is asked for.
    pub fn rest_in_range(self, kind: Kind) -> bool
        ensures { ValueRestInRange self kind result }
    {
        (!kind.timed() || self.time.in_range()) && (!kind.zoned() || self.offset.in_range())
    }

    // Whether each part that the kind has is in its range.
    pub fn in_range(self, kind: Kind) -> bool
        ensures { ValueInRange self kind result }
    {
        (!kind.dated() || self.date.in_range()) && self.rest_in_range(kind)
    }
}

// What the six kinds have in common, so that a call is written once for all of them, and compiled for each by itself.
pub trait Stamp: Copy {
    ghost kind: { format.Kind };

    ghost value: { Self → format.Value };

    fn kind() -> Kind
        ensures { kind_from result ≡ kind };

    // All parts: those that the kind lacks are 0.
    fn parts(self) -> Value
        ensures { value_from result ≡ value self };

    // The value that has these parts: those that the kind lacks are not looked at.
    fn of(parts: Value) -> Self
        ensures { value result ≡ owned kind (value_from parts) };

    // What was read, under the kind.
    fn decoded(self, form: Form) -> Decoded
        ensures { decoded result ≡ record { kind = kind; form = form_from form; value = value self } };
}

impl Stamp for Date {
    ghost kind = { format.Date };

    ghost value = { date_value };

    fn kind() -> Kind {
        Kind::Date
    }

    fn parts(self) -> Value {
        Value {
            date: self,
            time: Time::new(0),
            offset: Offset::new(0),
        }
    }

    fn of(parts: Value) -> Date {
        parts.date
    }

    fn decoded(self, form: Form) -> Decoded {
        Decoded::Date(Answer { value: self, form })
    }
}

impl Stamp for DateTz {
    ghost kind = { format.DateTz };

    ghost value = { date_tz_value };

    fn kind() -> Kind {
        Kind::DateTz
    }

    fn parts(self) -> Value {
        Value {
            date: self.date,
            time: Time::new(0),
            offset: self.offset,
        }
    }

    fn of(parts: Value) -> DateTz {
        DateTz {
            date: parts.date,
            offset: parts.offset,
        }
    }

    fn decoded(self, form: Form) -> Decoded {
        Decoded::DateTz(Answer { value: self, form })
    }
}

impl Stamp for Time {
    ghost kind = { format.Time };

    ghost value = { time_value };

    fn kind() -> Kind {
        Kind::Time
    }

    fn parts(self) -> Value {
        Value {
            date: Date::new(0, 0, 0),
            time: self,
            offset: Offset::new(0),
        }
    }

    fn of(parts: Value) -> Time {
        parts.time
    }

    fn decoded(self, form: Form) -> Decoded {
        Decoded::Time(Answer { value: self, form })
    }
}

impl Stamp for TimeTz {
    ghost kind = { format.TimeTz };

    ghost value = { time_tz_value };

    fn kind() -> Kind {
        Kind::TimeTz
    }

    fn parts(self) -> Value {
        Value {
            date: Date::new(0, 0, 0),
            time: self.time,
            offset: self.offset,
        }
    }

    fn of(parts: Value) -> TimeTz {
        TimeTz {
            time: parts.time,
            offset: parts.offset,
        }
    }

    fn decoded(self, form: Form) -> Decoded {
        Decoded::TimeTz(Answer { value: self, form })
    }
}

impl Stamp for Datetime {
    ghost kind = { format.Datetime };

    ghost value = { datetime_value };

    fn kind() -> Kind {
        Kind::Datetime
    }

    fn parts(self) -> Value {
        Value {
            date: self.date,
            time: self.time,
            offset: Offset::new(0),
        }
    }

    fn of(parts: Value) -> Datetime {
        Datetime {
            date: parts.date,
            time: parts.time,
        }
    }

    fn decoded(self, form: Form) -> Decoded {
        Decoded::Datetime(Answer { value: self, form })
    }
}

impl Stamp for DatetimeTz {
    ghost kind = { format.DatetimeTz };

    ghost value = { datetime_tz_value };

    fn kind() -> Kind {
        Kind::DatetimeTz
    }

    fn parts(self) -> Value {
        Value {
            date: self.date,
            time: self.time,
            offset: self.offset,
        }
    }

    fn of(parts: Value) -> DatetimeTz {
        DatetimeTz {
            date: parts.date,
            time: parts.time,
            offset: parts.offset,
        }
    }

    fn decoded(self, form: Form) -> Decoded {
        Decoded::DatetimeTz(Answer { value: self, form })
    }
}
