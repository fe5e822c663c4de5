// What readers answer beside a refusal. A writer answers how many octets it wrote.
ghost use Rattle.values.specs.Calls.{DecodedKind, DecodedForm, DecodedValue};

use crate::{DateTz, Datetime, DatetimeTz, Form, Kind, Offset, Stamp, Time, TimeTz, Value};
use calendar::Date;

// What was read: the value, and the form in which it stood. A form's reader answers all parts of it, a `Value`.
#[derive(Clone, Copy)]
pub struct Answer<T> {
    pub value: T,
    pub form: Form,
}

// A decoded stamp, under its kind.
#[derive(Clone, Copy)]
pub enum Decoded {
    Date(Answer<Date>),
    DateTz(Answer<DateTz>),
    Time(Answer<Time>),
    TimeTz(Answer<TimeTz>),
    Datetime(Answer<Datetime>),
    DatetimeTz(Answer<DatetimeTz>),
}

// Inlined, so that where the kind is known no stamp is stored only to be taken apart.
impl Decoded {
    #[inline(always)]
    pub fn kind(self) -> Kind
        ensures { DecodedKind self result }
    {
        match self {
            Decoded::Date(_) => Kind::Date,
            Decoded::DateTz(_) => Kind::DateTz,
            Decoded::Time(_) => Kind::Time,
            Decoded::TimeTz(_) => Kind::TimeTz,
            Decoded::Datetime(_) => Kind::Datetime,
            Decoded::DatetimeTz(_) => Kind::DatetimeTz,
        }
    }

    #[inline(always)]
    pub fn form(self) -> Form
        ensures { DecodedForm self result }
    {
        match self {
            Decoded::Date(answer) => answer.form,
            Decoded::DateTz(answer) => answer.form,
            Decoded::Time(answer) => answer.form,
            Decoded::TimeTz(answer) => answer.form,
            Decoded::Datetime(answer) => answer.form,
            Decoded::DatetimeTz(answer) => answer.form,
        }
    }

    // All parts: those that the kind lacks are 0.
    #[inline(always)]
    pub fn value(self) -> Value
        ensures { DecodedValue self result }
    {
        match self {
            Decoded::Date(answer) => answer.value.parts(),
            Decoded::DateTz(answer) => answer.value.parts(),
            Decoded::Time(answer) => answer.value.parts(),
            Decoded::TimeTz(answer) => answer.value.parts(),
            Decoded::Datetime(answer) => answer.value.parts(),
            Decoded::DatetimeTz(answer) => answer.value.parts(),
        }
    }
}

// What a form's reader hands to `schedule` of a DatetimeTz whose date nobody asks for: its local reading, in microseconds from 0001-01-01T00:00 on its own
// clock, and its offset. Between our own crates.
#[derive(Clone, Copy)]
pub struct Located {
    pub local: u64,
    pub offset: Offset,
}
