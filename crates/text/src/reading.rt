// The reader of each kind: the refusals in the order of their numbers, each over the whole text before the next.
ghost use Rattle.std.specs.Prelude.{◌≡◌, length, IfOk};
ghost use Rattle.format.specs.Words.{needs};
ghost use Rattle.format.specs.Calendar.{is_day};
ghost use Rattle.format.specs.Values as format;
ghost use Rattle.format.specs.Values.{dated};
ghost use Rattle.format.specs.TextReading.{digits_found};
ghost use Rattle.format.specs.Reading.{read_as};
ghost use Rattle.calendar.specs.Meaning.{day_from};
ghost use Rattle.values.specs.Promise.{Parses};
ghost use Rattle.text.specs.Outcomes.{all_but_day};

use crate::cursor::Cursor;
use crate::lengths;
use crate::parts::Clock;
use calendar::Date;
use values::{Answer, Form, Refusal, Stamp, Value};

// All that a text says, and what `ask` says of its date: whoever calls asks for a day in his own way, and refuses where there is none.
// The date is asked about as soon as it is there: behind all other tests the question would not be inlined.
pub fn read_asking<T: Stamp, A: Copy, F: Fn(Date) -> A + Drop>(
    s: &[u8],
    ask: F,
) -> Result<(A, Answer<Value>), Refusal>
    requires { F.IsAlwaysCallable ask }
    ensures asked { IfOk result (λ p. F.post ask p.1.value.date p.0) }
    ensures read { all_but_day T.kind (read_as T.kind (format.text (digits_found T.kind (length s.now))) s.now) result }
{
    let Some(digits) = lengths::digits_in(T::kind(), s.len()) else {
        return Err(Refusal::Length);
    };
    let start = Cursor { at: 0 };
    let Some((date, past_date)) = start.date_of::<T>(s) else {
        return Err(Refusal::Octet);
    };
    let said = ask(date);
    let Some(past_joint) = past_date.joint_of::<T>(s) else {
        return Err(Refusal::Octet);
    };
    let Some((hour, minute, second, past_clock)) = past_joint.clock_of::<T>(s) else {
        return Err(Refusal::Octet);
    };
    let Some((part, past_fraction)) = past_clock.fraction_of::<T>(s, digits) else {
        return Err(Refusal::Octet);
    };
    let Some((zone, _)) = past_fraction.zone_of::<T>(s) else {
        return Err(Refusal::Octet);
    };
    let clock = Clock::new(hour, minute, second, part);
    if zone.is_minus_zero() {
        return Err(Refusal::Redundant);
    }
    if !clock.in_range() {
        return Err(Refusal::Range);
    }
    if !zone.in_range() {
        return Err(Refusal::Range);
    }
    let value = Value {
        date,
        time: clock.time,
        offset: zone.offset(),
    };
    let form = Form::Text(digits.number);
    Ok((said, Answer { form, value }))
}

fn is_day_of<T: Stamp>(date: Date) -> bool
    ensures { result ≡ needs (dated T.kind) (is_day (day_from date)) }
{
    !T::kind().dated() || date.in_range()
}

pub fn read<T: Stamp>(s: &[u8]) -> Result<Answer<Value>, Refusal>
    ensures { Parses T.kind (read_as T.kind (format.text (digits_found T.kind (length s.now))) s.now) result }
{
    let (is_day, answer) = read_asking::<T, bool, _>(s, |date| is_day_of::<T>(date))?;
    if !is_day {
        return Err(Refusal::Range);
    }
    Ok(answer)
}
