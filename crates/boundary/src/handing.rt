// What was found, handed over to C; what was read as eight numbers.
ghost use Rattle.std.specs.Prelude.{◌≡◌, ◌≤◌, MatchResult};
ghost use Rattle.std.specs.Result.{ForOk};
ghost use Rattle.format.specs.Values as format;
ghost use Rattle.format.specs.Reading.{read};
ghost use Rattle.values.specs.Meaning.{form_from, kind_from, value_from};
ghost use Rattle.boundary.specs.Boundary.{form_number, form_digits, numbers_of, Hands};

use calendar::Date;
use values::{DateTz, Datetime, DatetimeTz, Form, Kind, Stamp, Time, TimeTz, Value};

// The number answered: 0, with what was found handed over as `shown` shows it, or the refusal's, with nothing handed over.
pub(crate) fn handed<T, E: Into<u32>, N: Copy, F: FnOnce(T) -> N + Drop>(
    answer: Result<T, E>,
    to: &mut N,
    shown: F,
) -> u32
    requires { ForOk answer (F.pre shown) }
    ensures { MatchResult answer (λ x. (result ≡ 0) × F.post shown x to.new) (λ e. E.converts e result × (to.new ≡ to.old)) }
{
    match answer {
        Ok(found) => {
            *to = shown(found);
            0
        }
        Err(refusal) => refusal.into(),
    }
}

// What was read has a time in range, so that its cast keeps it.
fn put_numbers(parts: &mut [i64; 8], kind: Kind, form: u32, digits: u32, value: Value)
    requires { value.time.micros ≤ format.end_of_day }
    ensures { parts.new ≡ numbers_of (kind_from kind) form digits (value_from value) }
{
    let kind = u32::from(kind) as i64;
    let form = form as i64;
    let digits = digits as i64;
    let year = value.date.year as i64;
    let month = value.date.month as i64;
    let day = value.date.day as i64;
    let micros = value.time.micros as i64;
    let minutes = value.offset.minutes as i64;
    *parts = [kind, form, digits, year, month, day, micros, minutes];
}

// A call for each form, so that no form waits for what another one says.
fn put_parts(parts: &mut [i64; 8], kind: Kind, form: Form, value: Value)
    requires { value.time.micros ≤ format.end_of_day }
    ensures { parts.new ≡ numbers_of (kind_from kind) (form_number (form_from form)) (form_digits (form_from form)) (value_from value) }
{
    match form {
        Form::Text(digits) => put_numbers(parts, kind, 0, digits, value),
        Form::Compact => put_numbers(parts, kind, 1, 0, value),
        Form::Extended => put_numbers(parts, kind, 2, 0, value),
    }
}

// Compiled for each kind by itself, so that nothing of the other kinds comes into its place.
fn hand<T: Stamp>(octets: &[u8], parts: &mut [i64; 8]) -> u32
    ensures { Hands (read T.kind octets.now) parts.old result parts.new }
{
    match stamp::read::<T>(octets) {
        Ok(decoded) => {
            put_parts(parts, decoded.kind(), decoded.form(), decoded.value());
            0
        }
        Err(refusal) => refusal.into(),
    }
}

pub(crate) fn hand_known(kind: Kind, octets: &[u8], parts: &mut [i64; 8]) -> u32
    ensures { Hands (read (kind_from kind) octets.now) parts.old result parts.new }
{
    match kind {
        Kind::Date => hand::<Date>(octets, parts),
        Kind::DateTz => hand::<DateTz>(octets, parts),
        Kind::Time => hand::<Time>(octets, parts),
        Kind::TimeTz => hand::<TimeTz>(octets, parts),
        Kind::Datetime => hand::<Datetime>(octets, parts),
        Kind::DatetimeTz => hand::<DatetimeTz>(octets, parts),
    }
}
