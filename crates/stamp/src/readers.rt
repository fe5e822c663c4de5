// The readers. Each promises what `read` says of the kind and the octets, or `read_either` of the two kinds.
ghost use Rattle.std.specs.Prelude.{◌≡◌, ◌<◌, eqb, length};
ghost use Rattle.format.specs.Words.{both};
ghost use Rattle.format.specs.Values as format;
ghost use Rattle.format.specs.Extended.{head_bits};
ghost use Rattle.format.specs.Reading as reading;
ghost use Rattle.values.specs.Meaning.{kind_from};
ghost use Rattle.values.specs.Promise.{Parses, Reads};
ghost use Rattle.stamp.specs.Calls.{ReadsStamp, ReadsDateOrDateTz, ReadsTimeOrTimeTz, ReadsDatetimeOrDatetimeTz};

use crate::either;
use calendar::Date;
use values::{
    Answer, DateTz, Datetime, DatetimeTz, Decoded, Kind, Refusal, Stamp, Time, TimeTz, Value,
};

// ---- one kind: the form is chosen, and what its reader found is answered under the kind and with its parts

// Of more octets than are compact, those with the kind's first four bits are extended. Kinds without a time have no extended form.
#[tactic(auto, unfolding(format::specs::Reading::first_bits))]
fn is_extended(kind: Kind, s: &[u8]) -> bool
    requires { 0 < length s.now }
    ensures { result ≡ both (format.timed (kind_from kind)) (eqb (reading.first_bits s.now) (head_bits (kind_from kind))) }
{
    kind.timed() && s[0] / 16 == extended::head_bits(kind)
}

// 01's table: so many octets are compact; of more, those with the kind's first four bits are extended, and the others text.
#[tactic(auto, using(crate::proofs::Choosing::found))]
fn parse<T: Stamp>(s: &[u8]) -> Result<Answer<Value>, Refusal>
    ensures { Parses T.kind (reading.read T.kind s.now) result }
{
    let kind = T::kind();
    if s.len() <= compact::longest(kind) {
        return compact::read::<T>(s);
    }
    if is_extended(kind, s) {
        return extended::read::<T>(s);
    }
    text::read::<T>(s)
}

pub fn read<T: Stamp>(s: &[u8]) -> Result<Decoded, Refusal>
    ensures { ReadsStamp T.kind s.now result }
{
    let Answer { value, form } = parse::<T>(s)?;
    Ok(T::of(value).decoded(form))
}

// ---- either-or: the kind that is chosen, and its reader

// A kind that is known only when the program runs becomes a type here: no closure is generic over types.
fn read_kind(kind: Kind, s: &[u8]) -> Result<Decoded, Refusal>
    ensures { Reads (reading.read (kind_from kind) s.now) result }
{
    match kind {
        Kind::Date => read::<Date>(s),
        Kind::DateTz => read::<DateTz>(s),
        Kind::Time => read::<Time>(s),
        Kind::TimeTz => read::<TimeTz>(s),
        Kind::Datetime => read::<Datetime>(s),
        Kind::DatetimeTz => read::<DatetimeTz>(s),
    }
}

#[tactic(auto, unfolding(format::specs::EitherOr::read_either))]
pub fn read_date_or_date_tz(s: &[u8]) -> Result<Decoded, Refusal>
    ensures { ReadsDateOrDateTz s.now result }
{
    read_kind(either::date_kind(s), s)
}

#[tactic(auto, unfolding(format::specs::EitherOr::read_either))]
pub fn read_time_or_time_tz(s: &[u8]) -> Result<Decoded, Refusal>
    ensures { ReadsTimeOrTimeTz s.now result }
{
    read_kind(either::time_kind(s), s)
}

#[tactic(auto, unfolding(format::specs::EitherOr::read_either))]
pub fn read_datetime_or_datetime_tz(s: &[u8]) -> Result<Decoded, Refusal>
    ensures { ReadsDatetimeOrDatetimeTz s.now result }
{
    read_kind(either::datetime_kind(s), s)
}
