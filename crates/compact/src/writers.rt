// The writer of every kind: the refusals 2, 3 and 4 in this order, and the image straight into the lent buffer. Its length is known before the first
// store, and parts of the value that the kind lacks are not looked at.
ghost use Rattle.std.specs.Prelude.{◌≡◌};
ghost use Rattle.format.specs.Values as format;
ghost use Rattle.format.specs.Writing.{encode_in};
ghost use Rattle.values.specs.Meaning.{kind_from, value_from};
ghost use Rattle.values.specs.Answers.{outcome};
ghost use Rattle.values.specs.Promise.{Writes};
ghost use Rattle.compact.specs.Ranged.{day_where_ranged};

use crate::writing;
use values::{Kind, Refusal, Stamp, Value};

// The day number of a value in range, 0 where the kind has no date: one look at the calendar for both.
#[tactic(auto, unfolding(crate::specs::Ranged::day_where_ranged, format::specs::Values::in_range, format::specs::Calendar::number_asked))]
fn day_in_range(kind: Kind, value: Value) -> Result<u32, Refusal>
    ensures { outcome (λ n. n) result ≡ day_where_ranged (kind_from kind) (value_from value) }
{
    if !value.rest_in_range(kind) {
        return Err(Refusal::Value);
    }
    if !kind.dated() {
        return Ok(0);
    }
    calendar::day_number(value.date).ok_or(Refusal::Value)
}

pub fn write<T: Stamp>(value: Value, buf: &mut [u8]) -> Result<usize, Refusal>
    ensures { Writes (encode_in T.kind format.compact (value_from value)) buf.old result buf.new }
{
    let kind = T::kind();
    let day = day_in_range(kind, value)?;
    let image = writing::image(kind, value, day)?;
    let octets = image.length();
    if buf.len() < octets {
        return Err(Refusal::Buffer);
    }
    image.put(kind, buf);
    Ok(octets)
}
