// The readers of every kind: an image of a frequent length at a glance, any other octet by octet. 5, 7 and 8 in this order, each over the whole
// input before the next.
ghost use Rattle.std.specs.Prelude.{◌≡◌, IfOk};
ghost use Rattle.format.specs.Values as format;
ghost use Rattle.format.specs.Reading as reading;
ghost use Rattle.format.specs.CompactReading.{read_compact};
ghost use Rattle.values.specs.Meaning.{kind_from};
ghost use Rattle.values.specs.Answers.{outcome};
ghost use Rattle.values.specs.Promise.{Parses, Locates};
ghost use Rattle.compact.specs.Meaning.{counted_value};

use crate::counted::Counted;
use crate::{frequent_lengths, reading};
use values::{Answer, Form, Kind, Located, Refusal, Stamp, Value};

// Compiled into each reader, where the kind is known: by itself the compiler keeps it as a function that all of them call.
#[inline(always)]
fn counted(kind: Kind, s: &[u8]) -> Result<Counted, Refusal>
    ensures value { outcome counted_value result ≡ read_compact (kind_from kind) s.now }
    ensures kind { IfOk result (λ c. c.kind ≡ kind) }
{
    match frequent_lengths::at_a_glance(kind, s) {
        Some(taken) => taken.counted(kind),
        None => reading::octet_by_octet(kind, s),
    }
}

pub fn read<T: Stamp>(s: &[u8]) -> Result<Answer<Value>, Refusal>
    ensures { Parses T.kind (reading.read_as T.kind format.compact s.now) result }
{
    let counted = counted(T::kind(), s)?;
    Ok(Answer {
        value: counted.value(),
        form: Form::Compact,
    })
}

// The local reading of a DatetimeTz and its offset, where nobody asks for the date: the steps and the refusals are those of `read`.
pub fn locate_datetime_tz(s: &[u8]) -> Result<Located, Refusal>
    ensures { Locates (reading.read_as format.DatetimeTz format.compact s.now) result }
{
    let counted = counted(Kind::DatetimeTz, s)?;
    Ok(counted.located())
}
