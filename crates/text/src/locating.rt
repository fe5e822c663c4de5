// The local reading of a DatetimeTz and its offset, where nobody asks for the date.
ghost use Rattle.std.specs.Prelude.{length};
ghost use Rattle.format.specs.Values as format;
ghost use Rattle.format.specs.TextReading.{digits_found};
ghost use Rattle.format.specs.Reading.{read_as};
ghost use Rattle.values.specs.Promise.{Locates};

use crate::reading;
use values::{DatetimeTz, Located, Refusal, Time};

// The day number tells as well whether there is such a day.
pub fn locate_datetime_tz(s: &[u8]) -> Result<Located, Refusal>
    ensures { Locates (read_as format.DatetimeTz (format.text (digits_found format.DatetimeTz (length s.now))) s.now) result }
{
    let (number, answer) = reading::read_asking::<DatetimeTz, Option<u32>, _>(
        s,
        calendar::day_number,
    )?;
    let Some(day) = number else {
        return Err(Refusal::Range);
    };
    Ok(Located {
        local: day as u64 * Time::END_OF_DAY + answer.value.time.micros,
        offset: answer.value.offset,
    })
}
