// A record's stamp, as the reader of DatetimeTz reads it, but its date is never made: only its instant is asked for. The only place of this crate at which a
// stamp is read.
ghost use Rattle.std.specs.Prelude.{◌≡◌, true, ◌+◌, ◌≤◌, pos, ◌-ℤ◌, length as listLength, take, drop};
ghost use Rattle.format.specs.Values as format;
ghost use Rattle.format.specs.Reading.{read};
ghost use Rattle.moments.specs.Instant.{ahead, end_of_years};
ghost use Rattle.values.specs.Promise.{Locates};
ghost use Rattle.schedule.specs.Steps.{instant_in, timed};

use values::{Kind, Located, Offset, Refusal};

// In microseconds.
const MINUTE: i64 = 60_000_000;

// Its local reading and its offset. The form is chosen as in `stamp`: so many octets are compact; of more, those with the kind's first four bits are
// extended, and the others text.
fn locate(stamp: &[u8]) -> Result<Located, Refusal>
    ensures { Locates (read format.DatetimeTz stamp.now) result }
{
    if stamp.len() <= compact::longest(Kind::DatetimeTz) {
        return compact::locate_datetime_tz(stamp);
    }
    if stamp[0] / 16 == extended::head_bits(Kind::DatetimeTz) {
        return extended::locate_datetime_tz(stamp);
    }
    text::locate_datetime_tz(stamp)
}

// What a clock with this offset reads, as an instant.
fn in_utc(local: u64, offset: Offset) -> i64
    requires { (local ≤ end_of_years) × (format.offset_in_range offset.minutes ≡ true) }
    ensures { result ≡ pos local -ℤ ahead offset.minutes }
{
    local as i64 - offset.minutes as i64 * MINUTE
}

fn instant(stamp: &[u8]) -> Result<i64, Refusal>
    ensures { timed result ≡ instant_in (read format.DatetimeTz stamp.now) }
{
    let located = locate(stamp)?;
    Ok(in_utc(located.local, located.offset))
}

// Of the stamp that stands in the file from `from` on, with so many octets.
pub(crate) fn instant_at(file: &[u8], from: usize, length: usize) -> Result<i64, Refusal>
    requires { from + length ≤ listLength file.now }
    ensures { timed result ≡ instant_in (read format.DatetimeTz (take length (drop from file.now))) }
{
    instant(&file[from..from + length])
}
