// The extended form of the kinds with a time: two header octets, the day number in 3 where there is a date, the microseconds in 5.
// For the crates of this library: callers prove what is required. What differs by the kind is asked of `T::kind()`, which is known where the kind's reader
// and writer are compiled.
#![tactic(auto)]

ghost use Rattle.std.specs.Prelude.{◌≡◌, ◌+◌};
ghost use Rattle.format.specs.Extended.{day_width};

mod head;
mod readers;
mod writers;

pub use head::head_bits;
pub use readers::{locate_datetime_tz, read};
use values::Stamp;
pub use writers::write;

// In octets: header and microseconds, and the day number between them where there is a date.
const TIME_LENGTH: usize = 7;

const DATETIME_LENGTH: usize = 10;

// The microseconds stand last.
const MICROS_LENGTH: usize = 5;

#[tactic(auto, unfolding(format::specs::Extended::day_width))]
fn image_length<T: Stamp>() -> usize
    ensures { result ≡ 7 + day_width T.kind }
{
    if T::kind().dated() {
        DATETIME_LENGTH
    } else {
        TIME_LENGTH
    }
}
