// What is written and read: the parts of a value, the settings of a writer, and the answers.
// A value may be wrong, any number in any field, so that a writer can refuse it: constructors keep what they are given.
#![tactic(auto)]

mod answers;
mod kinds;
mod parts;
mod refusal;
mod settings;

pub use answers::{Answer, Decoded, Located};
pub use kinds::{DateTz, Datetime, DatetimeTz, Kind, NoSuchKind, Stamp, TimeTz, Value};
pub use parts::{Offset, Time};
pub use refusal::Refusal;
pub use settings::{Form, Settings};
