// The text form: its fields put into a lent buffer, and read by a cursor that is handed from field to field.
// For the crates of this library: callers prove what is required.
#![tactic(auto)]

mod cursor;
mod fraction;
mod lengths;
mod locating;
mod pairs;
mod parts;
mod reading;
mod words;
mod writers;
mod writing;

pub use locating::locate_datetime_tz;
pub use parts::is_sign;
pub use reading::read;
pub use writers::write;
