// Stamps written and read: a writer and a reader, compiled for each of the six kinds, three readers that find out the kind, and the three choices of a kind.
// Each takes any value, settings, buffer and octets, and answers.
#![tactic(auto)]

mod either;
mod readers;
mod writers;

pub use either::{date_kind, datetime_kind, time_kind};
pub use readers::{read, read_date_or_date_tz, read_datetime_or_datetime_tz, read_time_or_time_tz};
pub use writers::write;
