// The compact form of every kind: two octets of offset where it is carried, then one number as a BER integer.
// The number is signed: negative before 2020-01-01. A reader and a writer, compiled for each kind: they take any octets, value and buffer, and answer.
#![tactic(auto)]

mod counted;
mod frequent_lengths;
mod lengths;
mod limits;
mod put;
mod readers;
mod reading;
mod writers;
mod writing;

pub use lengths::longest;
pub use readers::{locate_datetime_tz, read};
pub use writers::write;
