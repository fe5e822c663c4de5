// The schedule file that operators carry on a memory card: full reading, the record at a place, which correction holds at an instant, and manual over plan. Each
// call takes files of any content and length.
#![tactic(auto)]

ghost use Rattle.schedule.specs.Calls.{RefusalNumber, RefusalOfStamp, RefusalOfFault, ReadsFile, FindsRecord, AsksFile};

mod fields;
mod header;
mod parts;
mod stamps;
mod walk;

use header::Card;
use instants::Instant;
pub use parts::{Part, Source, over, part_over};

// In the numbers of documents 01 and 02.
#[derive(Clone, Copy)]
pub enum Refusal {
    // One of document 01's: 5 to 8 for a record's stamp, 2 for a place at which the file has no record, and for a channel that is not 1 to 16.
    Base(values::Refusal),
    // 13: header, counts or regions.
    Header,
    // 14: a record's channel, correction or stamp place.
    Record,
    // 15: a record's instant is below that of the record before.
    Order,
}

// Why a file is refused, and the place of the record at which it is, from one; 0 is the header.
#[derive(Clone, Copy)]
pub struct Fault {
    pub refusal: Refusal,
    pub place: u32,
}

// A correction of one channel, from an instant on.
#[derive(Clone, Copy)]
pub struct Record {
    // From one.
    pub place: u32,
    // Of its stamp, within the file.
    pub start: usize,
    pub length: usize,
    // 1 to 16.
    pub channel: u32,
    // In parts in 10 to the 18.
    pub correction: i64,
    pub instant: Instant,
}

// What holds on a channel at an instant: the last record of the channel at or before it, or none yet; and the number of records read, which is the place of
// the first record later than the instant, from one, or all.
#[derive(Clone, Copy)]
pub struct Held {
    pub read: u32,
    pub latest: Option<Record>,
}

pub const MOST_RECORDS: u32 = 1_000;

impl Record {
    // Channels are 1 to 16.
    pub const CHANNELS: u32 = 16;

    // Either way.
    pub const GREATEST_CORRECTION: i64 = 1_000_000;
}

impl From<Refusal> for u32 {
    ghost from_gives = { RefusalNumber };

    fn from(refusal: Refusal) -> u32 {
        match refusal {
            Refusal::Base(base) => base.into(),
            Refusal::Header => 13,
            Refusal::Record => 14,
            Refusal::Order => 15,
        }
    }
}

impl From<values::Refusal> for Refusal {
    ghost from_gives = { RefusalOfStamp };

    fn from(refusal: values::Refusal) -> Refusal {
        Refusal::Base(refusal)
    }
}

// For calls that don't tell the place.
impl From<Fault> for Refusal {
    ghost from_gives = { RefusalOfFault };

    fn from(fault: Fault) -> Refusal {
        fault.refusal
    }
}

// Reads the file from the front to its end: the header, then each record in turn. The number of records.
pub fn read(file: &[u8]) -> Result<u32, Fault>
    ensures { ReadsFile file.now result }
{
    let Some(card) = Card::read(file) else {
        return Err(Fault {
            refusal: Refusal::Header,
            place: 0,
        });
    };
    let ended = card.up_to(i64::MAX)?;
    Ok(ended.read)
}

// The record at a place, from one, of a file that `read` accepts.
pub fn record_at(file: &[u8], place: u32) -> Result<Record, Refusal>
    ensures { FindsRecord file.now place result }
{
    let card = Card::read(file).ok_or(Refusal::Header)?;
    let ended = card.up_to(i64::MAX)?;
    if place < 1 {
        return Err(Refusal::Base(values::Refusal::Value));
    }
    if ended.passed < place {
        return Err(Refusal::Base(values::Refusal::Value));
    }
    Ok(ended.shown(card, place))
}

// Which correction holds on a channel at an instant, any instant. Records behind the first that is later are not looked at.
pub fn holds(file: &[u8], instant: Instant, channel: u32) -> Result<Held, Refusal>
    ensures { AsksFile file.now instant channel result }
{
    if !fields::is_channel(channel) {
        return Err(Refusal::Base(values::Refusal::Value));
    }
    let card = Card::read(file).ok_or(Refusal::Header)?;
    let ended = card.up_to(instant.micros)?;
    let latest = ended.latest(card, channel);
    Ok(Held {
        read: ended.read,
        latest,
    })
}
