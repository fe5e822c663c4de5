// From record to record, from the front. Whoever reads a file takes the same step.
ghost use Rattle.std.specs.Prelude.{◌≡◌, ◌-◌, ◌≤◌, ◌<◌};
ghost use Rattle.card.specs.Header.{twelve};
ghost use Rattle.card.specs.Records.{start_at, instant_at, record_at, in_file};
ghost use Rattle.card.specs.Step.{step};
ghost use Rattle.schedule.specs.Meaning.{record_from};
ghost use Rattle.schedule.specs.Steps.{before_from, stepped, shown, GoodAlone, EndsBy, Runs, Walks, FoundLast, Latest};

use crate::fields::Fields;
use crate::header::Card;
use crate::{Fault, Record, Refusal, stamps};
use instants::Instant;

// What came before a record: where the last stamp ended, within the stamp octets, and the last instant.
#[derive(Clone, Copy)]
pub(crate) struct Before {
    pub ended: usize,
    pub last: i64,
}

// A record that was read.
#[derive(Clone, Copy)]
pub(crate) struct Taken {
    pub fields: Fields,
    pub instant: i64,
}

// Where a run of records ended: how many records of the file were read by then, how many of them were passed, which is all but one that is later, and the
// instants of the last one passed and of the last one read.
#[derive(Clone, Copy)]
pub(crate) struct Ended {
    pub read: u32,
    pub passed: u32,
    pub last: i64,
    pub instant: i64,
}

impl<'a> Card<'a> {
    // What comes of record i, from 0 on.
    fn step(self, i: u32, before: Before) -> Result<Taken, Refusal>
        requires { i < self.records }
        ensures { stepped i result ≡ step twelve self.entry.file.now i (before_from before) }
    {
        let fields = self.fields(i);
        if !fields.are_right(before.ended, self.octets, i + 1 == self.records) {
            return Err(Refusal::Record);
        }
        let instant = stamps::instant_at(self.file, self.stamps + fields.start, fields.length)?;
        if instant < before.last {
            return Err(Refusal::Order);
        }
        Ok(Taken { fields, instant })
    }

    // The records from record `from` on, up to the first that is later than `until`, which is read too. The only loop that reads stamps: it carries as little as
    // can be, so that the constants of the readers have room in the registers.
    fn run(self, until: i64, from: u32, front: Before) -> Result<Ended, Fault>
        requires { from ≤ self.records }
        ensures { Runs self.entry.file.now until from (before_from front) result }
    {
        let mut before = front;
        for i in from..self.records {
            match self.step(i, before) {
                Ok(taken) => {
                    if until < taken.instant {
                        return Ok(Ended {
                            read: i + 1,
                            passed: i,
                            last: before.last,
                            instant: taken.instant,
                        });
                    }
                    before = Before {
                        ended: taken.fields.end(),
                        last: taken.instant,
                    };
                }
                Err(refusal) => {
                    return Err(Fault {
                        refusal,
                        place: i + 1,
                    });
                }
            }
        }
        Ok(Ended {
            read: self.records,
            passed: self.records,
            last: before.last,
            instant: before.last,
        })
    }

    // From the first record on. No instant is below the least number, which so stands for none before the first record, and none is above the greatest: up to
    // that the whole file is read.
    pub(crate) fn up_to(self, until: i64) -> Result<Ended, Fault>
        ensures { Walks self.entry.file.now until result }
    {
        let front = Before {
            ended: 0,
            last: i64::MIN,
        };
        self.run(until, 0, front)
    }

    // The instant of record i, which a walk passed: the stamp is read once more, by a run that ends at this record, as every instant is later than the least
    // number.
    fn instant_of(self, i: u32, start: usize) -> i64
        requires { (i < self.records) × (start ≡ start_at twelve self.file.now i) × GoodAlone self.file.now i }
        ensures { result ≡ instant_at twelve self.entry.file.now i }
    {
        let alone = Before {
            ended: start,
            last: i64::MIN,
        };
        match self.run(i64::MIN, i, alone) {
            Ok(ended) => ended.instant,
            Err(_) => 0, // never: the record is good
        }
    }
}

impl Taken {
    // With its place, and its stamp's start within the file.
    fn in_file(self, card: Card, place: u32) -> Record
        requires { self.fields.start < 4294967296 }
        ensures { result ≡ shown self place card.entry.stamps }
    {
        Record {
            place,
            start: card.stamps + self.fields.start,
            length: self.fields.length,
            channel: self.fields.channel,
            correction: self.fields.correction,
            instant: Instant::new(self.instant),
        }
    }
}

impl Ended {
    // The place of the last record of a channel among those passed, from one.
    fn last_of(self, card: Card, channel: u32) -> Option<u32>
        requires { self.passed ≤ card.records }
        ensures { FoundLast card.entry.file.now channel self.passed result }
    {
        for i in (0..self.passed).rev() {
            if card.fields(i).channel == channel {
                return Some(i + 1);
            }
        }
        None
    }

    // The record at a place among those passed, from one.
    pub(crate) fn shown(self, card: Card, place: u32) -> Record
        requires { EndsBy card.file.now self × (0 < place) × (place ≤ self.passed) }
        ensures { record_from result ≡ in_file twelve card.entry.file.now (record_at twelve card.entry.file.now (place - 1)) }
    {
        let i = place - 1;
        let fields = card.fields(i);
        if place == self.passed {
            return Taken {
                fields,
                instant: self.last,
            }
            .in_file(card, place);
        }
        Taken {
            fields,
            instant: card.instant_of(i, fields.start),
        }
        .in_file(card, place)
    }

    // The last record of a channel among those passed.
    pub(crate) fn latest(self, card: Card, channel: u32) -> Option<Record>
        requires { EndsBy card.file.now self }
        ensures { Latest card.entry.file.now channel self.passed result }
    {
        let place = self.last_of(card, channel)?;
        Some(self.shown(card, place))
    }
}
