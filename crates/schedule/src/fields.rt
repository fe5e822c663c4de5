// A record's fields.
ghost use Rattle.std.specs.Prelude.{◌≡◌, ◌+◌, ◌<◌, nat_abs, leb};
ghost use Rattle.card.specs.Step.{channel_good, greatest_correction, placed};
ghost use Rattle.schedule.specs.Steps.{fields_in, right};

use crate::Record;
use crate::header::{Card, RECORD, RECORDS};

#[derive(Clone, Copy)]
pub(crate) struct Fields {
    // Of its stamp, within the stamp octets.
    pub start: usize,
    pub length: usize,
    pub channel: u32,
    pub correction: i64,
}

impl<'a> Card<'a> {
    // Of record i, from 0 on. The first three are one word.
    pub(crate) fn fields(self, i: u32) -> Fields
        requires { i < self.records }
        ensures { result ≡ fields_in self.entry.file.now i }
    {
        let at = RECORDS + RECORD * i as usize;
        let word = octets::take8(self.file, at);
        let start = (word / 4_294_967_296) as usize;
        let length = (word / 65_536 % 65_536) as usize;
        let channel = (word % 65_536) as u32;
        let correction = octets::signed::<4>(self.file, at + 8);
        Fields {
            start,
            length,
            channel,
            correction,
        }
    }
}

// ---- what refusal 14 tests

pub(crate) fn is_channel(channel: u32) -> bool
    ensures { result ≡ channel_good channel }
{
    if channel < 1 {
        return false;
    }
    channel <= Record::CHANNELS
}

fn is_correction(correction: i64) -> bool
    ensures { result ≡ leb (nat_abs correction) greatest_correction }
{
    if correction < 0 - Record::GREATEST_CORRECTION {
        return false;
    }
    correction <= Record::GREATEST_CORRECTION
}

// The stamp starts where the one before ended, and ends within the stamp octets; that of the last record ends them.
fn is_placed(start: usize, end: usize, ended: usize, octets: usize, last: bool) -> bool
    ensures { result ≡ placed start end ended octets last }
{
    if start != ended {
        return false;
    }
    if last {
        return end == octets;
    }
    end <= octets
}

impl Fields {
    // Where the stamp ends, within the stamp octets.
    pub(crate) fn end(self) -> usize
        requires { (self.start < 4294967296) × (self.length < 65536) }
        ensures { result ≡ self.start + self.length }
    {
        self.start + self.length
    }

    pub(crate) fn are_right(self, ended: usize, octets: usize, last: bool) -> bool
        requires { (self.start < 4294967296) × (self.length < 65536) }
        ensures { result ≡ right self ended octets last }
    {
        if !is_channel(self.channel) {
            return false;
        }
        if !is_correction(self.correction) {
            return false;
        }
        is_placed(self.start, self.end(), ended, octets, last)
    }
}
