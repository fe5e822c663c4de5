// The calls on schedule files, for C.
ghost use Rattle.std.specs.Prelude.{◌<◌, ◌^◌, ◌≡◌};
ghost use Rattle.schedule.specs.Meaning.{record_from, held_from, found};
ghost use Rattle.boundary.specs.Files.{record_numbers, held_numbers, held_or_zeros, in_words, held_in_words, HandsRecord, ReadForC, RecordForC, HoldsForC, OverForC};

use crate::handing::handed;
use instants::Instant;
use schedule::{Fault, Record, Refusal, Source};

pub fn stamp_schedule_read(file: &[u8], records: &mut u32, fault: &mut u32) -> u32
    ensures { ReadForC file.now result records.new fault.new }
{
    match schedule::read(file) {
        Ok(number) => {
            *records = number;
            *fault = 0;
            0
        }
        Err(Fault { refusal, place }) => {
            *records = 0;
            *fault = place;
            refusal.into()
        }
    }
}

// What a file holds has its place there, so that the casts keep it.
fn record_parts(shown: Record) -> [i64; 5]
    requires { (shown.start < 2 ^ 63) × (shown.length < 2 ^ 63) }
    ensures { result ≡ record_numbers (record_from shown) }
{
    let channel = shown.channel as i64;
    let micros = shown.instant.micros;
    let start = shown.start as i64;
    let length = shown.length as i64;
    [channel, shown.correction, micros, start, length]
}

fn hand_record(answer: Result<Record, Refusal>, parts: &mut [i64; 5]) -> u32
    requires { in_words (found answer) }
    ensures { HandsRecord (found answer) parts.old result parts.new }
{
    handed(answer, parts, record_parts)
}

pub fn stamp_schedule_record(file: &[u8], place: u32, parts: &mut [i64; 5]) -> u32
    ensures { RecordForC file.now place parts.old result parts.new }
{
    hand_record(schedule::record_at(file, place), parts)
}

fn put_held(shown: Record, parts: &mut [i64; 5])
    requires { (shown.start < 2 ^ 63) × (shown.length < 2 ^ 63) }
    ensures { parts.new ≡ held_numbers (record_from shown) }
{
    let place = shown.place as i64;
    let start = shown.start as i64;
    let length = shown.length as i64;
    *parts = [place, start, length, shown.instant.micros, shown.correction];
}

fn hand_held(latest: Option<Record>, parts: &mut [i64; 5])
    requires { held_in_words (held_from latest) }
    ensures { parts.new ≡ held_or_zeros (held_from latest) }
{
    match latest {
        Some(shown) => put_held(shown, parts),
        None => *parts = [0, 0, 0, 0, 0],
    }
}

pub fn stamp_schedule_holds(
    file: &[u8],
    instant: i64,
    channel: u32,
    read: &mut u32,
    parts: &mut [i64; 5],
) -> u32
    ensures { HoldsForC file.now instant channel parts.old result read.new parts.new }
{
    match schedule::holds(file, Instant::new(instant), channel) {
        Ok(held) => {
            *read = held.read;
            hand_held(held.latest, parts);
            0
        }
        Err(refusal) => {
            *read = 0;
            refusal.into()
        }
    }
}

pub fn stamp_schedule_over(
    plan: &[u8],
    manual: &[u8],
    instant: i64,
    channel: u32,
    part: &mut [usize; 2],
) -> u32
    ensures { OverForC plan.now manual.now instant channel result part.new }
{
    let found = schedule::part_over(plan, manual, Instant::new(instant), channel);
    *part = [found.start, found.length];
    match found.source {
        Source::Plan => 0,
        Source::Manual => 1,
    }
}
