// Manual over plan: of two schedules that are lent, the stamp of the correction that holds.
ghost use Rattle.std.specs.Prelude.{◌≡◌, ◌+◌, ◌≤◌, true, length};
ghost use Rattle.card.specs.Step.{channel_good};
ghost use Rattle.card.specs.Question.{holds};
ghost use Rattle.card.specs.Over.{stamp_in, nothing, chosen};
ghost use Rattle.schedule.specs.Meaning.{record_from, held_from, source_from, part_from};
ghost use Rattle.schedule.specs.Steps.{HeldIn};
ghost use Rattle.schedule.specs.Calls.{PartOf, ChoosesPart, HandsBack};

use crate::header::Card;
use crate::{Record, Refusal, fields};
use instants::Instant;

// Which of the two files.
#[derive(Clone, Copy)]
pub enum Source {
    Plan,
    Manual,
}

// A part of one of the two; of no octets where nothing holds.
#[derive(Clone, Copy)]
pub struct Part {
    pub source: Source,
    pub start: usize,
    pub length: usize,
}

// An empty part of the plan, its first.
fn nothing() -> Part
    ensures { part_from result ≡ nothing }
{
    Part {
        source: Source::Plan,
        start: 0,
        length: 0,
    }
}

fn stamp_in(source: Source, kept: Record) -> Part
    ensures { part_from result ≡ stamp_in (source_from source) (record_from kept) }
{
    Part {
        source,
        start: kept.start,
        length: kept.length,
    }
}

// Of two records that hold the later one, and the manual one where their instants are equal.
fn later_of(plan: Record, manual: Record) -> Part
    ensures { part_from result ≡ chosen (holds (record_from plan)) (holds (record_from manual)) }
{
    if manual.instant.micros < plan.instant.micros {
        stamp_in(Source::Plan, plan)
    } else {
        stamp_in(Source::Manual, manual)
    }
}

// By what holds in the plan and what holds in the manual schedule. How many records were read for that has no say.
fn chosen(plan: Option<Record>, manual: Option<Record>) -> Part
    ensures { part_from result ≡ chosen (held_from plan) (held_from manual) }
{
    match (plan, manual) {
        (Some(planned), Some(by_hand)) => later_of(planned, by_hand),
        (Some(planned), None) => stamp_in(Source::Plan, planned),
        (None, Some(by_hand)) => stamp_in(Source::Manual, by_hand),
        (None, None) => nothing(),
    }
}

// What holds in one of the two: what `holds` answers, but for the count. `holds` itself is called at one place of the library only, into which the compiler then
// puts it; from here, twice, it would be a call, and each question slower by its struct.
fn held_in(file: &[u8], until: i64, channel: u32) -> Result<Option<Record>, Refusal>
    requires { channel_good channel ≡ true }
    ensures { HeldIn file.now until channel result }
{
    let card = Card::read(file).ok_or(Refusal::Header)?;
    let ended = card.up_to(until)?;
    Ok(ended.latest(card, channel))
}

// The part in numbers. A manual schedule beside a plan that is refused is not looked at.
pub fn part_over(plan: &[u8], manual: &[u8], instant: Instant, channel: u32) -> Part
    ensures { ChoosesPart plan.now manual.now instant channel result }
{
    if !fields::is_channel(channel) {
        return nothing();
    }
    let Ok(planned) = held_in(plan, instant.micros, channel) else {
        return nothing();
    };
    let Ok(by_hand) = held_in(manual, instant.micros, channel) else {
        return nothing();
    };
    chosen(planned, by_hand)
}

// Octets of a file, where they stand.
fn cut<'a>(file: &'a [u8], start: usize, count: usize) -> &'a [u8]
    requires { start + count ≤ length file.now }
    ensures { PartOf file.entry start count result }
{
    &file[start..start + count]
}

// The stamp of the correction that holds on a channel at an instant, as a part of whichever of the two it stands in: the later instant, and the manual one at
// equality; if only one holds, that one. An empty part of the plan where neither does, or where asking either is refused.
pub fn over<'a>(plan: &'a [u8], manual: &'a [u8], instant: Instant, channel: u32) -> &'a [u8]
    ensures { HandsBack plan.entry manual.entry instant channel result }
{
    let part = part_over(plan, manual, instant, channel);
    match part.source {
        Source::Plan => cut(plan, part.start, part.length),
        Source::Manual => cut(manual, part.start, part.length),
    }
}
