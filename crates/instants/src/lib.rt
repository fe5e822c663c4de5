// Instants: a DatetimeTz as one number, so that stamps of different sites can be compared, moved in time and restated at another offset.
#![tactic(auto)]

ghost use Rattle.std.specs.Prelude.{◌≡◌, ◌≤◌, ◌<◌, true, pos, unsigned_abs, nat_lt};
ghost use Rattle.format.specs.Words.{accepted, pick, unless};
ghost use Rattle.format.specs.Calendar.{last_number};
ghost use Rattle.format.specs.Local.{join};
ghost use Rattle.format.specs.Values.{end_of_day, offset_in_range};
ghost use Rattle.moments.specs.Instant.{ahead, is_instant, end_of_years, stamp_of};
ghost use Rattle.instants.specs.Meaning.{refusal_number, stated};
ghost use Rattle.instants.specs.Calls.{RefusalNumber, InstantNew, InstantInRange, InstantOf, InstantAdd, InstantDifference, InstantAt, Restates};

mod within_month;

use values::{DatetimeTz, Kind, Offset, Stamp, Time};

// Microseconds from 0001-01-01T00:00 UTC. Any number: a call refuses one that no stamp has.
#[derive(Clone, Copy)]
pub struct Instant {
    pub micros: i64,
}

// In the numbers of documents 01 and 02: 2 and 9.
#[derive(Clone, Copy)]
pub enum Refusal {
    // A stamp, an offset or an instant that was handed in is out of range.
    Value,
    // No stamp has such an instant, or the local reading is outside the years 1 to 9999.
    NotRepresentable,
}

const MINUTE: i64 = 60_000_000;

impl From<Refusal> for u32 {
    ghost from_gives = { RefusalNumber };

    fn from(refusal: Refusal) -> u32 {
        match refusal {
            Refusal::Value => 2,
            Refusal::NotRepresentable => 9,
        }
    }
}

// ---- parts of an instant

// An offset in microseconds: less than a day, either way.
#[tactic(auto, using(std::proofs::lemmas::Int::ints, moments::proofs::Stamps::ahead_size), unfolding(moments::specs::Instant::ahead))]
fn ahead_of_utc(offset: Offset) -> i64
    requires { offset_in_range offset.minutes ≡ true }
    ensures value { result ≡ ahead offset.minutes }
    ensures bound { unsigned_abs result < end_of_day }
{
    offset.minutes as i64 * MINUTE
}

// The local reading of a day and a time, at most the end of the years; 24:00 is the next day's start.
fn local_reading(day: u32, micros: u64) -> i64
    requires { (day ≤ last_number) × (micros ≤ end_of_day) }
    ensures value { result ≡ pos (join end_of_day day micros) }
    ensures bound { unsigned_abs result ≤ end_of_years }
{
    (day as u64 * Time::END_OF_DAY + micros) as i64
}

// The stamp of a local reading, which may be any number. There is one where the reading's day is one of the calendar's.
#[tactic(auto, using(crate::proofs::Tests::date_known, crate::proofs::Tests::past_years), unfolding(moments::specs::Instant::stamp_of))]
fn stamp_of(local: u64, offset: Offset) -> Result<DatetimeTz, Refusal>
    ensures { stated result ≡ unless (nat_lt local end_of_years) 9 (accepted (stamp_of local offset.minutes)) }
{
    let day = (local / Time::END_OF_DAY) as u32;
    let date = calendar::date_of(day).ok_or(Refusal::NotRepresentable)?;
    let time = Time::new(local % Time::END_OF_DAY);
    Ok(DatetimeTz { date, time, offset })
}

// ---- the calls: all 2 before any 9

impl TryFrom<DatetimeTz> for Instant {
    type Error = Refusal;

    ghost try_from_gives = { InstantOf };

    #[tactic(auto, using(std::proofs::lemmas::Int::ints, crate::proofs::Tests::stamp_tests), unfolding(format::specs::Values::time_in_range))]
    fn try_from(stamp: DatetimeTz) -> Result<Instant, Refusal> {
        let day = calendar::day_number(stamp.date).ok_or(Refusal::Value)?;
        if !stamp.parts().rest_in_range(Kind::DatetimeTz) {
            return Err(Refusal::Value);
        }
        let micros = local_reading(day, stamp.time.micros) - ahead_of_utc(stamp.offset);
        Ok(Instant { micros })
    }
}

impl Instant {
    // That of 0001-01-01T00:00+23:59, and that of 9999-12-31T24:00-23:59.
    pub const LEAST: i64 = -86_340_000_000;

    pub const GREATEST: i64 = 315_537_983_940_000_000;

    pub fn new(micros: i64) -> Instant
        ensures { InstantNew micros result }
    {
        Instant { micros }
    }

    // Whether some stamp has it.
    #[tactic(auto, using(std::proofs::lemmas::Int::ints), unfolding(moments::specs::Instant::is_instant))]
    pub fn in_range(self) -> bool
        ensures { InstantInRange self result }
    {
        Instant::LEAST <= self.micros && self.micros <= Instant::GREATEST
    }

    // The sum may wrap: that of an instant and any number of 64 bits then lies far beyond the limits, and so is no instant.
    #[tactic(auto, using(crate::proofs::Wrapped::sum_in, crate::proofs::Wrapped::sum_is), unfolding(moments::specs::Calls::add))]
    pub fn add(self, micros: i64) -> Result<Instant, Refusal>
        ensures { InstantAdd self micros result }
    {
        if !self.in_range() {
            return Err(Refusal::Value);
        }
        let sum = Instant::new(self.micros.wrapping_add(micros));
        if !sum.in_range() {
            return Err(Refusal::NotRepresentable);
        }
        Ok(sum)
    }

    // This one less the other.
    #[tactic(auto, using(std::proofs::lemmas::Int::ints, crate::proofs::Sizes::instant_small), unfolding(moments::specs::Calls::difference))]
    pub fn difference(self, other: Instant) -> Result<i64, Refusal>
        ensures { InstantDifference self other result }
    {
        if !self.in_range() || !other.in_range() {
            return Err(Refusal::Value);
        }
        Ok(self.micros - other.micros)
    }

    // What a number without a stamp is refused with.
    fn no_stamp(self) -> Refusal
        ensures { refusal_number result ≡ pick (is_instant self.micros) 9 2 }
    {
        if self.in_range() {
            Refusal::NotRepresentable
        } else {
            Refusal::Value
        }
    }

    // Its stamp at an offset, never at 24:00. A local reading within the years is that of an instant, so that only a number with no stamp is tested. The
    // reading is worked out modulo 2^64, as the number may be any: one that does not fit or is below 0 wraps far beyond the years.
    #[tactic(auto, using(crate::proofs::Wrapped::at_stamp, crate::proofs::Wrapped::at_none, moments::proofs::Restating::at_bad_offset))]
    pub fn at(self, offset: Offset) -> Result<DatetimeTz, Refusal>
        ensures { InstantAt self offset result }
    {
        if !offset.in_range() {
            return Err(Refusal::Value);
        }
        let local = self
            .micros
            .wrapping_add(ahead_of_utc(offset))
            .cast_unsigned();
        stamp_of(local, offset).map_err(|_| self.no_stamp())
    }
}

// The same instant at another offset, never at 24:00.
#[tactic(auto, using(crate::proofs::Tests::restated_at, crate::proofs::Tests::not_restated))]
pub fn restate(stamp: DatetimeTz, to: Offset) -> Result<DatetimeTz, Refusal>
    ensures { Restates stamp to result }
{
    if let Some(near) = within_month::restate(stamp, to) {
        return Ok(near);
    }
    Instant::try_from(stamp)?.at(to)
}
