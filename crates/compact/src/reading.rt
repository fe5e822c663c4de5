// What stands in the octets of a compact image.
ghost use Rattle.std.specs.Prelude.{◌≡◌, true, not, ◌≤◌, ◌<◌, max, nat_abs, leb, eqb, pos, length, take, drop, IfOk};
ghost use Rattle.std.specs.Option.{is_some, unwrap_or};
ghost use Rattle.format.specs.Words.{both, needs, if_any};
ghost use Rattle.format.specs.Values.{timed};
ghost use Rattle.format.specs.Octets.{signed_of, fewest_octets};
ghost use Rattle.format.specs.CompactReading.{carried_in, number_in_range, read_compact};
ghost use Rattle.values.specs.Meaning.{kind_from};
ghost use Rattle.values.specs.Answers.{outcome};
ghost use Rattle.compact.specs.Meaning.{has_length, offset_at, Takes, counted_value, read_taken};

use crate::counted::Counted;
use crate::{lengths, limits};
use values::{Kind, Offset, Refusal};

// What stands there, reported as data: `usual` is false for a redundant sign octet or an offset of zero where none should stand. With a `Result` in its
// place readers were slower.
#[derive(Clone, Copy)]
pub struct Taken {
    pub offset: Option<i32>,
    pub number: i64,
    pub usual: bool,
}

// The 16 bits in front, with their sign.
fn minutes_in(s: &[u8]) -> i32
    requires { 2 ≤ length s.now }
    ensures { result ≡ signed_of (take 2 s.now) }
{
    octets::signed::<2>(s, 0) as i32
}

pub fn offset_in(s: &[u8], front: bool) -> Option<i32>
    requires { if_any front 2 ≤ length s.now }
    ensures { result ≡ offset_at front s.now }
{
    if front { Some(minutes_in(s)) } else { None }
}

// Whether the octets from `at` on are no more than their number takes: padded ones are not looked at.
fn is_shortest(s: &[u8], at: usize, padded: usize) -> bool
    requires { at < length s.now }
    ensures { result ≡ leb (length (drop at s.now)) (max padded (fewest_octets (signed_of (drop at s.now)))) }
{
    s.len() - at <= padded || octets::is_tight(s, at)
}

// Zero is written in front of a date only.
pub fn is_needed(kind: Kind, offset: Option<i32>) -> bool
    ensures { result ≡ needs (both (is_some offset) (timed (kind_from kind))) (not (eqb (nat_abs (unwrap_or offset (pos 0))) 0)) }
{
    match offset {
        Some(0) => !kind.timed(),
        _ => true,
    }
}

fn take(s: &[u8], kind: Kind) -> Taken
    requires { has_length (kind_from kind) s.now ≡ true }
    ensures { Takes (kind_from kind) (carried_in (kind_from kind) (length s.now)) s.now result }
{
    let front = lengths::carried_in(kind, s.len());
    let at = limits::front_octets(front);
    let offset = offset_in(s, front);
    Taken {
        offset,
        number: octets::take_signed(s, at, s.len() - at),
        usual: is_shortest(s, at, limits::padded_to(kind, front)) && is_needed(kind, offset),
    }
}

fn number_in_range(kind: Kind, front: bool, number: i64) -> bool
    ensures { result ≡ number_in_range (kind_from kind) front number }
{
    limits::least_number(kind) <= number && number <= limits::greatest_number(kind, front)
}

impl Taken {
    // The number from the least on. 7 and 8 in this order.
    #[tactic(auto, unfolding(crate::specs::Meaning::read_taken))]
    pub fn counted(self, kind: Kind) -> Result<Counted, Refusal>
        ensures value { outcome counted_value result ≡ read_taken (kind_from kind) self }
        ensures kind { IfOk result (λ c. c.kind ≡ kind) }
    {
        if !self.usual {
            return Err(Refusal::Redundant); // an octet or an offset too many
        }
        let offset = Offset::new(self.offset.unwrap_or(0));
        if !offset.in_range() || !number_in_range(kind, self.offset.is_some(), self.number) {
            return Err(Refusal::Range); // no number of a value, or no offset
        }
        Ok(Counted {
            kind,
            count: (self.number - limits::least_number(kind)) as u64,
            offset,
        })
    }
}

// An image of any length. 5 before the others.
pub fn octet_by_octet(kind: Kind, s: &[u8]) -> Result<Counted, Refusal>
    ensures value { outcome counted_value result ≡ read_compact (kind_from kind) s.now }
    ensures kind { IfOk result (λ c. c.kind ≡ kind) }
{
    if !lengths::has_length(kind, s.len()) {
        return Err(Refusal::Length);
    }
    take(s, kind).counted(kind)
}
