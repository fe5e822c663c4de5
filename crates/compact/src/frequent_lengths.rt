// Images of the lengths that most values have, taken without a loop: the number is one or two loads, and whether it is the shortest is seen
// from the number. The other lengths are rare, and left to `take`. All of it is compiled into each reader, where the kind is known: in a call the
// choice would cost more than the look.
ghost use Rattle.std.specs.Prelude.{◌≡◌, true, false, Some, ◌+◌, ◌-◌, ◌≤◌, leb, ltb, length};
ghost use Rattle.std.specs.Int.Signed.{mag};
ghost use Rattle.format.specs.Words.{needs, if_any};
ghost use Rattle.format.specs.Octets.{half};
ghost use Rattle.format.specs.Compact.{padded_to};
ghost use Rattle.format.specs.CompactReading.{longest, carried_in};
ghost use Rattle.values.specs.Meaning.{kind_from};
ghost use Rattle.compact.specs.Meaning.{Sees};

use crate::reading::Taken;
use crate::{lengths, limits, reading};
use values::Kind;

// Whether N octets are no more than their number takes: one fewer would not hold it. Padded ones are not looked at.
fn is_shortest<const N: usize>(kind: Kind, front: bool, number: i64) -> bool
    requires { (2 ≤ N) × (N ≤ 7) }
    ensures { result ≡ needs (ltb (padded_to (kind_from kind) front) N) (leb (half (N - 1)) (mag number)) }
{
    N <= limits::padded_to(kind, front) || octets::is_beyond(number, 1 << (8 * N - 9))
}

// A number of N octets, behind an offset or alone.
#[inline(always)]
fn taken<const N: usize>(kind: Kind, front: bool, s: &[u8]) -> Taken
    requires octets { (2 ≤ N) × (N ≤ 7) × (length s.now ≡ if_any front 2 + N) }
    requires kind { (carried_in (kind_from kind) (length s.now) ≡ front) × (length s.now ≤ longest (kind_from kind)) }
    ensures { Sees (kind_from kind) s.now (Some result) }
{
    let offset = reading::offset_in(s, front);
    let number = octets::signed::<N>(s, limits::front_octets(front));
    Taken {
        offset,
        number,
        usual: is_shortest::<N>(kind, front, number) && reading::is_needed(kind, offset),
    }
}

// Alone and behind an offset: in one `match` of both, zoned readers were slower.
#[inline(always)]
fn alone(kind: Kind, s: &[u8]) -> Option<Taken>
    requires { carried_in (kind_from kind) (length s.now) ≡ false }
    ensures { Sees (kind_from kind) s.now result }
{
    match (kind, s.len()) {
        (Kind::Date, 2) => Some(taken::<2>(kind, false, s)),
        (Kind::Date, 3) => Some(taken::<3>(kind, false, s)),
        (Kind::Time | Kind::TimeTz, 4) => Some(taken::<4>(kind, false, s)),
        (Kind::Time | Kind::TimeTz, 3) => Some(taken::<3>(kind, false, s)),
        (Kind::Datetime | Kind::DatetimeTz, 6) => Some(taken::<6>(kind, false, s)),
        (Kind::Datetime | Kind::DatetimeTz, 5) => Some(taken::<5>(kind, false, s)),
        _ => None,
    }
}

#[inline(always)]
fn behind(kind: Kind, s: &[u8]) -> Option<Taken>
    requires { carried_in (kind_from kind) (length s.now) ≡ true }
    ensures { Sees (kind_from kind) s.now result }
{
    match (kind, s.len()) {
        (Kind::DateTz, 4) => Some(taken::<2>(kind, true, s)),
        (Kind::DateTz, 5) => Some(taken::<3>(kind, true, s)),
        (Kind::TimeTz, 6) => Some(taken::<4>(kind, true, s)),
        (Kind::TimeTz, 5) => Some(taken::<3>(kind, true, s)),
        (Kind::DatetimeTz, 8) => Some(taken::<6>(kind, true, s)),
        (Kind::DatetimeTz, 7) => Some(taken::<5>(kind, true, s)),
        (Kind::DatetimeTz, 9) => Some(taken::<7>(kind, true, s)),
        _ => None,
    }
}

#[inline(always)]
pub fn at_a_glance(kind: Kind, s: &[u8]) -> Option<Taken>
    ensures { Sees (kind_from kind) s.now result }
{
    if lengths::carried_in(kind, s.len()) {
        behind(kind, s)
    } else {
        alone(kind, s)
    }
}
