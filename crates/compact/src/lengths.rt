// Which lengths a compact image can have, and where an offset is seen from the length.
ghost use Rattle.std.specs.Prelude.{◌≡◌, leb};
ghost use Rattle.format.specs.Words.{both};
ghost use Rattle.format.specs.CompactReading.{longest, shortest, carried_in};
ghost use Rattle.values.specs.Meaning.{kind_from};

use values::Kind;

pub fn longest(kind: Kind) -> usize
    ensures { result ≡ longest (kind_from kind) }
{
    match kind {
        Kind::Date => 3,
        Kind::DateTz => 5,
        Kind::Time => 4,
        Kind::TimeTz => 6,
        Kind::Datetime => 6,
        Kind::DatetimeTz => 9,
    }
}

// A DateTz always has its offset, and two octets behind it.
#[tactic(auto, unfolding(format::specs::CompactReading::shortest))]
fn shortest(kind: Kind) -> usize
    ensures { result ≡ shortest (kind_from kind) }
{
    match kind {
        Kind::DateTz => 4,
        _ => 1,
    }
}

pub fn has_length(kind: Kind, octets: usize) -> bool
    ensures { result ≡ both (leb (shortest (kind_from kind)) octets) (leb octets (longest (kind_from kind))) }
{
    shortest(kind) <= octets && octets <= longest(kind)
}

// Whether so many octets have an offset in front: of a time they are more than a number without an offset has.
#[tactic(auto, unfolding(format::specs::CompactReading::carried_in, format::specs::CompactReading::longest_plain))]
pub fn carried_in(kind: Kind, octets: usize) -> bool
    ensures { result ≡ carried_in (kind_from kind) octets }
{
    match kind {
        Kind::DateTz => true,
        Kind::TimeTz => longest(Kind::Time) < octets,
        Kind::DatetimeTz => longest(Kind::Datetime) < octets,
        Kind::Date | Kind::Time | Kind::Datetime => false,
    }
}
