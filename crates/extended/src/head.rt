// The header: four bits that say plain or zoned, and twelve for the offset in two's complement.
ghost use Rattle.std.specs.Prelude.{◌≡◌, ◌+◌, ◌*◌, ◌<◌};
ghost use Rattle.format.specs.Floor.{mod_f};
ghost use Rattle.format.specs.Extended.{head_bits, offset_from};
ghost use Rattle.format.specs.Values.{zoned};
ghost use Rattle.format.specs.Words.{if_any};
ghost use Rattle.values.specs.Meaning.{kind_from};

use values::{Kind, Offset};

// The first four bits, by which a reader also chooses the form.
const PLAIN: u8 = 0b1000;

const ZONED: u8 = 0b1001;

// The first octet of a plain header, whose other bits are zero.
pub const PLAIN_OCTET: u32 = PLAIN as u32 * 16;

#[tactic(auto, unfolding(format::specs::Extended::head_bits))]
pub fn head_bits(kind: Kind) -> u8
    ensures { result ≡ head_bits (kind_from kind) }
{
    if kind.zoned() { ZONED } else { PLAIN }
}

// The low twelve bits of a number in two's complement are its floor modulo 4096.
fn offset_bits(offset: Offset) -> u32
    ensures { result ≡ mod_f offset.minutes 4096 }
{
    (offset.minutes & 0xfff) as u32
}

// A plain header's twelve bits are zero.
fn twelve_bits(kind: Kind, offset: Offset) -> u32
    ensures { result ≡ if_any (zoned (kind_from kind)) (mod_f offset.minutes 4096) }
{
    if kind.zoned() { offset_bits(offset) } else { 0 }
}

pub fn header(kind: Kind, offset: Offset) -> u16
    ensures { result ≡ head_bits (kind_from kind) * 4096 + if_any (zoned (kind_from kind)) (mod_f offset.minutes 4096) }
{
    (head_bits(kind) as u16) * 4096 + (twelve_bits(kind, offset) as u16)
}

// The offset of the header's twelve bits: the first of them is its sign. Half their range added and taken off again makes it so without a
// branch.
pub fn offset_of(bits: u32) -> Offset
    requires { bits < 4096 }
    ensures { result.minutes ≡ offset_from bits }
{
    let above = ((bits + 2048) % 4096) as i32;
    Offset::new(above - 2048)
}
