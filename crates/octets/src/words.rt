// Unsigned numbers, big-endian: 2, 4 and 8 octets are one load or one store each.
ghost use Rattle.std.specs.Prelude.{◌≡◌, ◌+◌, ◌≤◌, length};
ghost use Rattle.std.proofs.lemmas.List.Edits.{sets};
ghost use Rattle.format.specs.Octets.{unsigned_octets, unsigned_at};

// All eight octets of `x`, for a caller that keeps the last `N` of them.
#[inline(always)]
#[tactic(auto, using(crate::proofs::Storing::eight_octets))]
fn all_octets<const N: usize>(x: u64) -> [u8; 8]
    ensures { result ≡ unsigned_octets 8 x }
{
    x.to_be_bytes()
}

// The last `N` octets of `x`, at `at`.
pub fn put_unsigned<const N: usize>(buf: &mut [u8], at: usize, x: u64)
    requires { (at + N ≤ length buf.old) × (N ≤ 8) }
    ensures { buf.new ≡ sets buf.old at (unsigned_octets N x) }
{
    buf[at..at + N].copy_from_slice(&all_octets::<N>(x)[8 - N..]);
}

pub fn take4(s: &[u8], at: usize) -> u32
    requires { at + 4 ≤ length s.now }
    ensures { result ≡ unsigned_at s.now at 4 }
{
    u32::from_be_bytes([s[at], s[at + 1], s[at + 2], s[at + 3]])
}

// By halves: where the first one alone is looked at, the other is not loaded; and of both the compiler makes one load.
pub fn take8(s: &[u8], at: usize) -> u64
    requires { at + 8 ≤ length s.now }
    ensures { result ≡ unsigned_at s.now at 8 }
{
    (take4(s, at) as u64) * 4294967296 + (take4(s, at + 4) as u64)
}
