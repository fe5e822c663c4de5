// Words of up to eight octets, least significant first: 2, 4 and 8 octets are one load or one store each.
ghost use Rattle.std.specs.Prelude.{◌≡◌, ◌+◌, ◌≤◌, length};
ghost use Rattle.std.proofs.lemmas.List.Edits.{sets};
ghost use Rattle.octets.specs.Words.{low_octets, standing, Loads};

// The last `N` octets of `w`.
pub fn put_low<const N: usize>(buf: &mut [u8], at: usize, w: u64)
    requires { (at + N ≤ length buf.old) × (N ≤ 8) }
    ensures { buf.new ≡ sets buf.old at (low_octets N w) }
{
    buf[at..at + N].copy_from_slice(&w.to_le_bytes()[..N]);
}

pub fn take_low<const N: usize>(s: &[u8], at: usize) -> u64
    requires { (at + N ≤ length s.now) × (N ≤ 8) }
    ensures { Loads (standing N s.now at) s.now result }
{
    let mut octets = [0; 8];
    octets[..N].copy_from_slice(&s[at..at + N]);
    u64::from_le_bytes(octets)
}

// Five octets: the last by itself, as a copy in two parts, which `take_low` would make of them, is slow to load again.
pub fn take_five(s: &[u8], at: usize) -> u64
    requires { at + 5 ≤ length s.now }
    ensures { Loads (standing 5 s.now at) s.now result }
{
    let last = s[at + 4] as u64;
    last * 4294967296 + take_low::<4>(s, at)
}
