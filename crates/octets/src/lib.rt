// Numbers in octets, big-endian: unsigned and two's complement, put into a lent buffer and taken from a slice; the fewest octets of a BER integer.
// And words of octets, least significant first.
// For the crates of this library: callers prove what is required.
#![tactic(auto)]

mod low;
mod words;

ghost use Rattle.std.specs.Prelude.{◌≡◌, ◌+◌, ◌^◌, ◌<◌, ◌≤◌, length, take, drop, pos, nat_le, unsigned_abs};
ghost use Rattle.std.specs.Int.Signed.{mag};
ghost use Rattle.std.proofs.lemmas.List.Edits.{sets};
ghost use Rattle.format.specs.Floor.{div_f, mod_f};
ghost use Rattle.format.specs.Octets.{signed_octets, push, sign_from, signed_of, fewest_octets, tight};
ghost use Rattle.octets.specs.Words.{so_far};

pub use low::{put_low, take_five, take_low};
pub use words::{put_unsigned, take4, take8};

// ---- the fewest octets

// n of n, and of -(n + 1): the number without its sign bits.
fn magnitude(x: i64) -> u64
    ensures { result ≡ mag x }
{
    if x < 0 { !x as u64 } else { x as u64 }
}

// 01: the octet count from the leading sign bits: leading-zero count of the 64-bit number, or of its complement when negative.
// One octet is the least, so that the last bit does not count: set, it spares a test for zero.
pub fn fewest_octets(x: i64) -> usize
    ensures { result ≡ fewest_octets x }
{
    let zeros = (magnitude(x) | 1).leading_zeros();
    ((64 - zeros) / 8 + 1) as usize
}

// Whether a number lies outside of -half to half - 1: so that one octet fewer, which holds those, does not hold it.
pub fn is_beyond(x: i64, half: i64) -> bool
    requires { half ≡ pos (unsigned_abs half) }
    ensures { result ≡ nat_le (unsigned_abs half) (mag x) }
{
    x < -half || half <= x
}

// Whether the octets from `at` on have no redundant sign octet (X.690 8.3.2).
pub fn is_tight(s: &[u8], at: usize) -> bool
    requires { at < length s.now }
    ensures { result ≡ tight (drop at s.now) }
{
    let [first, second, ..] = &s[at..] else {
        return true;
    };
    *first != if *second < 128 { 0 } else { 255 }
}

// ---- put into a buffer, from the last octet to the first

fn last_octet(v: i64) -> u8
    ensures { result ≡ mod_f v 256 }
{
    (v & 0xff) as u8
}

// The octet is cleared first: the division is exact, and so never goes toward zero.
fn without_last(v: i64) -> i64
    ensures { result ≡ div_f v 256 }
{
    (v & !0xff) / 256
}

// The last `n` octets of `x` in two's complement, at `at`: more of them than `x` needs repeat its sign. Inlined, so that with a number of octets
// that is known it has no loop, and two or four of them are one store.
#[inline(always)]
pub fn put_signed_in(buf: &mut [u8], at: usize, n: usize, x: i64)
    requires { at + n ≤ length buf.old }
    ensures { buf.new ≡ sets buf.old at (signed_octets n x) }
{
    let mut v = x;
    for i in (0..n).rev() {
        buf[at + i] = last_octet(v);
        v = without_last(v);
    }
}

pub fn put_signed<const N: usize>(buf: &mut [u8], at: usize, x: i64)
    requires { at + N ≤ length buf.old }
    ensures { buf.new ≡ sets buf.old at (signed_octets N x) }
{
    put_signed_in(buf, at, N, x);
}

// Without its last `k` octets.
fn without_octets(x: i64, k: usize) -> i64
    requires { k ≤ 7 }
    ensures { result ≡ div_f x (256 ^ k) }
{
    x >> (8 * k)
}

// Four to six octets: the first four, and the last two, which are some of those or stand behind them.
pub fn put_signed_4_to_6(buf: &mut [u8], at: usize, n: usize, x: i64)
    requires { (at + n ≤ length buf.old) × (4 ≤ n) × (n ≤ 6) }
    ensures { buf.new ≡ sets buf.old at (signed_octets n x) }
{
    put_signed::<4>(buf, at, without_octets(x, n - 4));
    put_signed::<2>(buf, at + (n - 2), x);
}

// ---- taken from a slice, from the first octet to the last

// What stands before a first octet: its sign, in every bit.
fn sign_from(b: u8) -> i64
    ensures { result ≡ sign_from b }
{
    if b < 128 { 0 } else { -1 }
}

// The number of the first four of `n` octets, which are one load, or of the first two, or of none; and how many they are.
fn first_of(s: &[u8], at: usize, n: usize) -> (i64, usize)
    requires { (at + n ≤ length s.now) × (1 ≤ n) }
    ensures passed { result.1 ≤ n }
    ensures number { result.0 ≡ so_far s.now at result.1 }
{
    if 4 <= n {
        let first = i32::from_be_bytes([s[at], s[at + 1], s[at + 2], s[at + 3]]);
        (first as i64, 4)
    } else if 2 <= n {
        (i16::from_be_bytes([s[at], s[at + 1]]) as i64, 2)
    } else {
        (sign_from(s[at]), 0)
    }
}

fn with_octet(v: i64, b: u8) -> i64
    requires { mag v < 2 ^ 55 }
    ensures { result ≡ push v b }
{
    v * 256 + (b as i64)
}

// The number of `n` octets, of which so many are passed and have the number `first`: the others behind it, one by one. Inlined, as above.
#[inline(always)]
fn with_rest(s: &[u8], at: usize, n: usize, first: i64, passed: usize) -> i64
    requires fits { (at + n ≤ length s.now) × (1 ≤ n) × (n ≤ 8) × (passed ≤ n) }
    requires number { first ≡ so_far s.now at passed }
    ensures { result ≡ signed_of (take n (drop at s.now)) }
{
    let mut v = first;
    for octet in &s[at + passed..at + n] {
        v = with_octet(v, *octet);
    }
    v
}

// The number of the `N` octets at `at`, in two's complement.
pub fn signed<const N: usize>(s: &[u8], at: usize) -> i64
    requires { (at + N ≤ length s.now) × (1 ≤ N) × (N ≤ 8) }
    ensures { result ≡ signed_of (take N (drop at s.now)) }
{
    let (first, passed) = first_of(s, at, N);
    with_rest(s, at, N, first, passed)
}

// Of a number of octets that is told when it runs: octet by octet, as to choose among loads would cost the readers more than they save.
pub fn take_signed(s: &[u8], at: usize, n: usize) -> i64
    requires { (at + n ≤ length s.now) × (1 ≤ n) × (n ≤ 8) }
    ensures { result ≡ signed_of (take n (drop at s.now)) }
{
    with_rest(s, at, n, sign_from(s[at]), 0)
}
