// Pairs of digits with marks between them, read as one word: its exclusive or with the word of zeros and marks has in each octet the digit.
// Ten times that and its own next octet have in the octet where a pair begins the pair's number, below 100: nothing is carried.
// None: an octet is wrong.
ghost use Rattle.std.specs.Prelude.{◌≡◌, ◌+◌, ◌≤◌, true, [], ◌∷◌, length};
ghost use Rattle.format.specs.Fields.{digits, after};
ghost use Rattle.text.specs.Pairs.{row_at, part_at, number_row, two_row, three_row, clean, numbered};

// Whether every octet of `x` is as it should be: `mask` has the bits that none may have, before `six` is added and after.
fn is_clean(x: u64, six: u64, mask: u64) -> bool
    ensures { result ≡ clean x six mask }
{
    x & mask == 0 && x.wrapping_add(six) & mask == 0
}

// The numbers of the pairs in such a word, each in the octet where its pair begins.
fn numbers_in(word: u64, six: u64, mask: u64) -> Option<u64>
    requires { (clean word six mask ≡ true) → (word ≤ 651061486403881225) }
    ensures { numbered word (clean word six mask) result }
{
    if !is_clean(word, six, mask) {
        return None;
    }
    Some(word * 10 + word / 256)
}

// `00`
pub fn pair(s: &[u8], at: usize) -> Option<u32>
    requires { at + 2 ≤ length s.now }
    ensures { number_row result ≡ row_at (digits 2 ∷ []) s.now at }
{
    let word = octets::take_low::<2>(s, at) ^ 0x3030;
    let pairs = numbers_in(word, 0x0606, 0xf0f0)?;
    Some((pairs % 256) as u32)
}

// `00:00`
pub fn two_pairs(s: &[u8], at: usize) -> Option<(u32, u32)>
    requires { at + 5 ≤ length s.now }
    ensures { two_row result ≡ row_at (digits 2 ∷ after 58 2 ∷ []) s.now at }
{
    let word = octets::take_five(s, at) ^ 0x30_303a_3030;
    let pairs = numbers_in(word, 0x06_0600_0606, 0xf0_f0ff_f0f0)?;
    Some(((pairs % 256) as u32, (pairs / 16_777_216 % 256) as u32))
}

// `00-00-00`, `00:00:00`
pub fn three_pairs(s: &[u8], at: usize, mark: u8) -> Option<(u32, u32, u32)>
    requires { at + 8 ≤ length s.now }
    ensures { three_row result ≡ row_at (digits 2 ∷ after mark 2 ∷ after mark 2 ∷ []) s.now at }
{
    let zeros = mark as u64 * 0x100_0001_0000 + 0x3030_0030_3000_3030;
    let word = octets::take_low::<8>(s, at) ^ zeros;
    let pairs = numbers_in(word, 0x0606_0006_0600_0606, 0xf0f0_fff0_f0ff_f0f0)?;
    let first = (pairs % 256) as u32;
    let second = (pairs / 16_777_216 % 256) as u32;
    let third = (pairs / 281_474_976_710_656 % 256) as u32;
    Some((first, second, third))
}

// `.000`: three digits of a second are the usual ones.
pub fn thousandths(s: &[u8], at: usize) -> Option<u32>
    requires { at + 4 ≤ length s.now }
    ensures { number_row result ≡ part_at 3 s.now at }
{
    let word = octets::take_low::<4>(s, at) ^ 0x3030_302e;
    let pairs = numbers_in(word, 0x0606_0600, 0xf0f0_f0ff)?;
    let hundredths = (pairs / 256 % 256) as u32;
    let last = (word / 16_777_216) as u32;
    Some(hundredths * 10_000 + last * 1_000)
}
