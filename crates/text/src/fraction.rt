// The fraction of a second, in microseconds: a point and up to six digits, or nothing at all.
ghost use Rattle.std.specs.Prelude.{◌≡◌, ◌+◌, ◌≤◌, length};
ghost use Rattle.format.specs.Fields.{width};
ghost use Rattle.format.specs.Text.{fraction_unit};
ghost use Rattle.text.specs.Putting.{fraction_field};
ghost use Rattle.text.specs.Pairs.{part_at, number_row};

// How many digits a fraction has.
#[derive(Clone, Copy)]
pub struct Digits {
    pub number: u32,
    ghost few: { number ≤ 6 },
}

// What the last of so many fraction digits counts, in microseconds: a `match`, where a power would be a loop.
fn fraction_unit(digits: Digits) -> u32
    ensures { result ≡ fraction_unit digits.number }
{
    match digits.number {
        0 => 1_000_000,
        1 => 100_000,
        2 => 10_000,
        3 => 1_000,
        4 => 100,
        5 => 10,
        _ => 1,
    }
}

// However many digits.
pub fn digit_by_digit(s: &[u8], at: usize, digits: Digits) -> Option<u32>
    requires { at + width (fraction_field digits.number) ≤ length s.now }
    ensures { number_row result ≡ part_at digits.number s.now at }
{
    if digits.number == 0 {
        return Some(0);
    }
    if s[at] != b'.' {
        return None;
    }
    let first = at + 1;
    let mut number: u32 = 0;
    for octet in &s[first..first + digits.number as usize] {
        if !octet.is_ascii_digit() {
            return None;
        }
        number = number * 10 + (*octet - b'0') as u32;
    }
    Some(number * fraction_unit(digits))
}
