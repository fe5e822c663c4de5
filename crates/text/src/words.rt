// Digits as words of octets, the tens in the lower octet; 48 is still to be added to each.
ghost use Rattle.std.specs.Prelude.{◌≡◌, ◌+◌, ◌-◌, ◌*◌, ◌/◌, ◌<◌, ◌≤◌, bit_and};
ghost use Rattle.text.specs.Putting.{duo, Duo, Sum};

// A number v below 100 has v * 103 / 1024 tens, and its digits are v * 256 - 2559 * tens. Numbers that stand 16 bits apart or more cannot
// meet, so that it is done to all of them at once.

// Two digits. The wider fraction keeps the product from being cut to 16 bits.
pub fn two_digits(v: u64) -> u64
    requires { v < 100 }
    ensures { Duo v result }
{
    v * 256 - 2559 * (v * 6554 / 65536)
}

// The digits of all numbers in a word: `mask` keeps the tens of each, and drops what the numbers above it have left behind.
fn digits_in(numbers: u64, mask: u64) -> u64
    requires { (numbers < 28147497671065600) × (2559 * bit_and (numbers * 103 / 1024) mask ≤ numbers * 256) }
    ensures { result ≡ numbers * 256 - 2559 * bit_and (numbers * 103 / 1024) mask }
{
    let tens = numbers * 103 / 1024 & mask;
    numbers * 256 - 2559 * tens
}

// Three times two digits, with an octet between: as in `yy-mm-dd` and `hh:mm:ss`.
pub fn clock_digits(a: u64, b: u64, c: u64) -> u64
    requires { (a < 100) × (b < 100) × (c < 100) }
    ensures { Sum (duo a + duo b * 16777216 + duo c * 281474976710656) result }
{
    digits_in(a + b * 16777216 + c * 281474976710656, 0x000f00000f00000f)
}

// Three times two digits behind two octets: as in a fraction behind its point.
pub fn fraction_digits(a: u64, b: u64, c: u64) -> u64
    requires { (a < 100) × (b < 100) × (c < 100) }
    ensures { Sum (duo a * 65536 + duo b * 4294967296 + duo c * 281474976710656) result }
{
    digits_in(
        a * 65536 + b * 4294967296 + c * 281474976710656,
        0x000f000f000f0000,
    )
}

// Twice two digits behind an octet, and an octet between: as in an offset behind its sign.
pub fn offset_digits(a: u64, b: u64) -> u64
    requires { (a < 100) × (b < 100) }
    ensures { Sum (duo a * 256 + duo b * 4294967296) result }
{
    digits_in(a * 256 + b * 4294967296, 0x0000000f00000f00)
}
