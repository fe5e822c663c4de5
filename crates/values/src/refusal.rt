// Why a call refuses.
ghost use Rattle.values.specs.Calls.{RefusalNumber};

// In the order of document 01's numbers, 1 to 8. Writers answer the first four, readers the others.
#[derive(Clone, Copy)]
pub enum Refusal {
    // More than 6 digits.
    Digits,
    // A part of the value is out of its range, or there is no such day.
    Value,
    // The value has no compact form.
    NoCompact,
    // The buffer is shorter than the image.
    Buffer,
    // The chosen form of this kind has no such length.
    Length,
    // A digit, sign or separator is wrong, or a plain header's twelve bits are not zero.
    Octet,
    // More octets than the number takes, an offset of zero where none should stand, or `-00:00`.
    Redundant,
    // A field is out of range, or there is no such day.
    Range,
}

impl From<Refusal> for u32 {
    ghost from_gives = { RefusalNumber };

    fn from(refusal: Refusal) -> u32 {
        match refusal {
            Refusal::Digits => 1,
            Refusal::Value => 2,
            Refusal::NoCompact => 3,
            Refusal::Buffer => 4,
            Refusal::Length => 5,
            Refusal::Octet => 6,
            Refusal::Redundant => 7,
            Refusal::Range => 8,
        }
    }
}
