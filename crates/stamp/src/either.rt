// The kind that an either-or reader chooses: the first rule that fits. (01, How a reader chooses; 02, request 1.)
// A zoned text without a fraction is as long as a plain one with five digits: the octet behind the seconds tells them apart.
#![tactic(auto, unfolding(format::specs::EitherOr::kind_in, format::specs::EitherOr::kind_by01, format::specs::Reading::first_bits))]

ghost use Rattle.stamp.specs.Calls.{ChoosesDate, ChoosesTime, ChoosesDatetime};

use values::Kind;

pub fn date_kind(s: &[u8]) -> Kind
    ensures { ChoosesDate s.now result }
{
    match s.len() {
        0..=3 => Kind::Date,
        4..=5 => Kind::DateTz,
        6..=10 => Kind::Date,
        _ => Kind::DateTz,
    }
}

// The header's bits count at 7 octets only.
pub fn time_kind(s: &[u8]) -> Kind
    ensures { ChoosesTime s.now result }
{
    match s.len() {
        0..=4 => Kind::Time,
        5..=6 => Kind::TimeTz,
        7 if s[0] / 16 == 9 => Kind::TimeTz,
        14 if text::is_sign(s[8]) => Kind::TimeTz,
        7..=15 => Kind::Time,
        _ => Kind::TimeTz,
    }
}

// The header's bits count at every length above 9.
pub fn datetime_kind(s: &[u8]) -> Kind
    ensures { ChoosesDatetime s.now result }
{
    match s.len() {
        0..=6 => Kind::Datetime,
        7..=9 => Kind::DatetimeTz,
        _ if s[0] / 16 == 8 => Kind::Datetime,
        _ if s[0] / 16 == 9 => Kind::DatetimeTz,
        25 if text::is_sign(s[19]) => Kind::DatetimeTz,
        10..=26 => Kind::Datetime,
        _ => Kind::DatetimeTz,
    }
}
