// The writer. It promises what `encode` says of the kind, the settings and the value, and every octet of the lent buffer.
// The digits are tested, the form is chosen, and its writer answers.
ghost use Rattle.stamp.specs.Calls.{WritesStamp};

use values::{Form, Refusal, Settings, Stamp};

#[tactic(auto, using(crate::proofs::Choosing::written))]
pub fn write<T: Stamp>(value: T, settings: Settings, buf: &mut [u8]) -> Result<usize, Refusal>
    ensures { WritesStamp T.kind T.value settings value buf.old result buf.new }
{
    if !settings.in_range() {
        return Err(Refusal::Digits);
    }
    let parts = value.parts();
    match settings.form(T::kind(), parts) {
        Form::Text(digits) => text::write::<T>(parts, digits, buf),
        Form::Compact => compact::write::<T>(parts, buf),
        Form::Extended => extended::write::<T>(parts, buf),
    }
}
