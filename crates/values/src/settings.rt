// How a writer is set, and the forms that a value is written in.
ghost use Rattle.values.specs.Calls.{SettingsNew, SettingsDefault, SettingsForForm, SettingsForm, SettingsInRange};

use crate::{Kind, Value};

// A text has its number of fraction digits; 0 for kinds without a time.
#[derive(Clone, Copy)]
pub enum Form {
    Text(u32),
    Compact,
    Extended,
}

// As document 01 names them: text or binary; the version of whoever will read; the digits of a text's fraction.
#[derive(Clone, Copy)]
pub struct Settings {
    pub binary: bool,
    pub version: u32,
    pub digits: u32,
}

// Text with milliseconds.
impl Default for Settings {
    ghost is_default = { SettingsDefault };

    fn default() -> Settings {
        Settings {
            binary: false,
            version: 0,
            digits: 3,
        }
    }
}

impl Settings {
    pub const MAX_DIGITS: u32 = 6;
    // The first version that knows the extended form.
    pub const EXTENDED_FROM: u32 = 35_500;

    pub fn new(binary: bool, version: u32, digits: u32) -> Settings
        ensures { SettingsNew binary version digits result }
    {
        Settings {
            binary,
            version,
            digits,
        }
    }

    // Settings under which a value that has this form is written in it: what to write with again after a read.
    pub fn for_form(form: Form) -> Settings
        ensures { SettingsForForm form result }
    {
        match form {
            Form::Text(digits) => Settings::new(false, 0, digits),
            Form::Compact => Settings::new(true, 0, 0),
            Form::Extended => Settings::new(true, Settings::EXTENDED_FROM, Settings::MAX_DIGITS),
        }
    }

    // 01, Choice of form: kinds without a time have no extended form, and their text has no fraction.
    pub fn form(self, kind: Kind, value: Value) -> Form
        ensures { SettingsForm self kind value result }
    {
        let digits = self.digits;
        if !self.binary {
            if kind.timed() {
                return Form::Text(digits);
            }
            return Form::Text(0);
        }
        if !kind.timed() {
            return Form::Compact;
        }
        if self.version < Settings::EXTENDED_FROM {
            return Form::Compact;
        }
        if digits == Settings::MAX_DIGITS {
            return Form::Extended;
        }
        if value.time.is_end_of_day() {
            return Form::Extended;
        }
        Form::Compact
    }

    pub fn in_range(self) -> bool
        ensures { SettingsInRange self result }
    {
        self.digits <= Settings::MAX_DIGITS
    }
}
