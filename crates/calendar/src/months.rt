// The months of a year, numbered from 1.
ghost use Rattle.std.specs.Prelude.{◌≡◌, ◌-◌, ◌≤◌};
ghost use Rattle.format.specs.Words.{pick};
ghost use Rattle.format.specs.Calendar.{month_length};
ghost use Rattle.calendar.specs.Steps.{march_days};

// Every month has so many days.
pub(crate) const SHORTEST: u32 = 28;

fn february(leap: bool) -> u32
    ensures { result ≡ pick leap 29 28 }
{
    if leap {
        return 29;
    }
    28
}

// 31 and 30 days in turn, but July and August have 31 both.
pub(crate) fn month_length(leap: bool, month: u32) -> u32
    requires { (1 ≤ month) × (month ≤ 12) }
    ensures { result ≡ month_length leap (month - 1) }
{
    if month == 2 {
        return february(leap);
    }
    30 + (month + month / 8) % 2
}

// The days of a year from March before a month. So counted, the months' starts lie on a line, rounded down: 979/32 days a month.
pub(crate) fn days_before(month: u32) -> u32
    requires { (1 ≤ month) × (month ≤ 12) }
    ensures { result ≡ march_days month }
{
    if month < 3 {
        return (979 * month + 8_829) / 32;
    }
    (979 * month - 2_919) / 32
}
