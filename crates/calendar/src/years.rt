// Years counted from March, so that the leap day is the last of its year. Year 0 from March began on 0000-03-01, and year k has as many days as the
// calendar's year k + 1: so the days before either are the same, by one formula.
ghost use Rattle.std.specs.Prelude.{◌≡◌, ◌+◌, ◌*◌, ◌/◌, ◌<◌, ◌≤◌};
ghost use Rattle.format.specs.Walk.{sum_from};
ghost use Rattle.format.specs.Calendar.{last_year, last_number, year_length, year_start};
ghost use Rattle.calendar.specs.Steps.{to_january, march_year, day_count};

// The days from 1 March to the 1 January after it; so many, too, from 0000-03-01 to 0001-01-01.
pub(crate) const TO_JANUARY: u32 = 306;

// What lies before a day: whole years from March, and days of its own.
#[derive(Clone, Copy)]
pub(crate) struct Elapsed {
    pub(crate) years: u32,
    pub(crate) days: u32,
}

// years / 100, by a product: 5,243 / 524,288 is a hundredth, and so little more that years up to 9999 don't notice.
fn hundredth(years: u32) -> u32
    requires { years ≤ last_year }
    ensures { result ≡ years / 100 }
{
    years * 5_243 / 524_288
}

// A year's start, by 01's formula: 365 i + i / 4 - i / 100.
pub(crate) fn start(years: u32) -> u32
    requires { years ≤ last_year }
    ensures { result ≡ year_start years }
{
    365 * years + years / 4 - hundredth(years)
}

// The formula is for one cycle: it leaves out the leap day of every 400th year.
pub(crate) fn days_before(years: u32) -> u32
    requires { years ≤ last_year }
    ensures { result ≡ sum_from year_length 0 years }
{
    start(years) + hundredth(years) / 4
}

// The year from March in which a month lies.
pub(crate) fn of_month(year: u32, month: u32) -> u32
    requires { 1 ≤ year }
    ensures { result ≡ march_year year month }
{
    if month < 3 {
        return year - 1;
    }
    year
}

// The centuries before a day: (4 days + 3) / 146,097, by a product. The constants are 4 and 3 of that fraction in 2^39ths, rounded up.
fn centuries_before(days: u64) -> u64
    requires { days ≤ last_number + to_january }
    ensures { result ≡ (4 * days + 3) / 146097 }
{
    (days * 15_051_803 + 11_288_853) / 549_755_813_888
}

// The years before a day, and its day of the year. With the days put back that centuries lack, every fourth year is a leap year: the years are then the
// quotient of (4 days + 3) by 1,461, and a quarter of its remainder is the day, so that no year's start is asked for. One product, in 2^32nds of a year, gives both.
pub(crate) fn elapsed_at(days: u32) -> Elapsed
    requires { days ≤ last_number + to_january }
    ensures { (result.days < year_length result.years) × (day_count result ≡ days) }
{
    let days = days as u64;
    let centuries = centuries_before(days);
    let evened = days + centuries - centuries / 4;
    let shares = evened * 11_758_980 + 8_819_235;
    Elapsed {
        years: (shares / 4_294_967_296) as u32,
        days: (shares % 4_294_967_296 / 11_758_980) as u32,
    }
}
