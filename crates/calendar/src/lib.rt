// The proleptic Gregorian calendar of the years 1 to 9999: a date's day number, and the date of a day number.
// There is no loop and no table: sums and quotients only.
#![tactic(auto)]

ghost use Rattle.std.specs.Prelude.{◌≡◌, true, ◌+◌, ◌-◌, ◌<◌, ◌≤◌};
ghost use Rattle.format.specs.Calendar.{last_number, leap, year_length, is_day, day_number, day_of};
ghost use Rattle.calendar.specs.Meaning.{day_from};
ghost use Rattle.calendar.specs.Steps.{to_january, day_count};
ghost use Rattle.calendar.specs.Calls.{DateNew, DateInRange, DayNumber, DateOf, YearStart};

mod months;
mod years;

use crate::years::Elapsed;

// Any three numbers: whoever writes a date refuses the wrong ones.
#[derive(Clone, Copy)]
pub struct Date {
    pub year: u32,
    pub month: u32,
    pub day: u32,
}

// The leap years repeat after so many.
const CYCLE_YEARS: u32 = 400;

impl Date {
    pub const LAST_YEAR: u32 = 9_999;
    // The day number of 9999-12-31.
    pub const LAST_NUMBER: u32 = 3_652_058;

    pub fn new(year: u32, month: u32, day: u32) -> Date
        ensures { DateNew year month day result }
    {
        Date { year, month, day }
    }

    // Whether there is such a day in the years 1 to 9999. Few days have to ask how long their month is.
    pub fn in_range(self) -> bool
        ensures { DateInRange self result }
    {
        let year = self.year;
        let month = self.month;
        let day = self.day;
        if year < 1 {
            return false;
        }
        if Date::LAST_YEAR < year {
            return false;
        }
        if month < 1 {
            return false;
        }
        if 12 < month {
            return false;
        }
        if day < 1 {
            return false;
        }
        if day <= months::SHORTEST {
            return true;
        }
        day <= months::month_length(is_leap(year), month)
    }
}

// Every fourth year, but of the centuries only every fourth.
fn is_leap(year: u32) -> bool
    ensures { result ≡ leap year }
{
    if year % 100 == 0 {
        return year % 400 == 0;
    }
    year % 4 == 0
}

// The days before that many years of a cycle, whole cycles left out.
pub fn year_start(years: u32) -> u32
    ensures { YearStart years result }
{
    years::start(years % CYCLE_YEARS)
}

// The day number, where there is such a day: the days of the years from March before it, of the months from March, and of its month.
fn number_of(date: Date) -> u32
    requires { is_day (day_from date) ≡ true }
    ensures { result ≡ day_number (day_from date) }
{
    let year = date.year;
    let month = date.month;
    let day = date.day;
    years::days_before(years::of_month(year, month)) + months::days_before(month) + day
        - (years::TO_JANUARY + 1)
}

// A date's day number, 0 at 0001-01-01, where there is such a day. One test of the whole date; what then follows asks for no range.
pub fn day_number(date: Date) -> Option<u32>
    ensures { DayNumber date result }
{
    if date.in_range() {
        return Some(number_of(date));
    }
    None
}

// The date of the day that comes after that many years and days. Month and day lie on one line, of which a day is 2,141 and a month 65,536: March is 3,
// and January and February, which the calendar gives to its next year, are 13 and 14.
fn date_after(past: Elapsed) -> Date
    requires { (past.days < year_length past.years) × (to_january ≤ day_count past) × (day_count past ≤ last_number + to_january) }
    ensures { day_from result ≡ day_of (day_count past - to_january) }
{
    let years = past.years;
    let days = past.days;
    let line = 2_141 * days + 197_913;
    let month = line / 65_536;
    let day = line % 65_536 / 2_141 + 1;
    if days < years::TO_JANUARY {
        return Date {
            year: years,
            month,
            day,
        };
    }
    Date {
        year: years + 1,
        month: month - 12,
        day,
    }
}

// The date of a day number, where there is one. The year and its day first, then the month and its day.
pub fn date_of(number: u32) -> Option<Date>
    ensures { DateOf number result }
{
    if Date::LAST_NUMBER < number {
        return None;
    }
    Some(date_after(years::elapsed_at(number + years::TO_JANUARY)))
}
