// The calendar's calls for C, so that they can be measured beside a plain C version. For `make measure` only: never installed.
#![tactic(auto)]

ghost use Rattle.std.specs.Prelude.{◌≡◌, true};
ghost use Rattle.format.specs.Calendar.{is_day};
ghost use Rattle.calendar.specs.Meaning.{day_from};
ghost use Rattle.measured.specs.Measured.{yyyymmdd, NumberForC, DateForC};

use calendar::Date;

// A day number fits into an i32, which has room for the answer 'none' too.
#[unsafe(no_mangle)]
#[tactic(auto, using(std::proofs::lemmas::Int::ints, crate::proofs::Asked::asked_small))]
pub extern "C" fn measured_day_number(year: u32, month: u32, day: u32) -> i32
    ensures { NumberForC year month day result }
{
    match calendar::day_number(Date::new(year, month, day)) {
        Some(number) => number as i32,
        None => -1,
    }
}

// One number, as C has no answer of three: 2020-05-08 is 20200508.
#[tactic(auto, using(crate::proofs::Asked::yyyymmdd_small), unfolding(crate::specs::Measured::yyyymmdd))]
fn yyyymmdd(date: Date) -> u32
    requires { is_day (day_from date) ≡ true }
    ensures { result ≡ yyyymmdd (day_from date) }
{
    date.year * 10_000 + date.month * 100 + date.day
}

// 0 is no date's number, as the year is at least 1.
#[unsafe(no_mangle)]
#[tactic(auto, using(crate::proofs::Asked::asked_day))]
pub extern "C" fn measured_date_of(number: u32) -> u32
    ensures { DateForC number result }
{
    match calendar::date_of(number) {
        Some(date) => yyyymmdd(date),
        None => 0,
    }
}
