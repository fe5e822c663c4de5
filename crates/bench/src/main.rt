// The example program of document 01: writes its fifteen stamps, A to O, and prints a line for each.
// A line has the letter, the refusal number (0 for none), and the octets in hex, or `-` after a refusal.
#![tactic(auto)]

use calendar::Date;
use show::Octets;
use std::io;
use values::{DateTz, Datetime, DatetimeTz, Offset, Settings, Stamp, Time, TimeTz};

// Any stamp has room: the longest, a DatetimeTz in text, has 32 octets.
const ROOM: usize = 32;

// A reader of version 0 knows no extended form.
fn old(digits: u32) -> Settings {
    Settings::new(true, 0, digits)
}

fn new(digits: u32) -> Settings {
    Settings::new(true, Settings::EXTENDED_FROM, digits)
}

fn row<T: Stamp>(rt: &impl Print, letter: char, value: T, settings: Settings) -> io::Result<()> {
    let mut buf = [0u8; ROOM];
    match stamp::write(value, settings, &mut buf) {
        Ok(count) => println!(rt; "{letter} 0 {}", Octets(&buf[..count])),
        Err(refusal) => println!(rt; "{letter} {} -", u32::from(refusal)),
    }
}

// Values by their parts, so that a case below is one line.

fn date_at(date: Date, minutes: i32) -> DateTz {
    let offset = Offset::new(minutes);
    DateTz { date, offset }
}

fn time_at(micros: u64, minutes: i32) -> TimeTz {
    let time = Time::new(micros);
    let offset = Offset::new(minutes);
    TimeTz { time, offset }
}

fn moment(date: Date, micros: u64) -> Datetime {
    let time = Time::new(micros);
    Datetime { date, time }
}

fn moment_at(date: Date, micros: u64, minutes: i32) -> DatetimeTz {
    let time = Time::new(micros);
    let offset = Offset::new(minutes);
    DatetimeTz { date, time, offset }
}

fn main(rt: HostRuntime) -> io::Result<()> {
    let far = Date::new(6479, 10, 17);
    row(&rt, 'A', Date::new(2020, 1, 1), old(3))?;
    row(&rt, 'B', Date::new(2019, 12, 31), old(3))?;
    row(&rt, 'C', Date::new(2020, 5, 7), old(3))?;
    row(&rt, 'D', Date::new(2020, 5, 8), old(3))?;
    row(&rt, 'E', Date::new(1, 1, 1), old(3))?;
    row(&rt, 'F', Date::new(9999, 12, 31), old(3))?;
    row(&rt, 'G', date_at(Date::new(2020, 1, 1), -270), old(3))?;
    row(&rt, 'H', Time::end_of_day(), new(3))?;
    row(&rt, 'I', Time::end_of_day(), old(3))?;
    row(&rt, 'J', time_at(1_000, 90), old(3))?;
    row(&rt, 'K', time_at(0, -270), new(6))?;
    row(&rt, 'L', moment(Date::new(2020, 1, 1), 1), new(6))?;
    row(
        &rt,
        'M',
        moment_at(Date::new(2019, 12, 31), 86_399_999_999, -270),
        old(3),
    )?;
    row(&rt, 'N', moment(far, 9_955_327_000), old(3))?;
    row(&rt, 'O', moment(far, 9_955_328_000), old(3))
}
