// How a case is answered, in one line: after a refusal its number alone, where nothing else is said.
//   W    the refusal number (0 for none), the count (0 after a refusal), and the whole buffer afterwards in hex
//   R    `0 kind form digits year month day micros offset`: form 0 text, 1 compact, 2 extended; digits 0 but for text; a part that the kind lacks is 0
//   I    `0` and the instant of a stamp
//   A    `0` and the sum of an instant and a span
//   D    `0` and the difference of two instants
//   T    `0 year month day micros offset`, the stamp of an instant at an offset
//   S    a stamp restated at another offset, as for T
//   F    full reading: `0 records`, or the refusal number and the place at which the file is refused, 0 for its header
//   P    the record at a place: `0 channel correction instant start length`
//   Q    which correction holds: `0 read none`, or `0 read place start length instant correction`
//   O    manual over plan: `which start length octets`, which of the two files, 0 for the plan, where the part stands in it, and the part in hex, `-` for an empty one
use crate::cases::{Case, Reader};
use calendar::Date;
use instants::Instant;
use schedule::{Held, Record, Source};
use show::Octets;
use std::fmt;
use values::{
    DateTz, Datetime, DatetimeTz, Decoded, Form, Kind, Refusal, Settings, Stamp, Time, TimeTz,
    Value,
};

// ---- what a call gave

// `0` and what was asked for, or the refusal number.
#[derive(Clone, Copy)]
struct Given<T, E>(Result<T, E>);

impl<T: fmt::Display + Copy, E: Into<u32> + Copy> fmt::Display for Given<T, E> {
    fn fmt<W: fmt::Write>(&self, f: &mut fmt::Formatter<W>) -> fmt::Result {
        match self.0 {
            Ok(given) => write!(f, "0 {given}"),
            Err(refusal) => {
                let number: u32 = refusal.into();
                write!(f, "{number}")
            }
        }
    }
}

// `year month day micros offset`
#[derive(Clone, Copy)]
struct Parts(Value);

impl fmt::Display for Parts {
    fn fmt<W: fmt::Write>(&self, f: &mut fmt::Formatter<W>) -> fmt::Result {
        let Value { date, time, offset } = self.0;
        let Date { year, month, day } = date;
        write!(f, "{year} {month} {day} {} {}", time.micros, offset.minutes)
    }
}

#[derive(Clone, Copy)]
struct Stamped(Decoded);

impl fmt::Display for Stamped {
    fn fmt<W: fmt::Write>(&self, f: &mut fmt::Formatter<W>) -> fmt::Result {
        let decoded = self.0;
        let kind = u32::from(decoded.kind());
        let (form, digits) = match decoded.form() {
            Form::Text(digits) => (0, digits),
            Form::Compact => (1, 0),
            Form::Extended => (2, 0),
        };
        write!(f, "{kind} {form} {digits} {}", Parts(decoded.value()))
    }
}

#[derive(Clone, Copy)]
struct Found(Record);

impl fmt::Display for Found {
    fn fmt<W: fmt::Write>(&self, f: &mut fmt::Formatter<W>) -> fmt::Result {
        let record = self.0;
        write!(
            f,
            "{} {} {} {} {}",
            record.channel, record.correction, record.instant.micros, record.start, record.length
        )
    }
}

#[derive(Clone, Copy)]
struct Holding(Held);

impl fmt::Display for Holding {
    fn fmt<W: fmt::Write>(&self, f: &mut fmt::Formatter<W>) -> fmt::Result {
        let Held { read, latest } = self.0;
        match latest {
            None => write!(f, "{read} none"),
            Some(record) => write!(
                f,
                "{read} {} {} {} {} {}",
                record.place, record.start, record.length, record.instant.micros, record.correction
            ),
        }
    }
}

// ---- the calls of `stamp`, by kind, which is known only when the program runs: no closure is generic over types

fn write(kind: Kind, value: Value, settings: Settings, buf: &mut [u8]) -> Result<usize, Refusal> {
    match kind {
        Kind::Date => stamp::write(Date::of(value), settings, buf),
        Kind::DateTz => stamp::write(DateTz::of(value), settings, buf),
        Kind::Time => stamp::write(Time::of(value), settings, buf),
        Kind::TimeTz => stamp::write(TimeTz::of(value), settings, buf),
        Kind::Datetime => stamp::write(Datetime::of(value), settings, buf),
        Kind::DatetimeTz => stamp::write(DatetimeTz::of(value), settings, buf),
    }
}

fn read_kind(kind: Kind, s: &[u8]) -> Result<Decoded, Refusal> {
    match kind {
        Kind::Date => stamp::read::<Date>(s),
        Kind::DateTz => stamp::read::<DateTz>(s),
        Kind::Time => stamp::read::<Time>(s),
        Kind::TimeTz => stamp::read::<TimeTz>(s),
        Kind::Datetime => stamp::read::<Datetime>(s),
        Kind::DatetimeTz => stamp::read::<DatetimeTz>(s),
    }
}

fn read(reader: Reader, s: &[u8]) -> Result<Decoded, Refusal> {
    match reader {
        Reader::Of(kind) => read_kind(kind, s),
        Reader::DateOrDateTz => stamp::read_date_or_date_tz(s),
        Reader::TimeOrTimeTz => stamp::read_time_or_time_tz(s),
        Reader::DatetimeOrDatetimeTz => stamp::read_datetime_or_datetime_tz(s),
    }
}

// ---- the cases

fn write_given<T: fmt::Display + Copy, E: Into<u32> + Copy>(
    to: &mut impl fmt::Write,
    given: Result<T, E>,
) -> fmt::Result {
    write!(to, "{}", Given(given))
}

fn write_written(
    to: &mut impl fmt::Write,
    kind: Kind,
    value: Value,
    settings: Settings,
    lent: &mut [u8],
) -> fmt::Result {
    match write(kind, value, settings, lent) {
        Ok(count) => write!(to, "0 {count} {}", Octets(lent)),
        Err(refusal) => write!(to, "{} 0 {}", u32::from(refusal), Octets(lent)),
    }
}

fn write_full(to: &mut impl fmt::Write, file: &[u8]) -> fmt::Result {
    match schedule::read(file) {
        Ok(records) => write!(to, "0 {records}"),
        Err(fault) => write!(to, "{} {}", u32::from(fault.refusal), fault.place),
    }
}

// Where the part stands is told by its numbers, the octets are those of the part itself.
fn write_over(
    to: &mut impl fmt::Write,
    plan: &[u8],
    manual: &[u8],
    instant: Instant,
    channel: u32,
) -> fmt::Result {
    let part = schedule::part_over(plan, manual, instant, channel);
    let octets = schedule::over(plan, manual, instant, channel);
    let which = match part.source {
        Source::Plan => 0,
        Source::Manual => 1,
    };
    write!(
        to,
        "{which} {} {} {}",
        part.start,
        part.length,
        Octets(octets)
    )
}

pub fn write_answer(to: &mut impl fmt::Write, case: Case<'_>) -> fmt::Result {
    match case {
        Case::Write {
            kind,
            value,
            settings,
            lent,
        } => write_written(to, kind, value, settings, lent),
        Case::Read(reader, octets) => write_given(to, read(reader, octets).map(Stamped)),
        Case::InstantOf(stamp) => write_given(to, Instant::try_from(stamp).map(|it| it.micros)),
        Case::Sum(instant, span) => write_given(to, instant.add(span).map(|it| it.micros)),
        Case::Difference(instant, other) => write_given(to, instant.difference(other)),
        Case::StampAt(instant, offset) => write_given(
            to,
            instant.at(offset).map(|it| Parts(it.parts())),
        ),
        Case::Restated(stamp, offset) => {
            write_given(
                to,
                instants::restate(stamp, offset).map(|it| Parts(it.parts())),
            )
        }
        Case::ReadFile(file) => write_full(to, file),
        Case::RecordAt(place, file) => write_given(to, schedule::record_at(file, place).map(Found)),
        Case::Holds(instant, channel, file) => {
            write_given(to, schedule::holds(file, instant, channel).map(Holding))
        }
        Case::Over {
            plan,
            manual,
            instant,
            channel,
        } => write_over(to, plan, manual, instant, channel),
    }
}
