// How a case is written: a letter, then its fields, each after one space.
//   W kind year month day micros offset binary version digits room    kind 0 to 5, binary 0 or 1, room 0 to 48
//   R kind hex                                                        kind 0 to 8; at most 64 octets, in uppercase, `-` for none
//   I year month day micros offset
//   A instant span                                                    span: the microseconds to add
//   D instant other                                                   other: the instant to take away
//   T instant offset
//   S year month day micros offset to                                 to: the other offset
//   F hex                                                             hex as for R, but at most 65,536 octets: a schedule file
//   P place hex                                                       hex as for F
//   Q instant channel hex                                             hex as for F
//   O instant channel hex hex                                         the plan and the manual schedule, each as for F
// Where no limit is named: an offset and `to` are any numbers of 32 bits, an instant, `span` and `other` of 64, and these may have a minus;
// micros is any number of 64 bits without one, and the rest are of 32.
use crate::fields::Fields;
use calendar::Date;
use instants::Instant;
use std::str;
use values::{DatetimeTz, Kind, NoSuchKind, Offset, Settings, Stamp, Time, Value};

// No case has a longer file.
const MOST_OCTETS: usize = 65_536;

const MOST_TO_READ: usize = 64;

const MOST_ROOM: usize = 48;

// For the octets of a case.
#[derive(Drop)]
pub struct Space {
    first: [u8; MOST_OCTETS],
    second: [u8; MOST_OCTETS],
}

// The reader of a kind, or the one of two kinds that finds out which.
#[derive(Clone, Copy)]
pub enum Reader {
    Of(Kind),
    DateOrDateTz,
    TimeOrTimeTz,
    DatetimeOrDatetimeTz,
}

// `lent` is the whole room to write in.
#[derive(Drop)]
pub enum Case<'a> {
    Write {
        kind: Kind,
        value: Value,
        settings: Settings,
        lent: &'a mut [u8],
    },
    Read(Reader, &'a [u8]),
    InstantOf(DatetimeTz),
    Sum(Instant, i64),
    Difference(Instant, Instant),
    StampAt(Instant, Offset),
    Restated(DatetimeTz, Offset),
    ReadFile(&'a [u8]),
    RecordAt(u32, &'a [u8]),
    Holds(Instant, u32, &'a [u8]),
    Over {
        instant: Instant,
        channel: u32,
        plan: &'a [u8],
        manual: &'a [u8],
    },
}

impl TryFrom<u32> for Reader {
    type Error = NoSuchKind;

    fn try_from(number: u32) -> Result<Reader, NoSuchKind> {
        match number {
            6 => Ok(Reader::DateOrDateTz),
            7 => Ok(Reader::TimeOrTimeTz),
            8 => Ok(Reader::DatetimeOrDatetimeTz),
            _ => Ok(Reader::Of(Kind::try_from(number)?)),
        }
    }
}

impl Space {
    pub fn new() -> Space {
        Space {
            first: [0; MOST_OCTETS],
            second: [0; MOST_OCTETS],
        }
    }
}

// ---- fields that belong together

impl Fields<'_> {
    fn date(&mut self) -> Option<Date> {
        Some(Date::new(self.number()?, self.number()?, self.number()?))
    }

    fn offset(&mut self) -> Option<Offset> {
        Some(Offset::new(self.number()?))
    }

    fn instant(&mut self) -> Option<Instant> {
        Some(Instant::new(self.number()?))
    }

    fn stamp(&mut self) -> Option<DatetimeTz> {
        Some(DatetimeTz {
            date: self.date()?,
            time: Time::new(self.number()?),
            offset: self.offset()?,
        })
    }

    fn flag(&mut self) -> Option<bool> {
        match self.number::<u32>()? {
            0 => Some(false),
            1 => Some(true),
            _ => None,
        }
    }

    fn settings(&mut self) -> Option<Settings> {
        Some(Settings::new(self.flag()?, self.number()?, self.number()?))
    }

    fn numbered<T: TryFrom<u32>>(&mut self) -> Option<T>
    where
        T::Error: Drop,
    {
        T::try_from(self.number()?).ok()
    }

    // The whole room that the case lends. What it has before the call is told apart from what is written.
    fn lent<'b>(&mut self, space: &'b mut [u8]) -> Option<&'b mut [u8]> {
        let room = self.number()?;
        let lent = space.get_mut(..MOST_ROOM)?.get_mut(..room)?;
        lent.fill(0x5A);
        Some(lent)
    }
}

// ---- cases

impl<'a> Case<'a> {
    // None where the line is no case.
    pub fn of(line: &[u8], space: &'a mut Space) -> Option<Case<'a>> {
        let mut fields = Fields::of(str::from_utf8(line).ok()?);
        let letter = fields.text()?;
        let Space { first, second } = space;
        let case = Case::by_letter(letter, &mut fields, first, second)?;
        if fields.text().is_some() {
            return None;
        }
        Some(case)
    }

    fn by_letter(
        letter: &str,
        fields: &mut Fields<'_>,
        first: &'a mut [u8],
        second: &'a mut [u8],
    ) -> Option<Case<'a>> {
        Some(match letter {
            "W" => Case::Write {
                kind: fields.numbered()?,
                value: fields.stamp()?.parts(),
                settings: fields.settings()?,
                lent: fields.lent(first)?,
            },
            "R" => Case::Read(
                fields.numbered()?,
                fields.octets(first.get_mut(..MOST_TO_READ)?)?,
            ),
            "I" => Case::InstantOf(fields.stamp()?),
            "A" => Case::Sum(fields.instant()?, fields.number()?),
            "D" => Case::Difference(fields.instant()?, fields.instant()?),
            "T" => Case::StampAt(fields.instant()?, fields.offset()?),
            "S" => Case::Restated(fields.stamp()?, fields.offset()?),
            "F" => Case::ReadFile(fields.octets(first)?),
            "P" => Case::RecordAt(fields.number()?, fields.octets(first)?),
            "Q" => Case::Holds(fields.instant()?, fields.number()?, fields.octets(first)?),
            "O" => Case::Over {
                instant: fields.instant()?,
                channel: fields.number()?,
                plan: fields.octets(first)?,
                manual: fields.octets(second)?,
            },
            _ => return None,
        })
    }
}
