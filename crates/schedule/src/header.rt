// The header, and the two regions that it says.
ghost use Rattle.std.specs.Prelude.{◌≡◌, true};
ghost use Rattle.format.specs.Octets.{Octets};
ghost use Rattle.card.specs.Header.{twelve, header_good, count_of, stamp_octets, stamps_start};

use crate::MOST_RECORDS;

// Where the records start.
pub(crate) const RECORDS: usize = 16;

// The octets of a record.
pub(crate) const RECORD: usize = 12;

// A file whose header is right, and what that says: the number of records, where the stamp octets start in the file, and how many there are.
#[derive(Clone, Copy)]
pub(crate) struct Card<'a> {
    pub file: &'a [u8],
    pub records: u32,
    pub stamps: usize,
    pub octets: usize,
    ghost in_octets: { Octets file.now },
    ghost good: { header_good twelve file.now ≡ true },
    ghost counted: { records ≡ count_of file.now },
    ghost follow: { stamps ≡ stamps_start twelve file.now },
    ghost many: { octets ≡ stamp_octets file.now },
}

impl<'a> Card<'a> {
    ghost use Rattle.schedule.specs.Steps.{HeaderRead};

    // None where the header is bad. The sums are of 64 bits, and what is added has 32: none wraps.
    pub(crate) fn read(file: &'a [u8]) -> Option<Card<'a>>
        ensures { HeaderRead file.now result }
    {
        if file.len() < RECORDS {
            return None;
        }
        let records = octets::take4(file, 0);
        if MOST_RECORDS < records {
            return None;
        }
        if octets::take4(file, 4) as usize != RECORDS {
            return None;
        }
        let stamps = RECORDS + RECORD * records as usize;
        if octets::take4(file, 12) as usize != stamps {
            return None;
        }
        let octets = octets::take4(file, 8) as usize;
        if stamps + octets != file.len() {
            return None;
        }
        if records == 0 {
            if octets != 0 {
                return None;
            }
        }
        Some(Card {
            file,
            records,
            stamps,
            octets,
        })
    }
}
