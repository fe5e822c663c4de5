// The C boundary: each call of `boundary` under its own name for C, with the same clauses. A slice is a pointer and a length to C: `uint8_t *octets, size_t room`.
// An array is a pointer to so many numbers.
#![tactic(auto)]

ghost use Rattle.boundary.specs.Boundary.{WritesNumbered, ReadsNumbered};
ghost use Rattle.boundary.specs.Utc.{InstantForC, AddForC, DifferenceForC, AtForC, RestateForC};
ghost use Rattle.boundary.specs.Files.{ReadForC, RecordForC, HoldsForC, OverForC};

#[unsafe(no_mangle)]
pub extern "C" fn stamp_write(
    kind: u32,
    year: u32,
    month: u32,
    day: u32,
    micros: u64,
    offset: i32,
    binary: bool,
    version: u32,
    digits: u32,
    octets: &mut [u8],
    count: &mut usize,
) -> u32
    ensures { WritesNumbered kind (record { binary = binary; version = version; digits = digits }) (record { date = record { year = year; month = month; day = day }; micros = micros; offset = offset }) octets.old result count.new octets.new }
{
    boundary::stamp_write(
        kind, year, month, day, micros, offset, binary, version, digits, octets, count,
    )
}

#[unsafe(no_mangle)]
pub extern "C" fn stamp_read(kind: u32, octets: &[u8], parts: &mut [i64; 8]) -> u32
    ensures { ReadsNumbered kind octets.now parts.old result parts.new }
{
    boundary::stamp_read(kind, octets, parts)
}

// ---- UTC instants

#[unsafe(no_mangle)]
pub extern "C" fn stamp_instant(
    year: u32,
    month: u32,
    day: u32,
    micros: u64,
    offset: i32,
    instant: &mut i64,
) -> u32
    ensures { InstantForC (record { date = record { year = year; month = month; day = day }; micros = micros; offset = offset }) instant.old result instant.new }
{
    boundary::stamp_instant(year, month, day, micros, offset, instant)
}

#[unsafe(no_mangle)]
pub extern "C" fn stamp_add(instant: i64, micros: i64, sum: &mut i64) -> u32
    ensures { AddForC instant micros sum.old result sum.new }
{
    boundary::stamp_add(instant, micros, sum)
}

#[unsafe(no_mangle)]
pub extern "C" fn stamp_difference(a: i64, b: i64, difference: &mut i64) -> u32
    ensures { DifferenceForC a b difference.old result difference.new }
{
    boundary::stamp_difference(a, b, difference)
}

#[unsafe(no_mangle)]
pub extern "C" fn stamp_at(instant: i64, offset: i32, parts: &mut [i64; 5]) -> u32
    ensures { AtForC instant offset parts.old result parts.new }
{
    boundary::stamp_at(instant, offset, parts)
}

#[unsafe(no_mangle)]
pub extern "C" fn stamp_restate(
    year: u32,
    month: u32,
    day: u32,
    micros: u64,
    offset: i32,
    to: i32,
    parts: &mut [i64; 5],
) -> u32
    ensures { RestateForC (record { date = record { year = year; month = month; day = day }; micros = micros; offset = offset }) to parts.old result parts.new }
{
    boundary::stamp_restate(year, month, day, micros, offset, to, parts)
}

// ---- schedule files

#[unsafe(no_mangle)]
pub extern "C" fn stamp_schedule_read(file: &[u8], records: &mut u32, fault: &mut u32) -> u32
    ensures { ReadForC file.now result records.new fault.new }
{
    boundary::stamp_schedule_read(file, records, fault)
}

#[unsafe(no_mangle)]
pub extern "C" fn stamp_schedule_record(file: &[u8], place: u32, parts: &mut [i64; 5]) -> u32
    ensures { RecordForC file.now place parts.old result parts.new }
{
    boundary::stamp_schedule_record(file, place, parts)
}

#[unsafe(no_mangle)]
pub extern "C" fn stamp_schedule_holds(
    file: &[u8],
    instant: i64,
    channel: u32,
    read: &mut u32,
    parts: &mut [i64; 5],
) -> u32
    ensures { HoldsForC file.now instant channel parts.old result read.new parts.new }
{
    boundary::stamp_schedule_holds(file, instant, channel, read, parts)
}

#[unsafe(no_mangle)]
pub extern "C" fn stamp_schedule_over(
    plan: &[u8],
    manual: &[u8],
    instant: i64,
    channel: u32,
    part: &mut [usize; 2],
) -> u32
    ensures { OverForC plan.now manual.now instant channel result part.new }
{
    boundary::stamp_schedule_over(plan, manual, instant, channel, part)
}
