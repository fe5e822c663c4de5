// Answers a file of cases, for a comparison with another program: a case on each line of standard input, its answer on a line of
// standard output. `cases` says how a case is written, `answers` how its answer is; a line that is no case is answered `?`.
#![tactic(auto)]

use crate::cases::{Case, Space};
use crate::line::Line;
use std::fmt::Write;
use std::io::{ErrorKind, Input, Read};
use std::{fmt, io};

mod answers;
mod cases;
mod fields;
mod line;

// All cases are held at once, so many octets at most.
const MOST_OCTETS: usize = 4_194_303;

fn answer(line: &mut Line, case: &[u8], space: &mut Space) -> fmt::Result {
    match Case::of(case, space) {
        Some(case) => answers::write_answer(line, case),
        None => line.write_str("?"),
    }
}

// A line that has no room, which none is, ends the answers with an error.
fn print_answer(
    to: &mut impl io::Write,
    line: &mut Line,
    case: &[u8],
    space: &mut Space,
) -> io::Result<()> {
    line.clear();
    if answer(line, case, space).is_err() || line.write_str("\n").is_err() {
        return Err(ErrorKind::WriteZero.into());
    }
    to.write_all(line.written())
}

fn answer_all(rt: &impl Print, cases: &[u8]) -> io::Result<()> {
    let mut to = io::writer(rt);
    let mut line = Line::new();
    let mut space = Space::new();
    for case in cases.split_inclusive(|octet| *octet == b'\n') {
        let case = case.strip_suffix(b"\n").unwrap_or(case);
        print_answer(&mut to, &mut line, case, &mut space)?;
    }
    Ok(())
}

// All that is to be read; an error of the kind `WriteZero` where it has no room. What is left of the space is never more than the space: that the
// difference stays at 0 is for the proof.
fn read_all<'a>(from: &mut impl Read, space: &'a mut [u8]) -> io::Result<&'a [u8]> {
    let mut rest = &mut *space;
    io::copy(from, &mut rest)?;
    let left = rest.len();
    Ok(&space[..space.len().saturating_sub(left)])
}

// Takes the array by its type, which says its length: in `main` a proof would have to count its zeros.
fn answer_in(rt: &(impl Input + Print), space: &mut [u8; MOST_OCTETS]) -> io::Result<()> {
    match read_all(&mut rt.reader(), space) {
        Ok(cases) => answer_all(rt, cases),
        Err(e) if e.kind() == ErrorKind::WriteZero => println!(rt; "the cases have no room"),
        Err(e) => Err(e),
    }
}

fn main(rt: HostRuntime) -> io::Result<()> {
    let mut space = [0u8; MOST_OCTETS];
    answer_in(&rt, &mut space)
}
