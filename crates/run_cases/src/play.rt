//! A run of a case, compared with what it is to come to.

use crate::advisors::{Always, CaseAdvisor};
use crate::case::{Case, Wanted};
use cost_base::{MemoryShelf, MemorySink, Shelf, Sink, Status, SureShelf, SureSink};
use cut_advisors::{Advisor, SmallestNumber};
use designer_command::run;
use std::alloc::{AllocError, Global};
use std::mem;

/// How many bytes a sink has room for.
const ROOM: usize = 4096;

/// The line of a text that has this number, counted from 1, with its LF; nothing past its lines.
fn line_at(text: &[u8], number: usize) -> &[u8] {
    let mut lines = text.split_inclusive(|byte| *byte == b'\n');
    lines.nth(number.saturating_sub(1)).unwrap_or(&[])
}

/// The number of the first line at which two texts differ, counted from 1.
fn first_difference(got: &[u8], wanted: &[u8]) -> usize {
    let mut number = 1usize;
    for (byte, other) in got.iter().zip(wanted) {
        if byte != other {
            break;
        }
        if *byte == b'\n' {
            number = number.saturating_add(1);
        }
    }
    number
}

/// What differs from what is wanted, or None.
fn difference(
    alloc: Global,
    status: Status,
    got: &[u8],
    wanted: &Wanted,
) -> Result<Option<String>, AllocError> {
    let number = usize::from(status.number());
    let due = wanted.status;
    if got == wanted.output.as_slice() {
        if number == due {
            return Ok(None);
        }
        return Ok(Some(format!(in alloc; "status {number}, wanted {due}")?));
    }
    let line = first_difference(got, &wanted.output);
    let was = line_at(got, line).escape_ascii();
    let aim = line_at(&wanted.output, line).escape_ascii();
    let told = format!(in alloc;
        "status {number}, wanted {due}; line {line} is `{was}`, wanted `{aim}`"
    )?;
    Ok(Some(told))
}

/// What differs in the number of advisors that are left, or else in what was written.
fn difference_with(
    alloc: Global,
    left: usize,
    status: Status,
    got: &[u8],
    wanted: &Wanted,
) -> Result<Option<String>, AllocError> {
    let due = wanted.advisors_left;
    if left == due {
        return difference(alloc, status, got, wanted);
    }
    Ok(Some(format!(in alloc; "{left} advisors are left, wanted {due}")?))
}

/// Runs the words of a case over a shelf and into a sink, and tells how the run ended and how many advisors are left.
fn run_case<S: Shelf, K: Sink>(
    alloc: Global,
    case: &Case,
    shelf: &mut S,
    sink: &mut K,
) -> Result<(Status, usize), AllocError> {
    let mut advisors: Vec<Box<dyn Advisor>> = Vec::new(alloc);
    for advisor in case.advisors.as_slice() {
        match *advisor {
            CaseAdvisor::Picks(position) => advisors.push(Box::new(alloc, Always { position })?)?,
            CaseAdvisor::SmallestNumber => advisors.push(Box::new(alloc, SmallestNumber)?)?,
        }
    }
    let status = run(alloc, &case.words, shelf, sink, &mut advisors);
    Ok((status, advisors.len()))
}

/// Runs a case into a sink that never fails, and tells what differs from what is wanted, or None.
fn play_surely(
    alloc: Global,
    case: &Case,
    shelf: &mut SureShelf,
) -> Result<Option<String>, AllocError> {
    let Ok(mut sink) = SureSink::new(alloc, ROOM) else {
        return Err(AllocError);
    };
    let (status, left) = run_case(alloc, case, shelf, &mut sink)?;
    difference_with(alloc, left, status, sink.got(), &case.wanted)
}

/// Runs a case into a sink that fails where the case says, and tells what differs from what is wanted, or None.
fn play_failing(
    alloc: Global,
    case: &mut Case,
    shelf: &mut MemoryShelf,
) -> Result<Option<String>, AllocError> {
    let failing_puts = mem::replace(&mut case.failing_puts, Vec::new(alloc));
    let Ok(mut sink) = MemorySink::new(alloc, ROOM, failing_puts) else {
        return Err(AllocError);
    };
    let (status, left) = run_case(alloc, case, shelf, &mut sink)?;
    difference_with(alloc, left, status, sink.got(), &case.wanted)
}

/// Runs the words of a case over its files, which the shelf takes, and tells what differs from what is wanted, or None.
fn play(alloc: Global, case: &mut Case) -> Result<Option<String>, AllocError> {
    let files = mem::replace(&mut case.files, Vec::new(alloc));
    if case.is_sure {
        let mut shelf = SureShelf::new(files);
        return play_surely(alloc, case, &mut shelf);
    }
    let failing_takes = mem::replace(&mut case.failing_takes, Vec::new(alloc));
    let mut shelf = MemoryShelf::new(files, failing_takes);
    play_failing(alloc, case, &mut shelf)
}

/// Plays a run, and adds what differs to a text, under the run's label. The case's files and failing calls are used up.
pub(crate) fn play_as(
    alloc: Global,
    told: &mut String,
    label: &str,
    case: &mut Case,
) -> Result<(), AllocError> {
    match play(alloc, case)? {
        Some(difference) => told.push_str(format!(in alloc; " {label}: {difference};")?.as_str()),
        None => Ok(()),
    }
}
