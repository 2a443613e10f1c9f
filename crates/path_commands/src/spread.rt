//! `spread`: traffic over exactly the wanted paths, in the sets that a file says.
ghost use Rattle.std.specs.Prelude.{◌≡◌, ℕ, List, IfOk};
ghost use Rattle.wide_fraction.specs.SearchLimits.{limits_seen};
ghost use Rattle.input_files.specs.Inputs.{InputFiles};
ghost use Rattle.input_files.specs.Outcomes.{Input};
ghost use Rattle.input_files.specs.Readings.{Gave};
ghost use Rattle.input_files.specs.Stops.{IsReadAs, files_named};
ghost use Rattle.report_writer.specs.Reports.{Reports, bytes_in};
ghost use Rattle.spread_sets.specs.Answers.{IsSpreadFound};
ghost use Rattle.set_reader.specs.SpreadSets.{AreSetsOf};
ghost use Rattle.path_commands.specs.SetFiles.{sets_read, spread_read};
ghost use Rattle.path_commands.specs.Spreads.{MaySpread, spread_text, spread_status};
ghost use Rattle.path_commands.specs.SpreadsMade.{IsProblemAsked, ReportsSpread};

use crate::sets_file::read_sets_file;
use crate::spread_text::text_of_spread;
use cost_base::{OutOfMemory, Shelf, Status};
use design_problem::Problem;
use input_files::{FileWords, Stop, View, read_problem};
use printed_parts::keeps_greatest_bound;
use report_writer::Report;
use set_reader::Sets;
use spread_sets::{Spread, find_spread};
use std::alloc::Global;
use wide_fraction::Limits;

/// The status of a run that prints this.
fn status_of(spread: &Spread) -> Status
    ensures { result ≡ spread_status spread.now }
{
    match spread {
        Spread::Fit(..) => Status::Done,
        Spread::Impossible { .. } => Status::Impossible,
        Spread::Undecided { .. } => Status::Undecided,
    }
}

/// The report of what was found for sets of a problem's wanted paths.
fn report_of_spread(alloc: Global, problem: &Problem, spread: Spread) -> Result<Report, OutOfMemory>
    requires { (lines : List (List ℕ)) × (top : ℕ) × (nodes : ℕ) ×
        IsSpreadFound problem.now lines top nodes spread }
    ensures { IfOk result (Reports (spread_status spread) (spread_text problem.now spread)) }
{
    let status = status_of(&spread);
    let text = text_of_spread(alloc, problem, spread)?;
    Ok(Report::made(status, text))
}

/// The report of what is found for these sets of a problem's wanted paths.
fn report_of_sets(
    alloc: Global,
    problem: &Problem,
    sets: &Sets,
    limits: &Limits,
) -> Result<Report, OutOfMemory>
    requires { AreSetsOf problem.now sets.now }
    ensures { IfOk result (ReportsSpread (limits_seen limits.now) problem.now sets.now) }
{
    let spread = find_spread(alloc, problem, sets, limits)?;
    keeps_greatest_bound(problem);
    report_of_spread(alloc, problem, spread)
}

/// The report of what is found for the sets that a file says, read after a problem.
fn report_by_file<'a, S: Shelf>(
    alloc: Global,
    problem: &Problem,
    sets: &'a str,
    limits: &Limits,
    shelf: &mut S,
) -> Result<Report, Stop<'a>>
    ensures { (names : InputFiles) → (d : Input) → IsProblemAsked names problem.now d →
        Gave (S.gave shelf.old shelf.new) (λ came. IsReadAs (sets_read sets.now d) came
        (λ report sharing. MaySpread (limits_seen limits.now) sharing report.status
        (bytes_in report.text)) result) }
{
    let sets = read_sets_file(alloc, shelf, sets, problem)?;
    let report = report_of_sets(alloc, problem, &sets, limits);
    // For the prover alone: a call drops the sets, so that their drops aren't written out at each exit.
    drop(sets);
    Ok(report?)
}

/// The report of `spread` from the files of words, and from the file of sets, which is read after them: the text of
/// what was found, with status 0, 1 or, where the budget was used up, 2.
///
/// # Errors
///
/// The first fault of the files, the file that failed, or want of memory.
pub fn spread_report<'a, S: Shelf>(
    alloc: Global,
    words: FileWords<'a>,
    sets: &'a str,
    limits: &Limits,
    shelf: &mut S,
) -> Result<Report, Stop<'a>>
    ensures { Gave (S.gave shelf.old shelf.new) (λ came. IsReadAs
        (spread_read (files_named words.entry) sets.now) came
        (λ report sharing. MaySpread (limits_seen limits.now) sharing report.status
        (bytes_in report.text)) result) }
{
    let problem = read_problem(alloc, View::AsRequested, words, shelf)?;
    let report = report_by_file(alloc, &problem, sets, limits, shelf);
    // For the prover alone: a call drops the problem, so that its parts' drops aren't written out at each exit.
    drop(problem);
    report
}
