//! `conflict`: a least conflict among the requests of the files of words.
ghost use Rattle.std.specs.Prelude.{◌≡◌, ◌⊎◌, ℕ, ◌≤◌, List, IfErr, IfOk};
ghost use Rattle.wide_fraction.specs.SearchLimits.{limits_seen};
ghost use Rattle.input_files.specs.Readings.{Gave};
ghost use Rattle.input_files.specs.Outcomes.{outcome};
ghost use Rattle.input_files.specs.Stops.{IsReadAs, files_named};
ghost use Rattle.report_writer.specs.Reports.{Reports, bytes_in};
ghost use Rattle.least_conflict.specs.AdvisorsAsked.{AreAskedFinding};
ghost use Rattle.least_conflict.specs.Conflicts.{IsConflictFound};
ghost use Rattle.form_search.specs.AdvisorsAsked.{AreCalled};
ghost use Rattle.path_commands.specs.Conflicts.{MayConflict, TellsConflict, conflict_text, conflict_status};

use crate::conflict_text::text_of_conflict;
use cost_base::{OutOfMemory, Shelf, Status};
use cut_advisors::Advisor;
use design_problem::Problem;
use input_files::{FileWords, Stop, View, read_problem};
use least_conflict::{Conflict, find_conflict};
use report_writer::Report;
use std::alloc::Global;
use wide_fraction::Limits;

/// The status of a run that prints this.
fn status_of(conflict: &Conflict) -> Status
    ensures { result ≡ conflict_status conflict.now }
{
    match conflict {
        Conflict::Fit { .. } | Conflict::Least { .. } => Status::Done,
        Conflict::Undecided { .. } => Status::Undecided,
    }
}

/// The report of what was found of a problem's requests.
fn report_of_conflict(
    alloc: Global,
    problem: &Problem,
    conflict: Conflict,
) -> Result<Report, OutOfMemory>
    requires { (top : ℕ) × (nodes : ℕ) × (nodes ≤ 10000000) × IsConflictFound problem.now top nodes
        conflict }
    ensures { IfOk result
        (Reports (conflict_status conflict) (conflict_text problem.now conflict)) }
{
    let status = status_of(&conflict);
    let text = text_of_conflict(alloc, problem, conflict)?;
    Ok(Report::made(status, text))
}

/// The report of `conflict` from the files of words: the text of what was found, with status 0 or, where the budget was
/// used up, 2.
///
/// # Errors
///
/// The first fault of the files, the file that failed, or want of memory.
pub fn conflict_report<'a, S: Shelf>(
    alloc: Global,
    words: FileWords<'a>,
    limits: &Limits,
    shelf: &mut S,
    advisors: &mut Vec<Box<dyn Advisor>>,
) -> Result<Report, Stop<'a>>
    // Always true: a function that hands on boxed advisors has to require something.
    requires itself { limits.now ≡ limits.now }
    ensures read { Gave (S.gave shelf.old shelf.new) (λ came. IsReadAs
        (outcome View.AsRequested (files_named words.entry)) came
        (λ report d. MayConflict (limits_seen limits.now) d report.status (bytes_in report.text) ×
        TellsConflict d.problem (AreAskedFinding ⟦<dyn Advisor as Advisor>⟧ (λ b. b.vtable)
        (λ b. state b) d.problem limits.now.top limits.now.nodes advisors.old.items
        advisors.new.items) (bytes_in report.text)) result) }

    // Where a file stopped it, no advisor was asked.
    ensures stopped { IfErr result (λ stop. (stop ≡ Stop.OutOfMemory) ⊎
        (advisors.new.items ≡ advisors.old.items)) }
    ensures advisors { AreCalled ⟦<dyn Advisor as Advisor>⟧ (λ b. b.vtable) (λ b. state b)
        advisors.old.items advisors.new.items }
{
    let problem = read_problem(alloc, View::AsRequested, words, shelf)?;
    let conflict = find_conflict(alloc, &problem, limits, advisors)?;
    let report = report_of_conflict(alloc, &problem, conflict);
    // For the prover alone: a call drops the problem, so that its parts' drops aren't written out at each exit.
    drop(problem);
    Ok(report?)
}
