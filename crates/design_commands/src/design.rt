//! `design`: an answer to the files of words.
ghost use Rattle.std.specs.Prelude.{◌≡◌, ◌⊎◌, ℕ, List, IfErr, IfOk};
ghost use Rattle.wide_fraction.specs.SearchLimits.{limits_seen};
ghost use Rattle.design_problem.specs.Text.{text};
ghost use Rattle.form_search.specs.AdvisorsAsked.{AreCalled};
ghost use Rattle.least_bound.specs.AdvisorsAsked.{AreAskedAnswering};
ghost use Rattle.input_files.specs.Readings.{Gave};
ghost use Rattle.input_files.specs.Outcomes.{outcome};
ghost use Rattle.input_files.specs.Stops.{IsReadAs, files_named};
ghost use Rattle.report_writer.specs.Reports.{Reports, bytes_in};
ghost use Rattle.design_commands.specs.AdvisorsAsked.{TellsAnswer};
ghost use Rattle.design_commands.specs.Designs.{IsAnswerTo, verdict_status, MayDesign};
ghost use Rattle.design_commands.specs.Made.{ReportsAnswer, ReportsDesign};
ghost use Rattle.design_commands.specs.Made as definition;

use cost_base::{OutOfMemory, Shelf, Status};
use cut_advisors::Advisor;
use design_problem::{Answer, Problem, Verdict};
use evidence_text::{keeps_answer, text_of_answer};
use input_files::{FileWords, Stop, View, read_problem};
use least_bound::least;
use report_writer::Report;
use std::alloc::Global;
use wide_fraction::Limits;

/// The status of a run that prints an answer with this verdict.
pub(crate) fn status_of(verdict: Verdict) -> Status
    ensures { result ≡ verdict_status verdict }
{
    match verdict {
        Verdict::Optimal(_) => Status::Done,
        Verdict::Impossible => Status::Impossible,
        Verdict::Undecided(_) => Status::Undecided,
    }
}

/// The report of an answer: its text.
pub(crate) fn report_of_answer(alloc: Global, answer: &Answer) -> Result<Report, OutOfMemory>
    ensures { IfOk result (Reports (verdict_status answer.now.verdict) (text answer.now)) }
{
    let text = text_of_answer(alloc, answer)?;
    Ok(Report::made(status_of(answer.verdict), text))
}

/// An answer to a problem, of which it is kept for the prover that both are values of their types.
pub(crate) fn answer_to(
    alloc: Global,
    problem: &Problem,
    limits: &Limits,
    advisors: &mut Vec<Box<dyn Advisor>>,
) -> Result<Answer, OutOfMemory>
    // Always true: a function that hands on boxed advisors has to require something.
    requires itself { problem.now ≡ problem.now }
    ensures answered { IfOk result (IsAnswerTo (limits_seen limits.now) problem.now) }
    ensures asked { IfOk result (AreAskedAnswering ⟦<dyn Advisor as Advisor>⟧ (λ b. b.vtable)
        (λ b. state b) problem.now limits.now.top limits.now.nodes
        advisors.old.items advisors.new.items) }
    ensures advisors { AreCalled ⟦<dyn Advisor as Advisor>⟧ (λ b. b.vtable) (λ b. state b)
        advisors.old.items advisors.new.items }
{
    problem.keeps_conditions();
    let answer = least(alloc, problem, limits, advisors)?;
    keeps_answer(&answer);
    Ok(answer)
}

/// What was made, or the stop of want of memory.
pub(crate) fn or_stop<'a>(made: Result<Report, OutOfMemory>) -> Result<Report, Stop<'a>>
    ensures { result ≡ definition.or_stop made }
{
    match made {
        Ok(report) => Ok(report),
        Err(OutOfMemory) => Err(Stop::OutOfMemory),
    }
}

/// The report of a design for a problem.
fn report_of_design(
    alloc: Global,
    problem: &Problem,
    limits: &Limits,
    advisors: &mut Vec<Box<dyn Advisor>>,
) -> Result<Report, OutOfMemory>
    // Always true: see `answer_to`.
    requires itself { problem.now ≡ problem.now }
    ensures made { IfOk result (ReportsAnswer (limits_seen limits.now) problem.now
        (AreAskedAnswering ⟦<dyn Advisor as Advisor>⟧ (λ b. b.vtable) (λ b. state b) problem.now
        limits.now.top limits.now.nodes advisors.old.items advisors.new.items) ReportsDesign) }
    ensures advisors { AreCalled ⟦<dyn Advisor as Advisor>⟧ (λ b. b.vtable) (λ b. state b)
        advisors.old.items advisors.new.items }
{
    let answer = answer_to(alloc, problem, limits, advisors)?;
    report_of_answer(alloc, &answer)
}

/// The report of a design from the files of words: the text of an answer.
///
/// # Errors
///
/// `Stop`: a file failed or is too long, or the input has a fault; want of memory.
pub fn design_report<'a, S: Shelf>(
    alloc: Global,
    words: FileWords<'a>,
    limits: &Limits,
    shelf: &mut S,
    advisors: &mut Vec<Box<dyn Advisor>>,
) -> Result<Report, Stop<'a>>
    ensures read { Gave (S.gave shelf.old shelf.new)
        (λ came. IsReadAs (outcome View.AsRequested (files_named words.entry)) came
        (λ report d. MayDesign (limits_seen limits.now) d report.status (bytes_in report.text) ×
        TellsAnswer (AreAskedAnswering ⟦<dyn Advisor as Advisor>⟧ (λ b. b.vtable) (λ b. state b)
        d.problem limits.now.top limits.now.nodes
        advisors.old.items advisors.new.items) (bytes_in report.text)) result) }

    // Where a file stopped it, no advisor was asked.
    ensures stopped { IfErr result (λ stop. (stop ≡ Stop.OutOfMemory) ⊎
        (advisors.new.items ≡ advisors.old.items)) }
    ensures advisors { AreCalled ⟦<dyn Advisor as Advisor>⟧ (λ b. b.vtable) (λ b. state b)
        advisors.old.items advisors.new.items }
{
    let problem = read_problem(alloc, View::AsRequested, words, shelf)?;
    or_stop(report_of_design(alloc, &problem, limits, advisors))
}
