//! `trial`: a made network, designed.
ghost use Rattle.std.specs.Prelude.{◌≡◌, ◌⊎◌, ◌≤◌, ◌<◌, ◌^◌, ◌++◌, ℕ, List, IfErr, IfOk, codes, length};
ghost use Rattle.std.specs.List.{sum};
ghost use Rattle.cost_base.specs.Decimal.{decimal};
ghost use Rattle.wide_fraction.specs.SearchLimits.{limits_seen};
ghost use Rattle.design_problem.specs.Text.{text};
ghost use Rattle.design_problem.specs.GivenCosts.{costs_given};
ghost use Rattle.form_search.specs.AdvisorsAsked.{AreCalled};
ghost use Rattle.least_bound.specs.AdvisorsAsked.{AreAskedAnswering};
ghost use Rattle.input_files.specs.Readings.{Gave};
ghost use Rattle.input_files.specs.Outcomes.{Input, outcome};
ghost use Rattle.input_files.specs.Stops.{IsReadAs, files_named};
ghost use Rattle.report_writer.specs.Reports.{Reports, bytes_in};
ghost use Rattle.trial_maker.specs.TrialTexts.{made_trial};
ghost use Rattle.design_commands.specs.AdvisorsAsked.{AsksAt};
ghost use Rattle.design_commands.specs.Designs.{IsAnswerTo, verdict_status};
ghost use Rattle.design_commands.specs.Made.{ReportsAnswer, ReportsTrial};
ghost use Rattle.design_commands.specs.Trials.{MayTrial, MayTry, TellsTrial, costless_line, summary_line, trial_end, trial_limits, trial_text};

use crate::cost_sum::total_of;
use crate::design::{answer_to, or_stop, status_of};
use crate::trial_files::{REQUEST, shelf_of, words_of};
use crate::trial_line::{TrialNumbers, best_line, costless_line};
use cost_base::{OutOfMemory, Shelf, Status};
use cut_advisors::Advisor;
use design_problem::{Answer, CostLine, Problem, Verdict, lines_in};
use evidence_text::text_of_answer;
use input_files::{FileWords, Stop, View, read_problem};
use report_writer::{Report, report_of};
use std::alloc::Global;
use text_lines::push_bytes;
use trial_maker::{TrialTexts, make_trial};
use wide_fraction::{Limits, Top};

/// The limits of a trial: a budget of 100,000 entries, and numbers of 127 bits.
fn trial_limits() -> Limits
    ensures { limits_seen result ≡ trial_limits }
{
    let top = Top::new(127).unwrap();
    Limits::new(100_000, top).unwrap()
}

/// The report of a trial without best costs: the summary line, and the answer's text behind it.
fn costless_report(
    alloc: Global,
    trial: TrialNumbers,
    verdict: &[u8],
    answer: &Answer,
) -> Result<Report, OutOfMemory>
    requires { trial.blocks ≤ 125 }
    ensures { IfOk result (Reports (verdict_status answer.now.verdict)
        (costless_line trial.blocks trial.start verdict.now ++ text answer.now)) }
{
    let mut text = costless_line(alloc, trial, verdict)?;
    let behind = text_of_answer(alloc, answer)?;
    push_bytes(&mut text, &behind)?;
    Ok(Report::made(status_of(answer.verdict), text))
}

/// The report of a trial with best costs of this greatest cost: the summary line.
fn best_report(
    alloc: Global,
    trial: TrialNumbers,
    problem: &Problem,
    greatest: u16,
    lines: &[CostLine],
) -> Result<Report, OutOfMemory>
    requires few { trial.blocks ≤ 125 }
    requires lines { length problem.now.vars ≡ length lines.now }
    ensures { IfOk result
        (Reports Status.Done (summary_line trial.blocks trial.start (codes "optimal")
        (decimal greatest) (decimal (sum (costs_given problem.now lines.now))))) }
{
    let total = total_of(alloc, problem, lines)?;
    let line = best_line(alloc, trial, greatest, total)?;
    Ok(Report::made(Status::Done, line))
}

/// The report of a trial by the answer to its problem.
fn report_of_trial(
    alloc: Global,
    trial: TrialNumbers,
    problem: &Problem,
    answer: &Answer,
) -> Result<Report, OutOfMemory>
    requires few { trial.blocks ≤ 125 }
    requires answered { IsAnswerTo trial_limits problem.now answer.now }
    ensures tries { IfOk result (λ report. (d : Input) → d.problem ≡ problem.now →
        MayTry trial.blocks trial.start d report.status (bytes_in report.text)) }
    ensures text { IfOk result (λ report. bytes_in report.text ≡ trial_text trial.blocks trial.start
        problem.now answer.now answer.now.verdict) }
{
    match answer.verdict {
        Verdict::Optimal(greatest) => {
            best_report(alloc, trial, problem, greatest, lines_in(&answer.costs))
        }
        Verdict::Impossible => costless_report(alloc, trial, b"impossible", answer),
        Verdict::Undecided(_) => costless_report(alloc, trial, b"undecided", answer),
    }
}

/// The report of a trial for its problem.
fn trial_of_problem(
    alloc: Global,
    trial: TrialNumbers,
    problem: &Problem,
    advisors: &mut Vec<Box<dyn Advisor>>,
) -> Result<Report, OutOfMemory>
    requires { trial.blocks ≤ 125 }
    ensures made { IfOk result (ReportsAnswer trial_limits problem.now
        (AreAskedAnswering ⟦<dyn Advisor as Advisor>⟧ (λ b. b.vtable) (λ b. state b) problem.now
        trial_limits.top trial_limits.nodes advisors.old.items advisors.new.items)
        (ReportsTrial trial.blocks trial.start problem.now)) }
    ensures advisors { AreCalled ⟦<dyn Advisor as Advisor>⟧ (λ b. b.vtable) (λ b. state b)
        advisors.old.items advisors.new.items }
{
    let answer = answer_to(alloc, problem, &trial_limits(), advisors)?;
    report_of_trial(alloc, trial, problem, &answer)
}

/// The report of a trial whose texts stand on a shelf.
fn report_on_texts<'a, S: Shelf>(
    alloc: Global,
    trial: TrialNumbers,
    words: FileWords<'a>,
    shelf: &mut S,
    advisors: &mut Vec<Box<dyn Advisor>>,
) -> Result<Report, Stop<'a>>
    requires { trial.blocks ≤ 125 }
    ensures read { Gave (S.gave shelf.old shelf.new) (λ came. IsReadAs
        (outcome View.AsRequested (files_named words.entry)) came
        (λ report d. MayTry trial.blocks trial.start d report.status (bytes_in report.text) ×
        TellsTrial trial.blocks trial.start d.problem (AreAskedAnswering
        ⟦<dyn Advisor as Advisor>⟧ (λ b. b.vtable) (λ b. state b) d.problem trial_limits.top
        trial_limits.nodes advisors.old.items advisors.new.items) (bytes_in report.text)) result) }
    ensures stopped { IfErr result (λ stop. (stop ≡ Stop.OutOfMemory) ⊎
        (advisors.new.items ≡ advisors.old.items)) }
    ensures advisors { AreCalled ⟦<dyn Advisor as Advisor>⟧ (λ b. b.vtable) (λ b. state b)
        advisors.old.items advisors.new.items }
{
    let problem = read_problem(alloc, View::AsRequested, words, shelf)?;
    or_stop(trial_of_problem(alloc, trial, &problem, advisors))
}

/// The report of a trial of these texts.
fn report_of_texts(
    alloc: Global,
    trial: TrialNumbers,
    made: &TrialTexts,
    advisors: &mut Vec<Box<dyn Advisor>>,
) -> Result<Report, OutOfMemory>
    requires few { trial.blocks ≤ 125 }
    requires made { made.now ≡ made_trial trial.blocks trial.start }
    ensures tried { IfOk result (λ report. MayTrial trial.blocks trial.start report.status
        (bytes_in report.text)) }
    ensures asked { IfOk result (λ report. AsksAt
        (λ d. TellsTrial trial.blocks trial.start d.problem (AreAskedAnswering
        ⟦<dyn Advisor as Advisor>⟧ (λ b. b.vtable) (λ b. state b) d.problem trial_limits.top
        trial_limits.nodes advisors.old.items advisors.new.items) (bytes_in report.text))
        (advisors.new.items ≡ advisors.old.items)
        (trial_end (made_trial trial.blocks trial.start))) }
    ensures advisors { AreCalled ⟦<dyn Advisor as Advisor>⟧ (λ b. b.vtable) (λ b. state b)
        advisors.old.items advisors.new.items }
{
    let configs = words_of(alloc, made.names.as_slice())?;
    let mut shelf = shelf_of(alloc, made)?;
    let words = FileWords {
        request: REQUEST,
        configs: configs.as_slice(),
    };
    report_of(
        alloc,
        report_on_texts(alloc, trial, words, &mut shelf, advisors),
    )
}

/// The report of a trial. No file is read: the made texts stand on a shelf of their own.
///
/// # Errors
///
/// `OutOfMemory`.
pub fn trial_report(
    alloc: Global,
    trial: TrialNumbers,
    advisors: &mut Vec<Box<dyn Advisor>>,
) -> Result<Report, OutOfMemory>
    // The numbers are those that the words of `trial` may say.
    requires some { 1 ≤ trial.blocks }
    requires most { trial.blocks ≤ 125 }
    requires start { trial.start < 2 ^ 31 }

    // The report is one of the made texts.
    ensures tried { IfOk result (λ report. MayTrial trial.blocks trial.start report.status
        (bytes_in report.text)) }

    // The advisors are asked where the made texts have no fault.
    ensures asked { IfOk result (λ report. AsksAt
        (λ d. TellsTrial trial.blocks trial.start d.problem (AreAskedAnswering
        ⟦<dyn Advisor as Advisor>⟧ (λ b. b.vtable) (λ b. state b) d.problem trial_limits.top
        trial_limits.nodes advisors.old.items advisors.new.items) (bytes_in report.text))
        (advisors.new.items ≡ advisors.old.items)
        (trial_end (made_trial trial.blocks trial.start))) }
    ensures advisors { AreCalled ⟦<dyn Advisor as Advisor>⟧ (λ b. b.vtable) (λ b. state b)
        advisors.old.items advisors.new.items }
{
    let made = make_trial(alloc, trial.blocks, trial.start)?;
    report_of_texts(alloc, trial, &made, advisors)
}
