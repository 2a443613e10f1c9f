//! `total`: the least total among the best costs.
ghost use Rattle.std.specs.Prelude.{◌≡◌, ◌⊎◌, ◌++◌, ◌∷◌, [], ◌≤◌, IfErr, IfOk, OnOk, codes};
ghost use Rattle.cost_base.specs.Decimal.{decimal};
ghost use Rattle.form_search.specs.AdvisorsAsked.{AreCalled};
ghost use Rattle.least_bound.specs.AdvisorsAsked.{AreAskedAnswering};
ghost use Rattle.wide_fraction.specs.SearchLimits.{limits_seen};
ghost use Rattle.design_problem.specs.Text.{row_line, spaced, text};
ghost use Rattle.text_lines.specs.Lines.{with_ends};
ghost use Rattle.printed_rows.specs.FittingTexts.{FitText};
ghost use Rattle.input_files.specs.Readings.{Gave};
ghost use Rattle.input_files.specs.Outcomes.{outcome};
ghost use Rattle.input_files.specs.Stops.{IsReadAs, files_named};
ghost use Rattle.report_writer.specs.Reports.{bytes_in};
ghost use Rattle.least_total.specs.declared.finding.Total.TheVariants.{Least, Undecided};
ghost use Rattle.design_commands.specs.Designs.{IsAnswerTo};
ghost use Rattle.design_commands.specs.Made.{ReportsAnswer};
ghost use Rattle.design_commands.specs.TotalRuns.{CanPrintProof, MayTotal, CanReport, ReportsFoundAs, ReportsTotal, TellsTotal, bound_lines, shown_lines, total_text};

use crate::design::{answer_to, or_stop, report_of_answer};
use cost_base::{OutOfMemory, Shelf, Status};
use cut_advisors::Advisor;
use design_problem::{Answer, CapTree, Problem, Row, Verdict};
use evidence_text::{TreePart, keeps_answer, push_evidence, text_of_answer};
use input_files::{FileWords, Stop, View, read_problem};
use least_total::{Total, TotalEvidence, least_total};
use line_builder::{push_count_line, push_line};
use report_writer::Report;
use std::alloc::Global;
use text_lines::push_bytes;
use wide_fraction::Limits;

/// The text up to the line of the total: the whole text of the answer stands in it.
fn begun_text(alloc: Global, answer: &Answer, total: u64) -> Result<Vec<u8>, OutOfMemory>
    ensures { IfOk result (λ bytes. bytes.items ≡ with_ends (codes "ospfcost total 1" ∷ []) ++
        text answer.now ++ with_ends (spaced (codes "total" ∷ decimal total ∷ []) ∷ [])) }
{
    let mut text = Vec::new(alloc);
    push_line(&mut text, b"ospfcost total 1")?;
    let inside = text_of_answer(alloc, answer)?;
    push_bytes(&mut text, &inside)?;
    push_count_line(alloc, &mut text, b"total", total)?;
    Ok(text)
}

/// Adds the lines that show that a total is the least.
fn push_proof(
    alloc: Global,
    text: &mut Vec<u8>,
    cap: u16,
    proof: TotalEvidence,
) -> Result<(), OutOfMemory>
    requires { CanPrintProof cap proof }
    ensures { OnOk result (text.new.items ≡ text.old.items ++ with_ends (shown_lines cap proof)) }
{
    match proof {
        TotalEvidence::Floor => push_line(text, b"floor total"),
        TotalEvidence::Tree { rows, tree } => {
            push_evidence(alloc, text, &rows, TreePart::Proof, &CapTree { cap, tree })
        }
    }
}

/// The text where no best costs have a smaller total.
fn least_text(
    alloc: Global,
    cap: u16,
    answer: &Answer,
    total: u64,
    proof: TotalEvidence,
) -> Result<Vec<u8>, OutOfMemory>
    requires { CanPrintProof cap proof }
    ensures { IfOk result (λ bytes. bytes.items ≡
        total_text (text answer.now) total (shown_lines cap proof)) }
{
    let mut text = begun_text(alloc, answer, total)?;
    push_proof(alloc, &mut text, cap, proof)?;
    push_line(&mut text, b"end")?;
    Ok(text)
}

/// The least total that was found, and the bound of it at which the budget was used up.
#[derive(Clone, Copy)]
struct TotalRange {
    total: u64,
    bound: u64,
}

/// The text where the budget was used up at a bound of the total.
fn undecided_text(
    alloc: Global,
    answer: &Answer,
    range: TotalRange,
    rows: &[Row],
    tree: &CapTree,
) -> Result<Vec<u8>, OutOfMemory>
    requires { FitText row_line tree.now.cap rows.now tree.now.tree }
    ensures { IfOk result (λ bytes. bytes.items ≡
        total_text (text answer.now) range.total (bound_lines range.bound rows.now tree.now)) }
{
    let mut text = begun_text(alloc, answer, range.total)?;
    push_count_line(alloc, &mut text, b"bound", range.bound)?;
    push_evidence(alloc, &mut text, rows, TreePart::Undecided, tree)?;
    push_line(&mut text, b"end")?;
    Ok(text)
}

/// The report where no best costs have a smaller total.
fn least_report(
    alloc: Global,
    cap: u16,
    answer: &Answer,
    total: u64,
    proof: TotalEvidence,
) -> Result<Report, OutOfMemory>
    requires { CanPrintProof cap proof }
    ensures { IfOk result (ReportsFoundAs cap (Least answer.now total proof)) }
{
    keeps_answer(answer);
    let text = least_text(alloc, cap, answer, total, proof)?;
    Ok(Report::made(Status::Done, text))
}

/// The report where the budget was used up at a bound of the total.
fn undecided_report(
    alloc: Global,
    answer: &Answer,
    range: TotalRange,
    rows: Vec<Row>,
    tree: CapTree,
) -> Result<Report, OutOfMemory>
    requires { FitText row_line tree.cap rows.items tree.tree }
    ensures { IfOk result (ReportsFoundAs tree.cap
        (Undecided answer.now range.total range.bound rows tree.tree)) }
{
    keeps_answer(answer);
    let text = undecided_text(alloc, answer, range, &rows, &tree)?;
    Ok(Report::made(Status::Undecided, text))
}

/// The report of what was found from a valid optimal answer of this greatest cost.
fn report_of_found(alloc: Global, cap: u16, found: Total) -> Result<Report, OutOfMemory>
    requires { CanReport cap found }
    ensures { IfOk result (ReportsFoundAs cap found) }
{
    match found {
        Total::Least {
            answer,
            total,
            proof,
        } => least_report(alloc, cap, &answer, total, proof),
        Total::Undecided {
            answer,
            total,
            bound,
            rows,
            tree,
        } => undecided_report(
            alloc,
            &answer,
            TotalRange { total, bound },
            rows,
            CapTree { cap, tree },
        ),
    }
}

/// The report of an answer to a problem: where it is optimal, that of the least total among the best costs.
fn report_of_total(
    alloc: Global,
    problem: &Problem,
    answer: Answer,
    limits: &Limits,
) -> Result<Report, OutOfMemory>
    requires { IsAnswerTo (limits_seen limits.now) problem.now answer }
    ensures { IfOk result (ReportsTotal (limits_seen limits.now) problem.now answer
        answer.verdict) }
{
    match answer.verdict {
        Verdict::Optimal(cap) => {
            let found = least_total(alloc, problem, answer, limits)?;
            report_of_found(alloc, cap, found)
        }
        Verdict::Impossible | Verdict::Undecided(_) => report_of_answer(alloc, &answer),
    }
}

/// The report of `total` for a problem.
fn total_of_problem(
    alloc: Global,
    problem: &Problem,
    limits: &Limits,
    advisors: &mut Vec<Box<dyn Advisor>>,
) -> Result<Report, OutOfMemory>
    // Always true: see `answer_to`.
    requires itself { problem.now ≡ problem.now }
    ensures made { IfOk result (ReportsAnswer (limits_seen limits.now) problem.now
        (AreAskedAnswering ⟦<dyn Advisor as Advisor>⟧ (λ b. b.vtable) (λ b. state b) problem.now
        limits.now.top limits.now.nodes advisors.old.items advisors.new.items)
        (λ a report. ReportsTotal (limits_seen limits.now) problem.now a a.verdict report)) }
    ensures advisors { AreCalled ⟦<dyn Advisor as Advisor>⟧ (λ b. b.vtable) (λ b. state b)
        advisors.old.items advisors.new.items }
{
    let answer = answer_to(alloc, problem, limits, advisors)?;
    report_of_total(alloc, problem, answer, limits)
}

/// The report of `total` from the files of words: best costs of the least total, or what a design finds in their place.
///
/// # Errors
///
/// `Stop`: a file failed or is too long, or the input has a fault; want of memory.
pub fn total_report<'a, S: Shelf>(
    alloc: Global,
    words: FileWords<'a>,
    limits: &Limits,
    shelf: &mut S,
    advisors: &mut Vec<Box<dyn Advisor>>,
) -> Result<Report, Stop<'a>>
    ensures read { Gave (S.gave shelf.old shelf.new) (λ came. IsReadAs
        (outcome View.AsRequested (files_named words.entry)) came
        (λ report d. MayTotal (limits_seen limits.now) d report.status (bytes_in report.text) ×
        TellsTotal (limits_seen limits.now) d.problem (AreAskedAnswering ⟦<dyn Advisor as Advisor>⟧
        (λ b. b.vtable) (λ b. state b) d.problem limits.now.top limits.now.nodes
        advisors.old.items advisors.new.items) (bytes_in report.text)) result) }

    // Where a file stopped it, no advisor was asked.
    ensures stopped { IfErr result (λ stop. (stop ≡ Stop.OutOfMemory) ⊎
        (advisors.new.items ≡ advisors.old.items)) }
    ensures advisors { AreCalled ⟦<dyn Advisor as Advisor>⟧ (λ b. b.vtable) (λ b. state b)
        advisors.old.items advisors.new.items }
{
    let problem = read_problem(alloc, View::AsRequested, words, shelf)?;
    or_stop(total_of_problem(alloc, &problem, limits, advisors))
}
