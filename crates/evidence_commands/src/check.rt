//! `check`: whether an answer's file is that of a valid answer to the problem of the files of words.
ghost use Rattle.std.specs.Prelude.{◌≡◌, ℕ, ◌≤◌, List, IfOk, length};
ghost use Rattle.input_files.specs.Readings.{Gave};
ghost use Rattle.input_files.specs.Outcomes.{longest_answer};
ghost use Rattle.input_files.specs.Stops.{IsReadAs, files_named};
ghost use Rattle.report_writer.specs.Reports.{bytes_in};
ghost use Rattle.evidence_commands.specs.Checks.{IsJudged, IsTextOf, MayCheck, ReportsJudgement, claim_read, claim_with};

use crate::verdict_lines::accepted_line_of;
use cost_base::{OutOfMemory, Shelf, Status};
use design_problem::{Answer, Problem};
use evidence_checker::{Accepted, check};
use evidence_reader::read_answer;
use evidence_text::keeps_answer;
use input_files::{FileWords, Stop, View, read_answer_file, read_problem};
use report_writer::{Rejection, Report, rejection_of};
use std::alloc::Global;

/// What a check of an answer's file comes to.
#[derive(Clone, Copy, Debug, PartialEq, Eq)]
pub(crate) enum Judgement {
    /// The text is that of a valid answer.
    Accepted(Accepted),
    /// The text is off the grammar, or the answer isn't valid.
    Rejected(Rejection),
}

/// What a check of an answer to a problem comes to.
fn judge_answer(alloc: Global, problem: &Problem, answer: &Answer) -> Result<Judgement, OutOfMemory>
    ensures { (bytes : List ℕ) → IsTextOf bytes answer.now → IfOk result
        (IsJudged (record { problem = problem.now; bytes = bytes })) }
{
    match check(alloc, problem, answer) {
        Ok(accepted) => Ok(Judgement::Accepted(accepted)),
        Err(stop) => Ok(Judgement::Rejected(rejection_of(stop)?)),
    }
}

/// What a check of the text of an answer to a problem comes to.
fn judge(alloc: Global, problem: &Problem, bytes: &[u8]) -> Result<Judgement, OutOfMemory>
    requires { length bytes.now ≤ longest_answer }
    ensures { IfOk result (IsJudged (record { problem = problem.now; bytes = bytes.now })) }
{
    match read_answer(alloc, bytes) {
        Ok(answer) => {
            keeps_answer(&answer);
            judge_answer(alloc, problem, &answer)
        }
        Err(stop) => Ok(Judgement::Rejected(rejection_of(stop)?)),
    }
}

/// What a check of an answer's file comes to, where the problem was read.
fn check_file<'a, S: Shelf>(
    alloc: Global,
    problem: &Problem,
    answer: &'a str,
    shelf: &mut S,
) -> Result<Judgement, Stop<'a>>
    ensures { Gave (S.gave shelf.old shelf.new) (λ came. IsReadAs
        (claim_with problem.now answer.now) came (λ judgement claim. IsJudged claim judgement)
        result) }
{
    let bytes = read_answer_file(alloc, shelf, answer)?;
    Ok(judge(alloc, problem, &bytes)?)
}

/// What a check of an answer's file comes to, after the files of words.
fn check_files<'a, S: Shelf>(
    alloc: Global,
    words: FileWords<'a>,
    answer: &'a str,
    shelf: &mut S,
) -> Result<Judgement, Stop<'a>>
    ensures { Gave (S.gave shelf.old shelf.new) (λ came. IsReadAs
        (claim_read (files_named words.entry) answer.now) came
        (λ judgement claim. IsJudged claim judgement) result) }
{
    let problem = read_problem(alloc, View::AsRequested, words, shelf)?;
    check_file(alloc, &problem, answer, shelf)
}

/// The report of what a check came to.
fn report_of_judgement(alloc: Global, judgement: Judgement) -> Result<Report, OutOfMemory>
    ensures { IfOk result (ReportsJudgement judgement) }
{
    match judgement {
        Judgement::Accepted(accepted) => {
            let text = accepted_line_of(alloc, accepted)?;
            Ok(Report::made(Status::Done, text))
        }
        Judgement::Rejected(rejection) => Report::rejected(alloc, rejection),
    }
}

/// The report of a check of an answer's file, after the files of words: what was accepted, or why it is refused.
///
/// # Errors
///
/// `Stop`: a file failed or is too long, or the input has a fault; want of memory.
pub fn check_report<'a, S: Shelf>(
    alloc: Global,
    words: FileWords<'a>,
    answer: &'a str,
    shelf: &mut S,
) -> Result<Report, Stop<'a>>
    ensures { Gave (S.gave shelf.old shelf.new) (λ came. IsReadAs
        (claim_read (files_named words.entry) answer.now) came
        (λ report claim. MayCheck claim report.status (bytes_in report.text)) result) }
{
    let judgement = check_files(alloc, words, answer, shelf)?;
    Ok(report_of_judgement(alloc, judgement)?)
}
