//! Reading the costs of a text.
ghost use Rattle.std.specs.Prelude.{◌≡◌, ◌-◌, ◌^◌, ◌<◌, Some, IfOk, IfErr, MatchResult, length};
ghost use Rattle.evidence_reader.specs.Refusals.{IsReaderStop};
ghost use Rattle.answer_lines.specs.Grammar.{AtHead, AtOtherHead};
ghost use Rattle.sections_reader.specs.Texts as texts;
ghost use Rattle.sections_reader.specs.Texts.{IsSaidByAnswer, IsSaidByOther, SaysCosts, start_of_bytes};

use crate::costs::read_other_costs;
use crate::heads::read_top;
use crate::unread::pass_unread;
use crate::whose_text::text_of_bytes;
use answer_lines::{OtherText, TextLeft};
use cost_base::{Listed, Refusal};
use design_problem::{CostLine, Costs};
use evidence_reader::{AnswerFault, read_answer};
use evidence_text::keeps_answer;
use std::alloc::Global;

/// The cost lines of a text, in their order; None where it has no costs. A text whose first line is the head of what
/// `total`, `spread` or `change` writes is read up to the end of its sections, and passed unread from there to its last
/// line `end`; any other text is read whole, as an answer's.
///
/// # Errors
///
/// - `Refused` where a line that is read is off the grammar, the text ends before its last line `end`, or something
///   stands behind that.
/// - `OutOfMemory` where a growth was refused.
pub fn read_costs(
    alloc: Global,
    bytes: &[u8],
) -> Result<Option<Listed<CostLine>>, Refusal<AnswerFault>>
    requires { length bytes.now < 2 ^ 32 - 1 }
    ensures read { IfOk result (λ costs. SaysCosts bytes.now costs) }
    ensures stopped { IfErr result (IsReaderStop (start_of_bytes bytes.now) 0 bytes.now) }
{
    match text_of_bytes(bytes) {
        Some(of) => read_other(alloc, bytes, of),
        None => read_own(alloc, bytes),
    }
}

/// The cost lines of an answer's text.
fn read_own(alloc: Global, bytes: &[u8]) -> Result<Option<Listed<CostLine>>, Refusal<AnswerFault>>
    requires { length bytes.now < 2 ^ 32 - 1 }
    ensures { MatchResult result (λ costs. IsSaidByAnswer bytes.now costs)
        (IsReaderStop AtHead 0 bytes.now) }
{
    let answer = read_answer(alloc, bytes)?;
    keeps_answer(&answer);
    Ok(lines_of_costs(answer.costs))
}

/// The cost lines of an answer, where it has costs.
fn lines_of_costs(costs: Option<Costs>) -> Option<Listed<CostLine>>
    ensures { result ≡ texts.lines_of_costs costs }
{
    match costs {
        Some(costs) => Some(costs.lines),
        None => None,
    }
}

/// The cost lines of another text.
fn read_other(
    alloc: Global,
    bytes: &[u8],
    of: OtherText,
) -> Result<Option<Listed<CostLine>>, Refusal<AnswerFault>>
    requires { length bytes.now < 2 ^ 32 - 1 }
    ensures { MatchResult result (λ costs. IsSaidByOther of bytes.now costs)
        (IsReaderStop (AtOtherHead of) 0 bytes.now) }
{
    let behind_top = read_top(TextLeft::new(bytes), of)?;
    let (costs, behind_costs) = read_other_costs(alloc, behind_top, of)?;
    pass_unread(behind_costs, of)?;
    Ok(costs)
}
