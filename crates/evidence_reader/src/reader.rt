//! Reading the text of an answer.
ghost use Rattle.std.specs.Prelude.{◌≡◌, ◌-◌, ◌^◌, ◌<◌, IfOk, IfErr, length};
ghost use Rattle.design_problem.specs.Text.{text};
ghost use Rattle.evidence_reader.specs.Refusals.{IsReaderStop};
ghost use Rattle.answer_lines.specs.Grammar.{AtHead};

use crate::fault::AnswerFault;
use crate::stage_costs::read_costs;
use crate::stage_end::read_end;
use crate::stage_head::read_head;
use crate::stage_rows::read_rows;
use crate::stage_trees::read_tree;
use answer_lines::TextLeft;
use cost_base::{Listed, Refusal};
use design_problem::Answer;
use evidence_text::TreePart;
use std::alloc::Global;

/// The answer whose text this is.
///
/// # Errors
///
/// - `Refused` where the text is no answer's, with the first line that is at fault.
/// - `OutOfMemory` where a growth was refused.
pub fn read_answer(alloc: Global, bytes: &[u8]) -> Result<Answer, Refusal<AnswerFault>>
    requires { length bytes.now < 2 ^ 32 - 1 }
    ensures read { IfOk result (λ answer. bytes.now ≡ text answer) }
    ensures stopped { IfErr result (IsReaderStop AtHead 0 bytes.now) }
{
    let text = TextLeft::new(bytes);
    let (verdict, behind_head) = read_head(text)?;
    let (priced, behind_costs) = read_costs(alloc, behind_head)?;
    let (rows, behind_rows) = read_rows(alloc, behind_costs)?;
    let (proof, behind_proof) = read_tree(alloc, TreePart::Proof, behind_rows)?;
    let (undecided, behind_trees) = read_tree(alloc, TreePart::Undecided, behind_proof)?;
    read_end(behind_trees)?;
    Ok(Answer {
        verdict,
        costs: priced.costs,
        floor: priced.floor,
        rows: Listed::from_items(rows),
        proof,
        undecided,
    })
}
