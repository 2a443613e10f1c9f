//! The summary line of a trial.
ghost use Rattle.std.specs.Prelude.{◌≡◌, [], ◌∷◌, ◌++◌, ◌≤◌, IfOk, OnOk, codes};
ghost use Rattle.cost_base.specs.Decimal.{decimal};
ghost use Rattle.design_problem.specs.Text.{spaced};
ghost use Rattle.line_builder.specs.Words.{with_words};
ghost use Rattle.design_commands.specs.Trials.{costless_line, summary_line, trial_words};

use cost_base::OutOfMemory;
use line_builder::LineBuilder;
use std::alloc::Global;

/// What makes a trial: how many blocks it has, 1 to 125, and the number from which the sides of the blocks are chosen.
#[derive(Clone, Copy)]
pub struct TrialNumbers {
    /// How many blocks there are.
    pub blocks: u32,
    /// The number from which the sides are chosen.
    pub start: u32,
}

/// Adds a word and a number.
fn push_field(line: &mut LineBuilder, word: &[u8], number: u32) -> Result<(), OutOfMemory>
    ensures { OnOk result (line.new ≡ line.old ++ 32 ∷ word.now ++ 32 ∷ decimal number) }
{
    line.word(word)?;
    line.number(u128::from(number))
}

/// The first part of the summary line: what the trial is made of, and how large it is.
fn trial_part(alloc: Global, trial: TrialNumbers) -> Result<LineBuilder, OutOfMemory>
    requires { trial.blocks ≤ 125 }
    ensures { IfOk result (λ line. line ≡ spaced (trial_words trial.blocks trial.start)) }
{
    let mut line = LineBuilder::new(alloc, b"trial")?;
    push_field(&mut line, b"blocks", trial.blocks)?;
    push_field(&mut line, b"start", trial.start)?;
    push_field(&mut line, b"routers", 3 * trial.blocks + 1)?;
    push_field(&mut line, b"interfaces", 8 * trial.blocks)?;
    push_field(&mut line, b"requests", trial.blocks + 1)?;
    Ok(line)
}

/// The summary line of a trial up to the greatest cost.
fn line_of_verdict(
    alloc: Global,
    trial: TrialNumbers,
    verdict: &[u8],
) -> Result<LineBuilder, OutOfMemory>
    requires { trial.blocks ≤ 125 }
    ensures { IfOk result (λ line. line ≡ with_words (spaced (trial_words trial.blocks trial.start))
        (codes "verdict" ∷ verdict.now ∷ codes "greatest" ∷ [])) }
{
    let mut line = trial_part(alloc, trial)?;
    line.word(b"verdict")?;
    line.word(verdict)?;
    line.word(b"greatest")?;
    Ok(line)
}

/// The summary line of a trial whose best costs have this greatest cost and this total, with its LF.
pub(crate) fn best_line(
    alloc: Global,
    trial: TrialNumbers,
    greatest: u16,
    total: u128,
) -> Result<Vec<u8>, OutOfMemory>
    requires { trial.blocks ≤ 125 }
    ensures { IfOk result (λ line. line.items ≡ summary_line trial.blocks trial.start
        (codes "optimal") (decimal greatest) (decimal total)) }
{
    let mut line = line_of_verdict(alloc, trial, b"optimal")?;
    line.number(u128::from(greatest))?;
    line.word(b"total")?;
    line.number(total)?;
    line.ended()
}

/// The summary line of a trial without best costs, with its LF.
pub(crate) fn costless_line(
    alloc: Global,
    trial: TrialNumbers,
    verdict: &[u8],
) -> Result<Vec<u8>, OutOfMemory>
    requires { trial.blocks ≤ 125 }
    ensures { IfOk result (λ line. line.items ≡ costless_line trial.blocks trial.start
        verdict.now) }
{
    let mut line = line_of_verdict(alloc, trial, verdict)?;
    line.word(b"none")?;
    line.word(b"total")?;
    line.word(b"none")?;
    line.ended()
}
