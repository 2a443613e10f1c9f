//! The advisor that picks the greatest range, with how it finds it.
ghost use Rattle.std.specs.Prelude.{◌≡◌, ◌==◌, max, position};
ghost use Rattle.cut_advisors.specs.Widths.{first_widest, countable, greatest_width, width};

use crate::{Advisor, Candidate};
use design_problem::Entry;

/// Picks the candidate of the greatest range, the first of equals. It has no state.
#[derive(Drop)]
pub struct WidestFirst;

impl Advisor for WidestFirst {
    ghost use Rattle.std.specs.Prelude.{[]};
    ghost use Rattle.cut_advisors.specs.Widths.{first_widest, countable};

    ghost state = { λ _. [] };

    ghost would = { λ _ candidates. first_widest (countable candidates) };

    ghost left = { λ _ _. [] };

    ghost after = { λ _ _. [] };

    fn pick(&mut self, candidates: &[Candidate]) -> u32 {
        first_widest(candidates)
    }

    fn told(&mut self, _entry: &Entry) {}
}

/// The greatest width of the candidates, 0 with none.
fn greatest_width(candidates: &[Candidate]) -> u16
    ensures { result ≡ greatest_width candidates.now }
{
    candidates
        .iter()
        .fold(0, |greatest, candidate| wider(greatest, candidate))
}

/// The greater of the number and the candidate's width.
fn wider(greatest: u16, candidate: &Candidate) -> u16
    ensures { result ≡ max greatest (width candidate.now) }
{
    // For the prover alone: a candidate's low is at most its high, so nothing saturates; no clause says so here.
    let width = candidate.high.saturating_sub(candidate.low);
    if greatest < width { width } else { greatest }
}

/// The position of the first candidate of the greatest width.
fn first_widest(candidates: &[Candidate]) -> u32
    ensures { result ≡ first_widest (countable candidates.now) }
{
    let counted = countable(candidates);
    first_of_width(counted, greatest_width(counted)).unwrap_or(0) as u32
}

/// The position of the first candidate of this width.
fn first_of_width(candidates: &[Candidate], wanted: u16) -> Option<usize>
    ensures { result ≡ position (λ candidate. width candidate == wanted) candidates.now }
{
    // Nothing saturates: see `wider`.
    candidates.iter().position(|candidate| candidate.high.saturating_sub(candidate.low) == wanted)
}

/// The candidates whose positions are numbers of 32 bits.
fn countable(candidates: &[Candidate]) -> &[Candidate]
    ensures { result.now ≡ countable candidates.now }
{
    if candidates.len() <= 1 << 32 {
        candidates
    } else {
        &candidates[..1 << 32]
    }
}
