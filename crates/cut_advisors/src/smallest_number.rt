//! The advisor that picks the first candidate.

use crate::{Advisor, Candidate};
use design_problem::Entry;

/// Picks the first candidate, which is the one of the smallest number where they come in order. It has no state.
#[derive(Drop)]
pub struct SmallestNumber;

impl Advisor for SmallestNumber {
    ghost use Rattle.std.specs.Prelude.{[]};

    ghost state = { λ _. [] };

    ghost would = { λ _ _. 0 };

    ghost left = { λ _ _. [] };

    ghost after = { λ _ _. [] };

    fn pick(&mut self, _candidates: &[Candidate]) -> u32 {
        0
    }

    fn told(&mut self, _entry: &Entry) {}
}
