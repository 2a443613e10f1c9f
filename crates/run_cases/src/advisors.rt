//! Advisors of a case.

use cut_advisors::{Advisor, Candidate};
use design_problem::Entry;

/// An advisor of a case.
#[derive(Clone, Copy)]
pub enum CaseAdvisor {
    /// Always picks this position, be there such a candidate or not.
    Picks(u32),
    /// Picks the first candidate.
    SmallestNumber,
}

/// Always picks one position.
#[derive(Drop)]
pub struct Always {
    pub position: u32,
}

impl Advisor for Always {
    ghost use Rattle.std.specs.Prelude.{[], ◌∷◌, slice_index};

    ghost state = { λ advisor. advisor.position ∷ [] };

    ghost would = { λ state _. slice_index state 0 };

    ghost left = { λ state _. state };

    ghost after = { λ state _. state };

    fn pick(&mut self, _candidates: &[Candidate]) -> u32 {
        self.position
    }

    fn told(&mut self, _entry: &Entry) {}
}
