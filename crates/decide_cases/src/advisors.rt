//! An advisor that counts what it is told.

use cut_advisors::{Advisor, Candidate};
use design_problem::Entry;

/// Picks the first of fewer than 100 candidates; of 100 or more the position that is the number of entries that
/// it was told.
#[derive(Drop)]
pub struct Counting {
    pub told: u32,
}

impl Advisor for Counting {
    ghost use Rattle.std.specs.Prelude.{[], ◌∷◌, ◌+◌, ◌-◌, ◌^◌, if◌then◌else◌, length, min, nat_le, slice_index};

    ghost state = { λ advisor. advisor.told ∷ [] };

    ghost would = { λ state candidates.
        if nat_le 100 (length candidates) then slice_index state 0 else 0 };

    ghost left = { λ state _. state };

    ghost after = { λ state _. min (slice_index state 0 + 1) (2 ^ 32 - 1) ∷ [] };

    fn pick(&mut self, candidates: &[Candidate]) -> u32 {
        if 100 <= candidates.len() {
            self.told
        } else {
            0
        }
    }

    fn told(&mut self, _entry: &Entry) {
        self.told = self.told.saturating_add(1);
    }
}
