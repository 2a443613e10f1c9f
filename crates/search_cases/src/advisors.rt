//! Advisors of a script.

use cut_advisors::{Advisor, Candidate};
use design_problem::Entry;

/// Picks the first candidate in so many calls, and then one position, be there such a candidate or not.
#[derive(Drop)]
pub struct Turns {
    calls: u32,
    position: u32,
}

impl Advisor for Turns {
    ghost use Rattle.std.specs.Prelude.{[], ◌∷◌, ◌-◌, ◌==◌, if◌then◌else◌, slice_index};

    ghost state = { λ advisor. advisor.calls ∷ advisor.position ∷ [] };

    ghost would = { λ state _. if slice_index state 0 == 0 then slice_index state 1 else 0 };

    ghost left = { λ state _. (slice_index state 0 - 1) ∷ slice_index state 1 ∷ [] };

    ghost after = { λ state _. state };

    fn pick(&mut self, _candidates: &[Candidate]) -> u32 {
        if self.calls == 0 {
            return self.position;
        }
        self.calls -= 1;
        0
    }

    fn told(&mut self, _entry: &Entry) {}
}

/// The advisor of a number: it always picks that position; of -N the first candidate in N calls and then position 4000.
pub(crate) fn advisor_of(number: i64) -> Turns {
    match u32::try_from(number) {
        Ok(position) => Turns { calls: 0, position },
        Err(_) => Turns {
            calls: u32::try_from(number.unsigned_abs()).unwrap_or(0),
            position: 4000,
        },
    }
}
