//! Lines of a script that ask advisors.

use case_scripts::next_number;
use cut_advisors::{Advisor, Candidate, SmallestNumber, WidestFirst, choose, tell};
use design_problem::Entry;
use std::alloc::{AllocError, Global};

/// Picks 0 at its first call, and 4000 from then on.
#[derive(Drop)]
struct TurnsBad {
    bad: bool,
}

impl Advisor for TurnsBad {
    ghost use Rattle.std.specs.Prelude.{[], ◌∷◌, if◌then◌else◌, ◌==◌, length};

    ghost state = { λ advisor. if advisor.bad then 1 ∷ [] else [] };

    ghost would = { λ state _. if length state == 0 then 0 else 4000 };

    ghost left = { λ _ _. 1 ∷ [] };

    ghost after = { λ state _. state };

    fn pick(&mut self, _candidates: &[Candidate]) -> u32 {
        if self.bad {
            4000
        } else {
            self.bad = true;
            0
        }
    }

    fn told(&mut self, _entry: &Entry) {}
}

/// Picks the number of entries that it was told, and a number before them.
#[derive(Drop)]
struct Counts {
    told: u32,
}

impl Advisor for Counts {
    ghost use Rattle.std.specs.Prelude.{[], ◌∷◌, ◌+◌, slice_index, min};
    ghost use Rattle.std.specs.Prelude.{◌^◌, ◌-◌};

    ghost state = { λ advisor. advisor.told ∷ [] };

    ghost would = { λ state _. slice_index state 0 };

    ghost left = { λ state _. slice_index state 0 ∷ [] };

    ghost after = { λ state _. min (slice_index state 0 + 1) (2 ^ 32 - 1) ∷ [] };

    fn pick(&mut self, _candidates: &[Candidate]) -> u32 {
        self.told
    }

    fn told(&mut self, _entry: &Entry) {
        self.told = self.told.saturating_add(1);
    }
}

/// A candidate of a range. The search stands between its ends.
fn candidate(var: u32, low: u16, high: u16) -> Candidate {
    Candidate {
        var,
        floor: low,
        low,
        high,
    }
}

/// What advisors choose in so many calls, over the ranges 1 to 4, 1 to 9 and 2 to 10.
fn chosen_text(
    alloc: Global,
    calls: u32,
    advisors: &mut Vec<Box<dyn Advisor>>,
) -> Result<String, AllocError> {
    let candidates = [candidate(0, 1, 4), candidate(3, 1, 9), candidate(4, 2, 10)];
    let mut text = String::from_str(alloc, ":")?;
    for _ in 0..calls {
        let picked = choose(advisors, &candidates);
        write!(text, " {picked} of {} left", advisors.len())?;
    }
    Ok(text)
}

/// `choose TOLD CALLS ADVISOR ..`: tells advisors so many entries, and asks them so often over the ranges 1 to 4, 1 to
/// 9 and 2 to 10. An advisor is `widest`, `smallest`, `turns` or a number that it adds to what it was told.
pub(crate) fn choose_text(alloc: Global, rest: &str) -> Result<String, AllocError> {
    let mut words = rest.split_whitespace();
    let told = next_number(&mut words);
    let calls = next_number(&mut words);
    let mut advisors: Vec<Box<dyn Advisor>> = Vec::new(alloc);
    for word in words {
        match word {
            "widest" => advisors.push(Box::new(alloc, WidestFirst)?)?,
            "smallest" => advisors.push(Box::new(alloc, SmallestNumber)?)?,
            "turns" => advisors.push(Box::new(alloc, TurnsBad { bad: false })?)?,
            _ => {
                let told = word.parse::<u32>().unwrap_or(0);
                advisors.push(Box::new(alloc, Counts { told })?)?;
            }
        }
    }
    for _ in 0..told {
        tell(&mut advisors, &Entry::Undone);
    }
    chosen_text(alloc, calls, &mut advisors)
}
