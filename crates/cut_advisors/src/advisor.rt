//! Advisors.
use crate::Candidate;
use design_problem::Entry;

/// Picks the variable at which a box is cut.
///
/// Its meanings are `state`, a list of numbers, and three functions of the state: `would`, the position that `pick`
/// answers; `left`, the state that `pick` leaves; and `after`, the state that `told` leaves.
pub trait Advisor: Drop {
    ghost use Rattle.std.specs.Prelude.{◌≡◌, ℕ, List};
    ghost use Rattle.design_problem.specs.declared.tree.Entry.{Entry};
    ghost use Rattle.cut_advisors.specs.declared.candidate.Candidate.{Candidate};

    ghost state: { Self → List ℕ };

    ghost would: { List ℕ → List Candidate → ℕ };

    ghost left: { List ℕ → List Candidate → List ℕ };

    ghost after: { List ℕ → Entry → List ℕ };

    /// The position among the candidates of the one that the advisor picks. Any number may come.
    fn pick(&mut self, candidates: &[Candidate]) -> u32
        ensures answer { result ≡ would (state self.old) candidates.now }
        ensures state { state self.new ≡ left (state self.old) candidates.now };

    /// Is told an entry that was added to the tree.
    fn told(&mut self, entry: &Entry)
        ensures { state self.new ≡ after (state self.old) entry.now };
}
