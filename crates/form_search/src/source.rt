//! Sources of forms.
ghost use Rattle.std.specs.Prelude.{◌≡◌, IfOk, OnOk, IsTrue, ◌↔◌};
ghost use Rattle.design_problem.specs.Forms.{AreMet};
ghost use Rattle.form_search.specs.Sources.{Grows, IsSourceAnswer, IsCostPoint, SameFor, SameSource};

use crate::FormPool;
use area_graph::Point;
use cost_base::OutOfMemory;

/// What a source answers at a point.
#[derive(Clone, Copy, Debug, PartialEq, Eq)]
pub enum Asked {
    /// The point is accepted.
    Nothing,
    /// It isn't, and forms that are true came into the pool, one of which is new and negative at the point.
    Added,
}

/// Accepts some points, and knows forms that are at least 0 at each of them.
///
/// Its meanings are `count`, the number of its variables; `accepted`, the points that it accepts; `true_form`, the
/// forms that are true of them; `in_step`, the pools with which its own lists are in step; and `possible_forms`, a list
/// in which each true form stands, so there are finitely many.
pub trait FormSource {
    ghost use Rattle.std.specs.Prelude.{◌≡◌, ℕ, ◌*◌, ◌<◌, List, map, Contains};
    ghost use Rattle.area_graph.specs.declared.Point.{Point};
    ghost use Rattle.area_graph.specs.Costs.{at_costs};
    ghost use Rattle.design_problem.specs.Forms.{Form};
    ghost use Rattle.form_search.specs.Sources.{IsTrueForm, scaled};

    ghost count: { Self → ℕ };

    ghost accepted: { Self → Point → Type 0 };

    ghost true_form: { Self → Form → Type 0 };

    ghost in_step: { Self → List Form → Type 0 };

    ghost possible_forms: { Self → List Form };

    /// The number of variables.
    fn variables(&self) -> u32
        ensures { result ≡ count self.now };

    /// Whether the point is accepted. Where it isn't, true forms are added at the pool's end, at least one of which is
    /// negative at the point and wasn't in the pool.
    ///
    /// # Errors
    ///
    /// `OutOfMemory`. Then too only true forms were added.
    fn ask(&mut self, point: &Point, pool: &mut FormPool) -> Result<Asked, OutOfMemory>
        // The point is one of costs, and no form of the pool is negative there.
        requires in_step { in_step self.old pool.old }
        requires point { IsCostPoint (count self.old) point.now }
        requires met { AreMet pool.old point.now }

        // Nothing comes exactly where the point is accepted, and what comes are true forms.
        ensures answer { IfOk result (λ asked. IsSourceAnswer (accepted self.old) point.now pool.old
            pool.new asked) }
        ensures grows { Grows (true_form self.old) pool.old pool.new }

        // The source accepts the same points, and on success it is in step with the pool.
        ensures in_step { OnOk result (in_step self.new pool.new) }
        ensures same { SameSource count accepted true_form possible_forms self.old self.new };

    /// Whether the point is accepted. Forms of the pool may be negative there. No form is added, and no
    /// memory is taken.
    fn accepts(&mut self, point: &Point) -> bool
        requires point { IsCostPoint (count self.old) point.now }
        ensures answer { IsTrue result ↔ accepted self.old point.now }
        ensures in_step { SameFor (in_step self.old) (in_step self.new) }
        ensures same { SameSource count accepted true_form possible_forms self.old self.new };

    ghost true_forms_hold: { (s : Self) (form : Form) → true_form s form →
        IsTrueForm (count s) (accepted s) form };

    ghost true_forms_listed: { (s : Self) (form : Form) → true_form s form →
        Contains (possible_forms s) form };

    ghost scale_is_free: { (s : Self) (w : List ℕ) (scale : ℕ) → 0 < scale →
        accepted s (scaled w scale) → accepted s (at_costs w) };
}
