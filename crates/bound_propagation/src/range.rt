//! The range of one variable, and what a form leaves of it.
ghost use Rattle.std.specs.Prelude.{◌≡◌, ℕ, ◌+◌, ◌-◌, ◌*◌, ◌<◌, ◌≤◌, IfSome};
ghost use Rattle.bound_propagation.specs.Ranges.{IsExactBound, HasNoBound};

use design_problem::Side;

/// A new bound of a range, at its side.
#[derive(Clone, Copy)]
pub struct Bound {
    pub side: Side,
    pub value: u16,
}

/// How many steps a variable can go from the end of its range at which its term is greatest, so that the term loses at
/// most the slack. None where it can go to the other end.
pub fn allowed_steps(weight: u64, slack: u128, low: u16, high: u16) -> Option<u16>
    requires { 0 < weight }
    ensures within { IfSome result (λ steps. steps < high - low) }
    ensures allowed { IfSome result (λ steps. weight * steps ≤ slack) }
    ensures most { IfSome result (λ steps. slack < weight * (steps + 1)) }
    ensures none { result ≡ None → weight * (high - low) ≤ slack }
{
    let weight = u128::from(weight);
    if weight * u128::from(high.saturating_sub(low)) <= slack {
        return None;
    }
    Some((slack / weight) as u16)
}

/// The new bound that the form gives the variable: with a positive coefficient at the low side, with a negative one at
/// the high side. None where no part of the range is refuted.
pub fn exact_bound(coefficient: i64, slack: u128, low: u16, high: u16) -> Option<Bound>
    ensures exact { IfSome result (λ bound. IsExactBound coefficient slack low high bound.side
        bound.value) }
    ensures none { result ≡ None → HasNoBound coefficient slack low high }
{
    if coefficient == 0 {
        return None;
    }
    let steps = allowed_steps(coefficient.unsigned_abs(), slack, low, high)?;
    if coefficient > 0 {
        Some(Bound {
            side: Side::Low,
            value: high - steps,
        })
    } else {
        Some(Bound {
            side: Side::High,
            value: low + steps,
        })
    }
}
