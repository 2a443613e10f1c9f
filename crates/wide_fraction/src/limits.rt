//! Widths of whole numbers, and the limits of a search.
ghost use Rattle.std.specs.Prelude.{◌≡◌, ℕ, ◌-◌, ◌^◌, ◌<◌, ◌≤◌, pos, MatchOption, ◌⊎◌};
ghost use Rattle.wide_fraction.specs.Widths.{IsTop};

use std::marker::Model;

/// The greatest size of a whole number: 2^bits - 1. Contracts see the number.
#[derive(Clone, Copy, Debug, PartialEq, Eq)]
pub struct Top {
    value: i128,
}

impl Model for Top {
    ghost use Rattle.std.specs.Prelude.{ℕ, ◌≡◌, ℤ, pos, nat_abs};
    ghost use Rattle.wide_fraction.specs.Widths.{IsTop};

    ghost Value = { ℕ };

    ghost view = { λ t. nat_abs t.value };

    ghost invariant = { λ t. (t.value ≡ pos (nat_abs t.value)) × IsTop (nat_abs t.value) };

    ghost inverse = { λ n. record { value = pos n } };

    ghost use Rattle.std.proofs.Common.{sym, ap};

    ghost inverse_ok = { λ a h. ap (λ (z : ℤ). record { value = z }) (sym h.0) };
}

impl Top {
    /// The greatest number of `bits` bits. None exactly where `bits` isn't from 28 to 127.
    pub fn new(bits: u32) -> Option<Top>
        ensures { MatchOption result ((bits < 28) ⊎ (127 < bits))
            (λ top. (28 ≤ bits) × (bits ≤ 127) × (top ≡ 2 ^ bits - 1)) }
    {
        if bits < 28 {
            None
        } else if 127 < bits {
            None
        } else {
            Some(Top {
                value: ((1u128 << bits) - 1) as i128,
            })
        }
    }

    /// The number itself.
    pub fn value(&self) -> i128
        ensures value { result ≡ pos self.now }
        ensures width { IsTop self.now }
    {
        self.value
    }

    /// The number itself, as a size.
    pub fn size(self) -> u128
        ensures value { result ≡ self }
        ensures within { result < 2 ^ 127 }
    {
        self.value as u128
    }
}

/// A budget of tree entries, from 1 to 10,000,000, and a width.
#[derive(Clone, Copy, Debug, PartialEq, Eq)]
pub struct Limits {
    /// How many entries a tree may have.
    pub nodes: u64,
    /// The greatest size of a whole number in exact reasoning.
    pub top: Top,
    ghost budget: { 1 ≤ nodes },
    ghost budget_end: { nodes ≤ 10000000 },
}

impl Limits {
    /// The two limits together. None exactly where `nodes` isn't from 1 to 10,000,000.
    pub fn new(nodes: u64, top: Top) -> Option<Limits>
        ensures { MatchOption result ((nodes < 1) ⊎ (10000000 < nodes))
            (λ limits. (1 ≤ nodes) × (nodes ≤ 10000000) × (limits.nodes ≡ nodes) ×
            (limits.top ≡ top)) }
    {
        if nodes < 1 || 10_000_000 < nodes {
            None
        } else {
            Some(Limits { nodes, top })
        }
    }
}
