//! Branching trees.
ghost use Rattle.std.specs.Prelude.{◌≡◌, ℕ, ◌<◌, All, AllPairs};
ghost use Rattle.design_problem.specs.Trees.{IsSingleTree};

use cost_base::{Listed, Ratio, StepName};
use std::marker::Model;

/// An end of a range.
#[derive(Clone, Copy, Debug, PartialEq, Eq)]
pub enum Side {
    /// The least cost of the range.
    Low,
    /// The greatest one.
    High,
}

/// A form of a basis: `Low(variable, value)` is x - value, `High(variable, value)` is value - x, and `Row` is the form
/// of the row of that number.
#[derive(Clone, Copy, Debug, PartialEq, Eq)]
pub enum Member {
    Low(u32, u16),
    High(u32, u16),
    Row(u64),
}

/// A step of the arithmetic of fractions that needed a wider number, with the basis at which it was taken.
#[derive(Drop)]
pub struct WideAt {
    pub step: StepName,
    /// The step's first fraction, in lowest terms.
    pub left: Ratio,
    /// Its second fraction.
    pub right: Ratio,
    /// The basis at which the step was taken.
    pub basis: Listed<Member>,
}

/// Rows, by their numbers, with their multipliers. The type keeps that the rows rise strictly and that the
/// multipliers are positive. Contracts see the list of the pairs.
#[derive(Drop)]
pub struct Multipliers {
    items: Vec<(u64, u128)>,
}

impl Model for Multipliers {
    ghost use Rattle.std.specs.Prelude.{ℕ, ◌<◌, List, All, AllPairs};

    ghost Value = { List (ℕ × ℕ) };

    ghost view = { λ p. p.items.items };

    ghost invariant = { λ p. record {
      rising : AllPairs (λ a b. a.0 < b.0) p.items.items;
      positive : All (λ part. 0 < part.1) p.items.items;
    } };
}

impl Multipliers {
    /// The rows with these multipliers.
    pub fn from_items(items: Vec<(u64, u128)>) -> Multipliers
        requires rising { AllPairs (λ a b. a.0 < b.0) items.items }
        requires positive { All (λ part. 0 < part.1) items.items }
        ensures { result ≡ items.items }
    {
        Multipliers { items }
    }

    /// The rows with their multipliers, in rising order of the rows.
    pub fn as_slice(&self) -> &[(u64, u128)]
        ensures parts { result.now ≡ self.now }
        ensures rising { AllPairs (λ a b. a.0 < b.0) self.now }
        ensures positive { All (λ part. 0 < part.1) self.now }
    {
        self.items.as_slice()
    }
}

/// An entry of a branching tree over a box.
#[derive(Drop)]
pub enum Entry {
    /// Makes the variable's range smaller at the side: `value` is its new bound, and the row refutes the removed part.
    Tighten {
        var: u32,
        side: Side,
        value: u16,
        row: u64,
    },
    /// Shares the box out at the variable: up to `value`, and from `value + 1` on.
    Split {
        var: u32,
        value: u16,
    },
    /// As a split, where a step of the table of fractions needed a wider number.
    Halve {
        var: u32,
        value: u16,
        wide: WideAt,
    },
    /// The rows, each times its multiplier, refute the box.
    Refute {
        parts: Multipliers,
    },
    /// Says nothing of its box.
    Undone,
}

/// A branching tree, by its entries in preorder: a Tighten has one subtree, a Split and a Halve two, the others none.
/// The type keeps that the entries are exactly one whole tree. Contracts see the list of the entries.
#[derive(Drop)]
pub struct Tree {
    entries: Vec<Entry>,
}

impl Model for Tree {
    ghost use Rattle.std.specs.Prelude.{List};
    ghost use Rattle.design_problem.specs.declared.tree.Entry.{Entry};

    ghost Value = { List Entry };

    ghost use Rattle.design_problem.specs.Trees.{IsSingleTree};

    ghost view = { λ t. t.entries.items };

    ghost invariant = { λ t. IsSingleTree t.entries.items };
}

impl Tree {
    /// The tree with these entries in preorder.
    pub fn from_items(items: Vec<Entry>) -> Tree
        requires { IsSingleTree items.items }
        ensures { result ≡ items.items }
    {
        Tree { entries: items }
    }

    /// The entries in preorder.
    pub fn as_slice(&self) -> &[Entry]
        ensures entries { result.now ≡ self.now }
        ensures whole { IsSingleTree self.now }
    {
        self.entries.as_slice()
    }
}
