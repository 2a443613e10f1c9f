//! Answers with their evidence.
use crate::{Row, Tree};
use cost_base::{Listed, Name};
use std::marker::Model;

/// What an answer claims.
#[derive(Clone, Copy, Debug, PartialEq, Eq)]
pub enum Verdict {
    /// There are fit costs, and this is the least greatest cost.
    Optimal(u16),
    /// No costs within the bounds are fit.
    Impossible,
    /// At this cap the budget was used up.
    Undecided(u16),
}

/// The cost of an interface, from 1.
#[derive(Drop)]
pub struct CostLine {
    pub router: Name,
    pub interface: Name,
    pub cost: u16,
}

/// The greatest of the costs, and a line for each free interface, in the order of the linked interfaces.
#[derive(Drop)]
pub struct Costs {
    pub greatest: u16,
    pub lines: Listed<CostLine>,
}

/// Why no costs have a smaller greatest cost, where no tree is needed.
#[derive(Clone, Copy, Debug, PartialEq, Eq)]
pub enum Floor {
    /// Nothing is said: a tree shows it, or nothing is claimed.
    Absent,
    /// There is no variable.
    Empty,
    /// The lower bound of this variable is the greatest cost.
    Var(u32),
}

/// A tree over the box at a cap.
#[derive(Drop)]
pub struct CapTree {
    pub cap: u16,
    pub tree: Tree,
}

/// What a design found, with its evidence: rows of rival paths, and branching trees over them.
///
/// The type keeps that the text of the answer is in the grammar of answers: names of one word and costs from 1;
/// fractions in lowest terms, whose numbers have at most 127 bits; in a Refute at least one row, and multipliers of at
/// most 31 digits; fewer than 2^32 entries in a tree; lines of at most 65,536 bytes. Whole trees and rising rows are
/// kept by `Tree` and `Multipliers`. The fields are public: whoever writes an `Answer` proves this.
#[derive(Drop)]
pub struct Answer {
    pub verdict: Verdict,
    /// The costs that were found, and their greatest.
    pub costs: Option<Costs>,
    /// The variable whose lower bound is the greatest cost, where one is the evidence.
    pub floor: Floor,
    /// The rows that the trees name by their places.
    pub rows: Listed<Row>,
    /// A closed tree, with the cap of its box: no fit costs are within it.
    pub proof: Option<CapTree>,
    /// The tree at which the budget was used up, with the cap of its box.
    pub undecided: Option<CapTree>,
}

impl Model for Answer {
    ghost use Rattle.design_problem.specs.Answers.{AnswerParts};

    ghost Value = { AnswerParts };

    ghost use Rattle.design_problem.specs.Text.{FitsAnswer};

    ghost view = { λ a. record {
      verdict = a.verdict;
      costs = a.costs;
      floor = a.floor;
      rows = a.rows;
      proof = a.proof;
      undecided = a.undecided;
    } };

    ghost invariant = { λ a. FitsAnswer (record {
      verdict = a.verdict;
      costs = a.costs;
      floor = a.floor;
      rows = a.rows;
      proof = a.proof;
      undecided = a.undecided;
    }) };
}
