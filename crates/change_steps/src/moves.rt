//! The moves of a rollout.
ghost use Rattle.change_steps.specs.Rollouts.{AreMoves};

use cost_base::Listed;
use std::marker::Model;

/// What is to change: for each variable its present and its wanted cost, and the steps in which they go live, each with
/// the variables that it changes. A variable that stands in no step keeps its present cost.
///
/// The type keeps that each variable has two costs from 1 to 65535, that the variables of the steps have costs, and
/// that each stands in at most one step. The fields are public: whoever writes a `Moves` proves this.
#[derive(Drop)]
pub struct Moves {
    /// The present cost of each variable.
    pub present: Listed<u16>,
    /// The wanted cost of each variable.
    pub wanted: Listed<u16>,
    /// The variables that each step changes.
    pub steps: Listed<Listed<u32>>,
}

impl Model for Moves {
    ghost use Rattle.change_steps.specs.Rollouts.{AreMoves, CostMoves};

    ghost Value = { CostMoves };

    ghost view = { λ m. record { present = m.present; wanted = m.wanted; steps = m.steps } };

    ghost invariant = { λ m. AreMoves (record {
      present = m.present;
      wanted = m.wanted;
      steps = m.steps;
    }) };
}

impl Moves {
    /// For the prover alone: keeps that moves meet the conditions of their type; takes no time and changes nothing.
    pub fn keeps_conditions(&self)
        ensures { AreMoves self.now }
    {
        let _ = &self.present;
    }
}
