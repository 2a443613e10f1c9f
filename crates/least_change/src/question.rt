//! What is asked of the changes of present costs.
ghost use Rattle.std.specs.Prelude.{◌≡◌};
ghost use Rattle.design_problem.specs.Problems.{IsProblemOnGraph};
ghost use Rattle.least_change.specs.Present.{ArePresentCosts};

use design_problem::{Problem, keeps_problem_on_graph};
use std::marker::Model;
use wide_fraction::Limits;

/// A problem, the present cost of each variable that has one, and the limits of each search.
#[derive(Drop)]
pub(crate) struct Question<'a> {
    problem: &'a Problem,
    present: &'a [Option<u16>],
    limits: &'a Limits,
}

impl<'a> Model for Question<'a> {
    ghost use Rattle.least_change.specs.Present.{ArePresentCosts};
    ghost use Rattle.least_change.specs.Changes.{ChangeQuestion};

    ghost Value = { ChangeQuestion };

    ghost view = { λ q. record {
      problem = q.problem.now;
      present = q.present.now;
      top = q.limits.now.top;
      nodes = q.limits.now.nodes;
    } };

    ghost invariant = { λ q. ArePresentCosts q.problem.now q.present.now };
}

impl<'a> Question<'a> {
    /// The question.
    pub(crate) fn new(
        problem: &'a Problem,
        present: &'a [Option<u16>],
        limits: &'a Limits,
    ) -> Question<'a>
        requires { ArePresentCosts problem.now present.now }
        ensures { result ≡ record {
          problem = problem.now;
          present = present.now;
          top = limits.now.top;
          nodes = limits.now.nodes;
        } }
    {
        Question {
            problem,
            present,
            limits,
        }
    }

    /// For the prover alone: keeps that the problem is one on its graph, and that the present costs are costs of its
    /// variables within their bounds; takes no time and changes nothing.
    pub(crate) fn keeps_conditions(&self)
        ensures problem { IsProblemOnGraph self.now.problem }
        ensures present { ArePresentCosts self.now.problem self.now.present }
    {
        keeps_problem_on_graph(self.problem);
    }

    /// The problem.
    pub(crate) fn problem(&self) -> &Problem
        ensures { result.now ≡ self.now.problem }
    {
        self.problem
    }

    /// The present costs.
    pub(crate) fn present(&self) -> &[Option<u16>]
        ensures { result.now ≡ self.now.present }
    {
        self.present
    }

    /// The limits.
    pub(crate) fn limits(&self) -> &Limits
        ensures top { result.now.top ≡ self.now.top }
        ensures nodes { result.now.nodes ≡ self.now.nodes }
    {
        self.limits
    }
}
