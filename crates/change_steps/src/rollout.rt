//! A rollout by reference.
ghost use Rattle.std.specs.Prelude.{◌≡◌, ◌<◌, ◌≤◌, All, length};
ghost use Rattle.area_graph.specs.Costs.{IsPriced};
ghost use Rattle.design_problem.specs.Problems.{request_at};
ghost use Rattle.rival_separation.specs.Askers.{ArePathsOf};
ghost use Rattle.change_steps.specs.Rollouts.{AreMoves, IsRollout, variables_of_step, step_count};

use crate::moves::Moves;
use area_graph::Graph;
use design_problem::Request;
use std::marker::Model;

/// A rollout. Contracts see its graph, its requests and its moves.
#[derive(Drop)]
pub(crate) struct Rollout<'a> {
    graph: &'a Graph,
    requests: &'a [Request],
    moves: &'a Moves,
}

impl<'a> Model for Rollout<'a> {
    ghost use Rattle.change_steps.specs.Rollouts.{IsRollout, Rollout as OneRollout};

    ghost Value = { OneRollout };

    ghost view = { λ r. record {
      graph = r.graph.now;
      requests = r.requests.now;
      moves = r.moves.now;
    } };

    ghost invariant = { λ r. IsRollout (record {
      graph = r.graph.now;
      requests = r.requests.now;
      moves = r.moves.now;
    }) };
}

impl<'a> Rollout<'a> {
    /// The rollout of a graph, its requests and its moves.
    pub fn new(graph: &'a Graph, requests: &'a [Request], moves: &'a Moves) -> Rollout<'a>
        requires priced { All (λ edge. IsPriced (length moves.now.present) edge.price)
            graph.now.edges }
        requires requests { ArePathsOf graph.now requests.now }
        requires few { length requests.now ≤ 10000 }
        ensures { result ≡ record {
          graph = graph.now;
          requests = requests.now;
          moves =
              moves.now;
        } }
    {
        graph.keeps_conditions();
        moves.keeps_conditions();
        Rollout {
            graph,
            requests,
            moves,
        }
    }

    /// For the prover alone: keeps that a rollout meets its conditions; takes no time and changes nothing.
    pub fn keeps_conditions(&self)
        ensures { IsRollout self.now }
    {
        let _ = &self.graph;
    }

    /// The graph.
    pub fn graph(&self) -> &Graph
        ensures { result.now ≡ self.now.graph }
    {
        self.graph
    }

    /// How many edges the graph has.
    pub fn edge_count(&self) -> u32
        ensures { result ≡ length self.now.graph.edges }
    {
        let graph = self.graph;
        graph.keeps_conditions();
        graph.edges().len() as u32
    }

    /// How many requests there are.
    pub fn request_count(&self) -> u32
        ensures { result ≡ length self.now.requests }
    {
        self.requests.len() as u32
    }

    /// The request of that number.
    pub fn request(&self, number: u32) -> &Request
        requires { number < length self.now.requests }
        ensures { result.now ≡ request_at self.now.requests number }
    {
        &self.requests[number as usize]
    }

    /// How many steps there are.
    pub fn step_count(&self) -> usize
        ensures { result ≡ step_count self.now }
    {
        let moves = self.moves;
        moves.steps.as_slice().len()
    }

    /// The variables that a step changes.
    pub fn variables(&self, step: usize) -> &[u32]
        requires { step < step_count self.now }
        ensures { result.now ≡ variables_of_step self.now.moves step }
    {
        let moves = self.moves;
        let steps = moves.steps.as_slice();
        let variables = &steps[step];
        variables.as_slice()
    }

    /// The present costs.
    pub fn present(&self) -> &[u16]
        ensures { result.now ≡ self.now.moves.present }
    {
        let moves = self.moves;
        moves.present.as_slice()
    }

    /// The wanted costs.
    pub fn wanted(&self) -> &[u16]
        ensures { result.now ≡ self.now.moves.wanted }
    {
        let moves = self.moves;
        moves.wanted.as_slice()
    }
}
