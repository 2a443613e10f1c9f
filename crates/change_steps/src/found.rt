//! What is found of a rollout's steps.

/// The held paths of a rollout, and what is found of the order of its steps.
#[derive(Drop)]
pub struct Steps {
    /// The numbers of the requests, rising, whose paths are the only cheapest both at present and after all steps.
    pub held: Vec<u32>,
    /// What is found of the order.
    pub outcome: Outcome,
}

/// Whether the steps of a rollout have a safe order: one in which each held path is the only cheapest after each step.
#[derive(Drop)]
pub enum Outcome {
    /// All steps in a safe order, by their numbers.
    Order(Vec<usize>),
    /// There is no safe order.
    NoOrder(Stuck),
    /// As many states were tested as the budget allows, and another would be.
    Undecided(Stuck),
}

/// How far a search came.
#[derive(Drop)]
pub struct Stuck {
    /// The steps that were done in the first of the greatest safe states, by their numbers in the order in which they
    /// were done, the first steps first.
    pub done: Vec<usize>,
    /// Each step between that isn't among them, in order, with what is in its way.
    pub blocked: Vec<Blocked>,
}

/// A step that can't follow.
#[derive(Clone, Copy, Debug, PartialEq, Eq)]
pub struct Blocked {
    /// The step's number.
    pub step: usize,
    /// What is in its way.
    pub by: Barrier,
}

/// What is in the way of a step.
#[derive(Clone, Copy, Debug, PartialEq, Eq)]
pub enum Barrier {
    /// The number of the first held path that isn't the only cheapest after it.
    Path(u32),
    /// The state after it wasn't tested.
    Untested,
}
