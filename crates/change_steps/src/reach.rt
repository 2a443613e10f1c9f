//! What rivals cost at least that go over the links of a step.
ghost use Rattle.std.specs.Prelude.{◌≡◌, ◌++◌, ◌∷◌, ◌<◌, ◌≤◌, ◌^◌, ℕ, [], All, IfOk, IsTrue, OnOk, Some, length, map, slice_index_or};
ghost use Rattle.cost_base.specs.Lists.{numbers_from};
ghost use Rattle.cost_base.specs.Marks.{is_marked};
ghost use Rattle.area_graph.specs.Costs.{FitsPoint, IsPriced, at_costs};
ghost use Rattle.spf_ties.specs.Distances.{IsRoomFor};
ghost use Rattle.change_steps.specs.Rollouts.{step_count};
ghost use Rattle.change_steps.specs.Search.{IsStateOf};
ghost use Rattle.change_steps.specs.Reaches.{AreLeastToEach, AreDearerOver, AreLeastTo, IsHarmless, IsReach, least_from_to, edges_of_step, has_price, least_cost, least_costs, price_rises};

use crate::kinds::{Kind, is_kind, variable_rises};
use crate::rollout::Rollout;
use crate::state::State;
use area_graph::{FAR, Graph, Point, Price, edge_of, path_cost, price_of};
use cost_base::{Listed, OutOfMemory, mark_within, no_marks, push_if};
use spf_ties::Room;
use std::alloc::Global;

/// The edges whose costs steps change, and what paths cost at least, whichever steps are done.
#[derive(Drop)]
pub(crate) struct Reach {
    /// The edges whose costs each step changes.
    edges: Listed<Listed<u32>>,
    /// For a vertex that is asked for, what a path to it from each vertex costs at least.
    least: Listed<Listed<u32>>,
}

/// Whether a price is the cost of one of these variables.
fn has_price(variables: &[u32], price: Price) -> bool
    ensures { result ≡ has_price variables.now price }
{
    match price {
        Price::Var(variable) => variables.contains(&variable),
        Price::Fixed(_) | Price::Zero => false,
    }
}

/// The edges whose costs a step changes.
#[tactic(auto, unfolding(crate::specs::Reaches::edges_of_step))]
fn edges_of_step(alloc: Global, rollout: &Rollout, step: usize) -> Result<Vec<u32>, OutOfMemory>
    requires { step < step_count rollout.now }
    ensures { IfOk result (λ edges. edges.items ≡ edges_of_step rollout.now step) }
{
    rollout.keeps_conditions();
    let variables = rollout.variables(step);
    let mut edges = Vec::new(alloc);
    for number in 0..rollout.edge_count() {
        let edge = edge_of(rollout.graph(), number);
        push_if(&mut edges, number, has_price(variables, edge.price))?;
    }
    Ok(edges)
}

/// The least cost of a variable in any state.
fn least_cost(rollout: &Rollout, variable: usize) -> u16
    requires { variable < length rollout.now.moves.present }
    ensures { result ≡ least_cost rollout.now.moves variable }
{
    rollout.keeps_conditions();
    let present = rollout.present()[variable];
    let wanted = rollout.wanted()[variable];
    if present < wanted { present } else { wanted }
}

/// The least costs of the variables in any state.
#[tactic(auto, unfolding(crate::specs::Reaches::least_costs))]
fn least_costs(alloc: Global, rollout: &Rollout) -> Result<Point, OutOfMemory>
    ensures { IfOk result (λ point. point ≡ at_costs (least_costs rollout.now.moves)) }
{
    let mut values = Vec::new(alloc);
    for variable in 0..rollout.present().len() {
        values.push(least_cost(rollout, variable) as u128)?;
    }
    Ok(Point {
        scale: 1,
        values: Listed::from_items(values),
    })
}

/// A number of 32 bits that is at most the least cost, where there is one.
fn at_most(least: Option<u128>) -> u32
    ensures { (cost : ℕ) → least ≡ Some cost → result ≤ cost }
{
    match least {
        Some(cost) => { if cost < FAR { cost as u32 } else { FAR as u32 } }
        None => FAR as u32,
    }
}

/// What a path to a vertex from each vertex costs at least, at a point.
fn least_to(
    alloc: Global,
    graph: &Graph,
    point: &Point,
    target: u32,
    room: &mut Room,
) -> Result<Vec<u32>, OutOfMemory>
    requires room { IsRoomFor graph.now room.old }
    requires fits { FitsPoint graph.now point.now }
    requires target { target < length graph.now.vertices }
    ensures room { IsRoomFor graph.now room.new }
    ensures least { IfOk result (λ least. AreLeastTo graph.now point.now target least.items) }
{
    graph.keeps_conditions();
    room.distances_to(graph, point, target);
    let mut least = Vec::new(alloc);
    for vertex in 0..graph.vertices().len() as u32 {
        least.push(at_most(room.distance(vertex)))?;
    }
    Ok(least)
}

/// Marks the vertices that some edges leave.
fn mark_starts(marks: &mut Vec<bool>, graph: &Graph, edges: &[u32])
    ensures { length marks.new.items ≡ length marks.old.items }
{
    for number in edges {
        if let Some(edge) = graph.edges().get(*number as usize) {
            mark_within(marks, edge.from as usize);
        }
    }
}

/// Marks the ends of the held paths.
fn mark_ends(marks: &mut Vec<bool>, rollout: &Rollout, held: &[u32])
    requires { All (λ k. k < length rollout.now.requests) held.now }
    ensures { length marks.new.items ≡ length marks.old.items }
{
    for number in held {
        mark_within(marks, rollout.request(*number).end as usize);
    }
}

/// Whether the step of a place comes between the first and the last ones.
fn is_between(kinds: &[Kind], step: usize) -> bool {
    match kinds.get(step) {
        Some(kind) => is_kind(Kind::Between, *kind),
        None => false,
    }
}

/// Marks the vertices that the edges of a step leave, if it comes between the first and the last ones, and tells
/// whether it does.
fn mark_step(
    marks: &mut Vec<bool>,
    graph: &Graph,
    kinds: &[Kind],
    step: usize,
    edges: &[u32],
) -> bool
    ensures { length marks.new.items ≡ length marks.old.items }
{
    if !is_between(kinds, step) {
        return false;
    }
    mark_starts(marks, graph, edges);
    true
}

/// Marks the vertices that edges of steps between leave, and tells whether there are such steps.
fn mark_between(marks: &mut Vec<bool>, graph: &Graph, kinds: &[Kind], edges: &[Listed<u32>]) -> bool
    ensures { length marks.new.items ≡ length marks.old.items }
{
    let mut has_between = false;
    for step in 0..edges.len() {
        has_between |= mark_step(marks, graph, kinds, step, edges[step].as_slice());
    }
    has_between
}

/// A mark for each vertex that an edge of a step between leaves, or at which a held path ends.
fn mark_asked(
    alloc: Global,
    rollout: &Rollout,
    held: &[u32],
    kinds: &[Kind],
    edges: &[Listed<u32>],
) -> Result<Vec<bool>, OutOfMemory>
    requires { All (λ k. k < length rollout.now.requests) held.now }
    ensures { IfOk result (λ asked. length asked.items ≡ length rollout.now.graph.vertices) }
{
    let graph = rollout.graph();
    let mut asked = no_marks(alloc, graph.vertices().len())?;
    if mark_between(&mut asked, graph, kinds, edges) {
        mark_ends(&mut asked, rollout, held);
    }
    Ok(asked)
}

/// Puts the edges whose costs a step changes behind those of others.
fn put_edges(
    edges: &mut Vec<Listed<u32>>,
    alloc: Global,
    rollout: &Rollout,
    step: usize,
) -> Result<(), OutOfMemory>
    requires { step < step_count rollout.now }
    ensures { OnOk result (edges.new.items ≡ edges.old.items ++
        edges_of_step rollout.now step ∷ []) }
{
    let list = edges_of_step(alloc, rollout, step)?;
    edges.push(Listed::from_items(list))?;
    Ok(())
}

/// The edges whose costs each step changes.
fn edges_of_steps(alloc: Global, rollout: &Rollout) -> Result<Vec<Listed<u32>>, OutOfMemory>
    ensures { IfOk result (λ edges. edges.items ≡ map (edges_of_step rollout.now)
        (numbers_from 0 (step_count rollout.now))) }
{
    let mut edges = Vec::new(alloc);
    for step in 0..rollout.step_count() {
        put_edges(&mut edges, alloc, rollout, step)?;
    }
    Ok(edges)
}

/// What paths to each vertex that is asked for cost at least, whichever steps are done.
fn least_to_each(
    alloc: Global,
    rollout: &Rollout,
    asked: &[bool],
    room: &mut Room,
) -> Result<Vec<Listed<u32>>, OutOfMemory>
    requires room { IsRoomFor rollout.now.graph room.old }
    requires asked { length asked.now ≡ length rollout.now.graph.vertices }
    ensures room { IsRoomFor rollout.now.graph room.new }
    ensures least { IfOk result (λ least. AreLeastToEach rollout.now.graph
        (at_costs (least_costs rollout.now.moves)) least.items) }
{
    rollout.keeps_conditions();
    let graph = rollout.graph();
    let point = least_costs(alloc, rollout)?;
    let mut least = Vec::new(alloc);
    for target in 0..asked.len() as u32 {
        if asked[target as usize] {
            let row = least_to(alloc, graph, &point, target, room)?;
            least.push(Listed::from_items(row))?;
        } else {
            least.push(Listed::new(alloc))?;
        }
    }
    Ok(least)
}

/// The number at a place; 0 past the end.
fn number_at(numbers: &[u32], place: u32) -> u128
    ensures number { result ≡ slice_index_or numbers.now place 0 }
    ensures below { result < 2 ^ 32 }
{
    match numbers.get(place as usize) {
        Some(number) => *number as u128,
        None => 0,
    }
}

/// Whether the wanted price is greater than the present one.
fn price_rises(rollout: &Rollout, price: Price) -> bool
    requires { IsPriced (length rollout.now.moves.present) price }
    ensures { result ≡ price_rises rollout.now.moves price }
{
    match price {
        Price::Var(variable) => variable_rises(rollout, variable),
        Price::Fixed(_) | Price::Zero => false,
    }
}

impl Reach {
    /// What the steps of a rollout may take from its held paths.
    pub(crate) fn new(
        alloc: Global,
        rollout: &Rollout,
        held: &[u32],
        kinds: &[Kind],
        room: &mut Room,
    ) -> Result<Reach, OutOfMemory>
        requires room { IsRoomFor rollout.now.graph room.old }
        requires held { All (λ k. k < length rollout.now.requests) held.now }
        ensures room { IsRoomFor rollout.now.graph room.new }
        ensures reach { IfOk result (IsReach rollout.now) }
    {
        let edges = edges_of_steps(alloc, rollout)?;
        let asked = mark_asked(alloc, rollout, held, kinds, &edges)?;
        Reach::beside(alloc, rollout, edges, &asked, room)
    }

    /// These edges of each step, and what paths to the marked vertices cost at least.
    fn beside(
        alloc: Global,
        rollout: &Rollout,
        edges: Vec<Listed<u32>>,
        asked: &[bool],
        room: &mut Room,
    ) -> Result<Reach, OutOfMemory>
        requires room { IsRoomFor rollout.now.graph room.old }
        requires edges { edges.items ≡ map (edges_of_step rollout.now)
            (numbers_from 0 (step_count rollout.now)) }
        requires asked { length asked.now ≡ length rollout.now.graph.vertices }
        ensures room { IsRoomFor rollout.now.graph room.new }
        ensures reach { IfOk result (IsReach rollout.now) }
    {
        let least = least_to_each(alloc, rollout, asked, room)?;
        Ok(Reach {
            edges: Listed::from_items(edges),
            least: Listed::from_items(least),
        })
    }

    /// The edges whose costs a step changes.
    fn edges(&self, step: usize) -> &[u32]
        requires { step < length self.now.edges }
        ensures { result.now ≡ slice_index_or self.now.edges step [] }
    {
        let edges = self.edges.as_slice();
        let list = &edges[step];
        list.as_slice()
    }

    /// What a path costs at least from one vertex to another.
    fn at_least(&self, start: u32, target: u32) -> u128
        ensures least { result ≡ least_from_to self.now.least start target }
        ensures below { result < 2 ^ 32 }
    {
        let least = self.least.as_slice();
        match least.get(target as usize) {
            Some(row) => number_at(row.as_slice(), start),
            None => 0,
        }
    }

    /// Whether each rival that goes over an edge is seen to cost more than the path of a request.
    fn are_dearer_over(&self, rollout: &Rollout, state: &State, number: u32, edge: u32) -> bool
        requires reach { IsReach rollout.now self.now }
        requires state { IsStateOf rollout.now state.now }
        requires number { number < length rollout.now.requests }
        requires edge { edge < length rollout.now.graph.edges }
        ensures { IsTrue result → AreDearerOver rollout.now (is_marked state.now.done.items) number
            edge }
    {
        rollout.keeps_conditions();
        let graph = rollout.graph();
        graph.keeps_conditions();
        let point = state.point();
        let request = rollout.request(number);
        let over = edge_of(graph, edge);
        let before = self.at_least(request.path.start, over.from);
        let behind = self.at_least(over.to, request.end);
        path_cost(graph, &request.path, point) < before + (price_of(over.price, point) + behind)
    }

    /// Whether an edge is seen to take nothing from the path of a request by the price that a step gave it.
    fn is_harmless(&self, rollout: &Rollout, state: &State, number: u32, edge: u32) -> bool
        requires reach { IsReach rollout.now self.now }
        requires state { IsStateOf rollout.now state.now }
        requires number { number < length rollout.now.requests }
        requires edge { edge < length rollout.now.graph.edges }
        ensures { IsTrue result → IsHarmless rollout.now (is_marked state.now.done.items) number
            edge }
    {
        rollout.keeps_conditions();
        let rises = price_rises(rollout, edge_of(rollout.graph(), edge).price);
        let edges = rollout.request(number).path.edges.as_slice();
        if edges.contains(&edge) {
            !rises
        } else {
            rises || self.are_dearer_over(rollout, state, number, edge)
        }
    }

    /// Whether a step is seen to have taken nothing from the path of a request.
    pub(crate) fn spares(&self, rollout: &Rollout, state: &State, number: u32, step: usize) -> bool
        requires reach { IsReach rollout.now self.now }
        requires state { IsStateOf rollout.now state.now }
        requires number { number < length rollout.now.requests }
        requires step { step < step_count rollout.now }
        ensures { IsTrue result →
            All (IsHarmless rollout.now (is_marked state.now.done.items) number)
            (edges_of_step rollout.now step) }
    {
        for edge in self.edges(step) {
            if !self.is_harmless(rollout, state, number, *edge) {
                return false;
            }
        }
        true
    }
}
