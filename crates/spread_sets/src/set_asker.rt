//! What asks for the outsiders of several sets at one point.
ghost use Rattle.std.specs.Prelude.{◌≡◌, ◌<◌, ◌↔◌, ℕ, All, IfOk, IsTrue, MatchBool, length, slice_index};
ghost use Rattle.area_graph.specs.Costs.{cost};
ghost use Rattle.form_search.specs.Sources.{IsCostPoint};
ghost use Rattle.rival_separation.specs.Askers.{CanCompareWith, IsReadyToCompare, MayShare};
ghost use Rattle.rival_separation.specs.Outlooks.{FitsOutlook, HasItsPath};
ghost use Rattle.spread_sets.specs.MemberSets.{HasTree, IsMemberSet, sets_in};
ghost use Rattle.spread_sets.specs.SetAskers.{AreOutsidersIfAny, IsAskerOfSets, IsOutsiderIfAny, first_request};
ghost use Rattle.spread_sets.specs.SetAskers.{member_set_at, members_seen};
ghost use Rattle.spread_sets.specs.Sources.{AreOutsidersDear};
ghost use Rattle.spread_sets.specs.Spreads.{AreTied, SharesEach, edges_of};

use crate::member_sets::{MemberSet, first_of, most_places, request_of};
use area_graph::{Point, path_cost};
use cost_base::{Listed, OutOfMemory};
use design_problem::{Problem, Request, keeps_problem_on_graph};
use rival_separation::{Outlook, Shared, nothing_told, prepare, sorted_numbers, target_of, tell};
use set_separation::{find_outsider_at_hand, paths_lead};
use spf_ties::Room;
use std::alloc::Global;
use std::marker::Model;

/// Several sets of a problem's requests, at a point.
#[derive(Clone, Copy)]
struct SetSurvey<'a> {
    problem: &'a Problem,
    sets: &'a [MemberSet],
    point: &'a Point,
}

/// What asks for the outsiders of sets at one point, again and again. Sets whose requests have one end and exclude the
/// same edges share their distances. Contracts see its room, for how many places of a tree it has room, and the order
/// in which it looks at the sets.
#[derive(Drop)]
pub(crate) struct SetAsker {
    room: Room,
    costs: Vec<u128>,
    order: Vec<usize>,
}

impl Model for SetAsker {
    ghost use Rattle.std.specs.Prelude.{length};
    ghost use Rattle.spread_sets.specs.SetAskers.{SetAsking};

    ghost Value = { SetAsking };

    ghost view = { λ a. record {
      room = a.room;
      places = length a.costs.items;
      order = a.order.items;
    } };
}

/// The request of a set's first member, where there are a set and such a request.
fn request_if_any<'a>(problem: &'a Problem, set: Option<&MemberSet>) -> Option<&'a Request> {
    match set {
        Some(set) => problem
            .requests
            .as_slice()
            .get(first_of(set.members.as_slice()) as usize),
        None => None,
    }
}

/// The set of a number.
fn set_of_number(sets: &[MemberSet], number: usize) -> &MemberSet
    requires { number < length sets.now }
    ensures { result.now ≡ member_set_at sets.now number }
{
    &sets[number]
}

/// The request of the first member of the set of a number, as a part of a survey.
fn outlook_of<'a>(survey: &SetSurvey<'a>, number: usize) -> Outlook<'a>
    // The point is one of costs, and the number is that of a set.
    requires point { IsCostPoint (length survey.now.problem.now.low) survey.now.point.now }
    requires number { number < length survey.now.sets.now }
    requires set { IsMemberSet survey.now.problem.now
        (member_set_at survey.now.sets.now number).members }

    // It has the problem's graph, the point, and the request that the set's outsiders are of.
    ensures graph { result.graph.now ≡ survey.now.problem.now.graph }
    ensures request { result.request.now ≡ first_request survey.now.problem.now
        (member_set_at survey.now.sets.now number).members }
    ensures point { result.point.now ≡ survey.now.point.now }

    // The request's path is a simple path of it, and the point is one for the graph.
    ensures fits { FitsOutlook result }
    ensures path { HasItsPath result }
{
    let problem = survey.problem;
    keeps_problem_on_graph(problem);
    let set = set_of_number(survey.sets, number);
    Outlook {
        graph: &problem.graph,
        request: request_of(problem, first_of(set.members.as_slice())),
        point: survey.point,
    }
}

/// What a wanted path costs at a point.
fn cost_of(problem: &Problem, path: u32, point: &Point) -> u128
    requires point { IsCostPoint (length problem.now.low) point.now }
    requires path { path < length problem.now.requests }
    ensures { result ≡ cost problem.now.graph point.now (edges_of problem.now path) }
{
    keeps_problem_on_graph(problem);
    path_cost(&problem.graph, &request_of(problem, path).path, point)
}

/// Whether the members of a set cost the same at a point.
fn cost_the_same(problem: &Problem, members: &[u32], point: &Point) -> bool
    requires point { IsCostPoint (length problem.now.low) point.now }
    requires some { 0 < length members.now }
    requires members { All (λ path. path < length problem.now.requests) members.now }
    ensures { MatchBool result (AreTied problem.now point.now members.now)
        (AreTied problem.now point.now members.now → ⊥) }
{
    let first = cost_of(problem, first_of(members), point);
    for member in members {
        if cost_of(problem, *member, point) != first {
            return false;
        }
    }
    true
}

impl SetAsker {
    /// An asker for a problem's sets. No later call but `cheap_outsiders` takes memory.
    pub(crate) fn new(
        alloc: Global,
        problem: &Problem,
        sets: &[MemberSet],
    ) -> Result<SetAsker, OutOfMemory>
        requires { All (HasTree problem.now) sets.now }
        ensures { IfOk result (IsAskerOfSets problem.now sets.now) }
    {
        let room = Room::new(alloc, &problem.graph)?;
        let places = most_places(sets);
        let costs = vec![in alloc; 0; places]?;
        let order = sorted_numbers(alloc, sets.len(), |number| {
            Some(target_of(request_if_any(problem, sets.get(*number))?))
        })?;
        Ok(SetAsker { room, costs, order })
    }

    /// How many places the order has.
    fn places(&self) -> usize
        ensures { result ≡ length self.now.order }
    {
        self.order.len()
    }

    /// The number of the set at a place of the order.
    fn number_at(&self, place: usize) -> usize
        requires { place < length self.now.order }
        ensures { result ≡ slice_index self.now.order place }
    {
        self.order[place]
    }

    /// The set at a place of the order.
    fn set_at<'a>(&self, sets: &'a [MemberSet], place: usize) -> &'a MemberSet
        requires known { All (λ k. k < length sets.now) self.now.order }
        requires place { place < length self.now.order }
        ensures { result.now ≡ member_set_at sets.now (slice_index self.now.order place) }
    {
        set_of_number(sets, self.number_at(place))
    }

    /// The request of the first member of the set at a place of the order, as a part of a survey.
    fn outlook_at<'a>(&self, survey: &SetSurvey<'a>, place: usize) -> Outlook<'a>
        // The asker is one for these sets, the point is one of costs, and the order has the place.
        requires asker { IsAskerOfSets survey.now.problem.now survey.now.sets.now self.now }
        requires point { IsCostPoint (length survey.now.problem.now.low) survey.now.point.now }
        requires place { place < length self.now.order }

        // It has the problem's graph, the point, and the request that the set's outsiders are of.
        ensures graph { result.graph.now ≡ survey.now.problem.now.graph }
        ensures request { result.request.now ≡ first_request survey.now.problem.now
            (members_seen survey.now self.now place) }
        ensures point { result.point.now ≡ survey.now.point.now }

        // The request's path is a simple path of it, and the point is one for the graph.
        ensures fits { FitsOutlook result }
        ensures path { HasItsPath result }
    {
        outlook_of(survey, self.number_at(place))
    }

    /// Sees to it that the room has the distances that serve the set at a place of the order. It keeps those that it
    /// has where they serve that one too.
    fn prepare<'a>(
        &mut self,
        survey: &SetSurvey<'a>,
        place: usize,
        shared: Option<Shared<'a>>,
    ) -> Shared<'a>
        // The asker is one for these sets, the point is one of costs, and the order has the place.
        requires asker { IsAskerOfSets survey.now.problem.now survey.now.sets.now self.old }
        requires point { IsCostPoint (length survey.now.problem.now.low) survey.now.point.now }
        requires place { place < length self.old.order }

        // If it is told which distances the room has, it has them.
        requires shared { MayShare survey.now.problem.now.graph survey.now.point.now self.old.room
            shared }

        // Only the room changes, and the asker is still one for these sets.
        ensures asker { IsAskerOfSets survey.now.problem.now survey.now.sets.now self.new }
        ensures same { self.new ≡ record self.old { room = self.new.room } }

        // The room has the distances up to what the set's outsiders are compared with.
        ensures ready { IsReadyToCompare survey.now.problem.now.graph survey.now.point.now
            (first_request survey.now.problem.now (members_seen survey.now self.old place))
            self.new.room result }
    {
        let order = self.order.as_slice();
        let outlook_at = |later: usize| outlook_of(survey, order[later]);
        prepare(outlook_at, place..order.len(), shared, &mut self.room)
    }

    /// Whether the members of the set at a place of the order, which tie, lead by the scale: each outsider costs at
    /// least what they and the scale do. The room has the distances that serve the set.
    fn leads_at(&mut self, survey: &SetSurvey<'_>, place: usize) -> bool
        // The asker is one for these sets, the point is one of costs, and the order has the place.
        requires asker { IsAskerOfSets survey.now.problem.now survey.now.sets.now self.old }
        requires point { IsCostPoint (length survey.now.problem.now.low) survey.now.point.now }
        requires place { place < length self.old.order }

        // The members tie, and the room has the distances up to what outsiders are compared with.
        requires tied { AreTied survey.now.problem.now survey.now.point.now
            (members_seen survey.now self.old place) }
        requires found { CanCompareWith survey.now.problem.now.graph survey.now.point.now
            (first_request survey.now.problem.now (members_seen survey.now self.old place))
            self.old.room }

        // Nothing changes, and it tells whether each outsider costs at least the scale more.
        ensures same { self.new ≡ self.old }
        ensures answer { MatchBool result
            (AreOutsidersDear survey.now.problem.now survey.now.point.now
            (members_seen survey.now self.old place))
            (AreOutsidersDear survey.now.problem.now survey.now.point.now
            (members_seen survey.now self.old place) → ⊥) }
    {
        keeps_problem_on_graph(survey.problem);
        let outlook = self.outlook_at(survey, place);
        let set = self.set_at(survey.sets, place);
        paths_lead(&outlook, &set.tree, self.costs.as_mut_slice(), &self.room)
    }

    /// The cheapest outsider of the set at a place of the order, whose members tie, None where each costs at least what
    /// they and the scale do. The room has the distances that serve the set, and keeps them.
    fn outsider_at(
        &mut self,
        alloc: Global,
        survey: &SetSurvey<'_>,
        place: usize,
    ) -> Result<Option<Listed<u32>>, OutOfMemory>
        // The asker is one for these sets, the point is one of costs, and the order has the place.
        requires asker { IsAskerOfSets survey.now.problem.now survey.now.sets.now self.old }
        requires point { IsCostPoint (length survey.now.problem.now.low) survey.now.point.now }
        requires place { place < length self.old.order }

        // The members tie, and the room has the distances up to what outsiders are compared with.
        requires tied { AreTied survey.now.problem.now survey.now.point.now
            (members_seen survey.now self.old place) }
        requires found { CanCompareWith survey.now.problem.now.graph survey.now.point.now
            (first_request survey.now.problem.now (members_seen survey.now self.old place))
            self.old.room }

        // Only the room's path changes, and after None the members share.
        ensures same { self.new ≡ record self.old {
          room = record self.old.room
              { path = self.new.room.path };
        } }
        ensures outsider { IfOk result (IsOutsiderIfAny survey.now.problem.now survey.now.point.now
            (members_seen survey.now self.old place)) }
    {
        keeps_problem_on_graph(survey.problem);
        let outlook = self.outlook_at(survey, place);
        let set = self.set_at(survey.sets, place);
        let costs = self.costs.as_mut_slice();
        if !find_outsider_at_hand(&outlook, &set.tree, costs, &mut self.room) {
            return Ok(None);
        }
        let edges = Listed::from_slice(alloc, self.room.path())?;
        Ok(Some(edges))
    }

    /// Whether the members of each set tie, and every other path is dearer by the scale. It ends at the first set of
    /// which that doesn't hold, in the order. The distances to an end are looked for once, and serve each set with that
    /// end whose request excludes the same edges.
    pub(crate) fn each_shares(
        &mut self,
        problem: &Problem,
        sets: &[MemberSet],
        point: &Point,
    ) -> bool
        requires asker { IsAskerOfSets problem.now sets.now self.old }
        requires point { IsCostPoint (length problem.now.low) point.now }
        ensures asker { IsAskerOfSets problem.now sets.now self.new }
        ensures answer { IsTrue result ↔ SharesEach problem.now (sets_in sets.now) point.now }
    {
        let survey = SetSurvey {
            problem,
            sets,
            point,
        };
        let mut shared = None;
        for place in 0..self.places() {
            let set = self.set_at(sets, place);
            if !cost_the_same(problem, set.members.as_slice(), point) {
                return false;
            }
            let ready = self.prepare(&survey, place, shared);
            if !self.leads_at(&survey, place) {
                return false;
            }
            shared = Some(ready);
        }
        true
    }

    /// The cheapest outsider of each of the sets, whose members tie: None of each of which every outsider costs at
    /// least what the members and the scale do. Distances are shared as in `each_shares`, and an outsider is laid out
    /// while they are there.
    ///
    /// # Errors
    ///
    /// `OutOfMemory`.
    pub(crate) fn cheap_outsiders(
        &mut self,
        alloc: Global,
        problem: &Problem,
        sets: &[MemberSet],
        point: &Point,
    ) -> Result<Vec<Option<Listed<u32>>>, OutOfMemory>
        requires asker { IsAskerOfSets problem.now sets.now self.old }
        requires point { IsCostPoint (length problem.now.low) point.now }
        requires tied { All (λ set. AreTied problem.now point.now set.members) sets.now }
        ensures asker { IsAskerOfSets problem.now sets.now self.new }
        ensures outsiders { IfOk result (λ outsiders. AreOutsidersIfAny problem.now point.now
            (sets_in sets.now) outsiders.items) }
    {
        let survey = SetSurvey {
            problem,
            sets,
            point,
        };
        let mut outsiders = nothing_told(alloc, sets.len())?;
        let mut shared = None;
        for place in 0..self.places() {
            let ready = self.prepare(&survey, place, shared);
            let outsider = self.outsider_at(alloc, &survey, place)?;
            tell(&mut outsiders, self.number_at(place), outsider);
            shared = Some(ready);
        }
        Ok(outsiders)
    }
}
