//! What asks for the rivals of several requests at one point.

ghost use Rattle.std.specs.Prelude.{◌≡◌, ◌↔◌, ◌<◌, ℕ, All, Contains, IfOk, IsTrue, MatchBool, Some, length, slice_index};
ghost use Rattle.area_graph.specs.Costs.{FitsPoint};
ghost use Rattle.design_problem.specs.Problems.{request_at};
ghost use Rattle.rival_separation.specs.Askers.{AreCheapestRivals, ArePathsOf, CanCompareWith, IsAskerFor, IsCheapestIfAny};
ghost use Rattle.rival_separation.specs.Askers.{IsReadyToCompare, MayShare, RequestLeads, request_seen};
ghost use Rattle.rival_separation.specs.Outlooks.{CanCompare, FitsOutlook, HasItsPath};

use crate::outlook::Outlook;
use crate::rival::{cheap_deviation, find_rival_at_hand};
use crate::shared::{Shared, prepare, sorted_numbers, target_of};
use crate::told::{nothing_told, tell};
use area_graph::{Graph, Point};
use cost_base::{Listed, OutOfMemory};
use design_problem::Request;
use spf_ties::Room;
use std::alloc::Global;
use std::marker::Model;

/// Several requests of a graph, at a point.
#[derive(Clone, Copy)]
struct Survey<'a> {
    graph: &'a Graph,
    requests: &'a [Request],
    point: &'a Point,
}

/// What asks for the rivals of several requests at one point, again and again. Requests with one end that exclude the
/// same edges share their distances. Contracts see its room, and the order in which it looks at the requests.
#[derive(Drop)]
pub struct Asker {
    room: Room,
    order: Vec<usize>,
}

impl Model for Asker {
    ghost use Rattle.rival_separation.specs.Askers.{Asking};

    ghost Value = { Asking };

    ghost view = { λ a. record { room = a.room; order = a.order.items } };
}

/// The request of that number, as a part of a survey.
fn outlook_of<'a>(survey: &Survey<'a>, number: usize) -> Outlook<'a>
    requires { number < length survey.now.requests.now }
    ensures graph { result.graph.now ≡ survey.now.graph.now }
    ensures request { result.request.now ≡ request_at survey.now.requests.now number }
    ensures point { result.point.now ≡ survey.now.point.now }
{
    Outlook {
        graph: survey.graph,
        request: &survey.requests[number],
        point: survey.point,
    }
}

/// Whether the path of a request leads by the scale. The room has the distances that serve the request.
fn leads(outlook: &Outlook<'_>, room: &Room) -> bool
    requires fits { FitsOutlook outlook.now }
    requires path { HasItsPath outlook.now }
    requires found { CanCompare outlook.now room.now }
    ensures { MatchBool result
        (RequestLeads outlook.now.graph.now outlook.now.point.now outlook.now.request.now)
        (RequestLeads outlook.now.graph.now outlook.now.point.now outlook.now.request.now → ⊥) }
{
    outlook.graph.keeps_conditions();
    match cheap_deviation(outlook, room) {
        Some(_) => false,
        None => true,
    }
}

impl Asker {
    /// An asker for a graph and requests.
    ///
    /// # Errors
    ///
    /// `OutOfMemory`.
    pub fn new(alloc: Global, graph: &Graph, requests: &[Request]) -> Result<Asker, OutOfMemory>
        ensures { IfOk result (IsAskerFor graph.now requests.now) }
    {
        let room = Room::new(alloc, graph)?;
        let order = sorted_numbers(alloc, requests.len(), |number| {
            requests.get(*number).map(target_of)
        })?;
        Ok(Asker { room, order })
    }

    /// How many places the order has.
    fn places(&self) -> usize
        ensures { result ≡ length self.now.order }
    {
        self.order.len()
    }

    /// The number of the request at a place of the order.
    fn number_at(&self, place: usize) -> usize
        requires { place < length self.now.order }
        ensures { result ≡ slice_index self.now.order place }
    {
        self.order[place]
    }

    /// The request at a place of the order, as a part of a survey.
    fn outlook_at<'a>(&self, survey: &Survey<'a>, place: usize) -> Outlook<'a>
        requires known { All (λ k. k < length survey.now.requests.now) self.now.order }
        requires place { place < length self.now.order }
        ensures graph { result.graph.now ≡ survey.now.graph.now }
        ensures request { result.request.now ≡ request_seen survey.now self.now place }
        ensures point { result.point.now ≡ survey.now.point.now }
    {
        outlook_of(survey, self.number_at(place))
    }

    /// Sees to it that the room has the distances that serve the request at a place of the order. It keeps those that
    /// it has where they serve that one too.
    fn prepare<'a>(
        &mut self,
        survey: &Survey<'a>,
        place: usize,
        shared: Option<Shared<'a>>,
    ) -> Shared<'a>
        // The asker is one for these requests, and the path of each is a simple path of it.
        requires asker { IsAskerFor survey.now.graph.now survey.now.requests.now self.old }
        requires fits { FitsPoint survey.now.graph.now survey.now.point.now }
        requires requests { ArePathsOf survey.now.graph.now survey.now.requests.now }
        requires place { place < length self.old.order }

        // If it is told which distances the room has, it has them.
        requires shared { MayShare survey.now.graph.now survey.now.point.now self.old.room shared }

        // The order stays, and the room is still one for the graph.
        ensures asker { IsAskerFor survey.now.graph.now survey.now.requests.now self.new }
        ensures same { self.new ≡ record self.old { room = self.new.room } }

        // The room has the distances up to what the request's path is compared with.
        ensures ready { IsReadyToCompare survey.now.graph.now survey.now.point.now
            (request_seen survey.now self.old place) self.new.room result }
    {
        let order = self.order.as_slice();
        let outlook_at = |later: usize| outlook_of(survey, order[later]);
        prepare(outlook_at, place..order.len(), shared, &mut self.room)
    }

    /// Whether the path of the request at a place of the order leads by the scale; the room has the distances that
    /// serve it.
    fn leads_at(&self, survey: &Survey<'_>, place: usize) -> bool
        // The asker is one for these requests, and the path of each is a simple path of it.
        requires asker { IsAskerFor survey.now.graph.now survey.now.requests.now self.now }
        requires fits { FitsPoint survey.now.graph.now survey.now.point.now }
        requires requests { ArePathsOf survey.now.graph.now survey.now.requests.now }
        requires place { place < length self.now.order }

        // The room has the distances up to what the request's path is compared with.
        requires found { CanCompareWith survey.now.graph.now survey.now.point.now
            (request_seen survey.now self.now place) self.now.room }
        ensures { MatchBool result (RequestLeads survey.now.graph.now survey.now.point.now
            (request_seen survey.now self.now place))
            (RequestLeads survey.now.graph.now survey.now.point.now
            (request_seen survey.now self.now place) → ⊥) }
    {
        leads(&self.outlook_at(survey, place), &self.room)
    }

    /// The cheapest rival of the request at a place of the order, None where its path leads. The room has the distances
    /// that serve it, and keeps them.
    fn rival_at(
        &mut self,
        alloc: Global,
        survey: &Survey<'_>,
        place: usize,
    ) -> Result<Option<Listed<u32>>, OutOfMemory>
        // The asker is one for these requests, and the path of each is a simple path of it.
        requires asker { IsAskerFor survey.now.graph.now survey.now.requests.now self.old }
        requires fits { FitsPoint survey.now.graph.now survey.now.point.now }
        requires requests { ArePathsOf survey.now.graph.now survey.now.requests.now }
        requires place { place < length self.old.order }

        // The room has the distances that the request's path is compared by, and keeps them.
        requires found { CanCompareWith survey.now.graph.now survey.now.point.now
            (request_seen survey.now self.old place) self.old.room }
        ensures same { self.new ≡ record self.old {
          room = record self.old.room
              { path = self.new.room.path };
        } }

        // On Ok it is the request's cheapest rival, or None where its path leads.
        ensures rival { IfOk result (IsCheapestIfAny survey.now.graph.now survey.now.point.now
            (request_seen survey.now self.old place)) }
    {
        let outlook = self.outlook_at(survey, place);
        if !find_rival_at_hand(&outlook, &mut self.room) {
            return Ok(None);
        }
        let edges = Listed::from_slice(alloc, self.room.path())?;
        Ok(Some(edges))
    }

    /// The cheapest rival of each request, in the requests' order: None where every rival costs at least the path and
    /// the scale at the point. The distances to an end are looked for once, and serve each request with that end that
    /// excludes the same edges; its rival is laid out while they are there.
    ///
    /// # Errors
    ///
    /// `OutOfMemory`.
    pub fn cheapest_rivals(
        &mut self,
        alloc: Global,
        graph: &Graph,
        requests: &[Request],
        point: &Point,
    ) -> Result<Vec<Option<Listed<u32>>>, OutOfMemory>
        requires asker { IsAskerFor graph.now requests.now self.old }
        requires fits { FitsPoint graph.now point.now }
        requires requests { ArePathsOf graph.now requests.now }
        ensures asker { IsAskerFor graph.now requests.now self.new }
        ensures rivals { IfOk result (λ rivals. AreCheapestRivals graph.now point.now requests.now
            rivals.items) }
    {
        let survey = Survey {
            graph,
            requests,
            point,
        };
        let mut rivals = nothing_told(alloc, requests.len())?;
        let mut shared = None;
        for place in 0..self.places() {
            let ready = self.prepare(&survey, place, shared);
            let rival = self.rival_at(alloc, &survey, place)?;
            tell(&mut rivals, self.number_at(place), rival);
            shared = Some(ready);
        }
        Ok(rivals)
    }

    /// Whether the path of each request leads at a point by the scale. It ends at the first that doesn't, in the
    /// order, and takes no memory.
    pub fn each_leads(&mut self, graph: &Graph, requests: &[Request], point: &Point) -> bool
        requires asker { IsAskerFor graph.now requests.now self.old }
        requires fits { FitsPoint graph.now point.now }
        requires requests { ArePathsOf graph.now requests.now }
        ensures asker { IsAskerFor graph.now requests.now self.new }
        ensures leads { IsTrue result ↔ All (RequestLeads graph.now point.now) requests.now }
    {
        let survey = Survey {
            graph,
            requests,
            point,
        };
        let mut shared = None;
        for place in 0..self.places() {
            let ready = self.prepare(&survey, place, shared);
            if !self.leads_at(&survey, place) {
                return false;
            }
            shared = Some(ready);
        }
        true
    }
}
