//! The restricted problem of some requests.
ghost use Rattle.std.specs.Prelude.{◌≡◌, ℕ, ◌<◌, length, map, All, IfOk};
ghost use Rattle.std.specs.List.Sorted.{IsStrictlyIncreasing};
ghost use Rattle.design_problem.specs.Problems.{request_at, restricted};

use crate::{Problem, Request, VarName, var_name};
use area_graph::Path;
use cost_base::{Listed, OutOfMemory};
use std::alloc::Global;

/// A copy of a request.
fn copied_request(alloc: Global, request: &Request) -> Result<Request, OutOfMemory>
    ensures { IfOk result (λ copy. copy ≡ request.now) }
{
    let edges = request.path.edges.copy(alloc)?;
    let excluded = request.excluded.copy(alloc)?;
    let start = request.path.start;
    Ok(Request {
        path: Path { start, edges },
        end: request.end,
        excluded,
    })
}

/// Equal free interfaces, in the same order.
fn copied_names(alloc: Global, names: &[VarName]) -> Result<Vec<VarName>, OutOfMemory>
    ensures { IfOk result (λ copies. copies.items ≡ names.now) }
{
    let mut copies = Vec::new(alloc);
    for name in names {
        let (router, interface) = (name.router.as_bytes(), name.interface.as_bytes());
        copies.push(var_name(alloc, router, interface, name.var)?)?;
    }
    Ok(copies)
}

/// The requests of the members, in their order.
fn requests_of(
    alloc: Global,
    requests: &[Request],
    members: &[u32],
) -> Result<Vec<Request>, OutOfMemory>
    requires { All (λ m. m < length requests.now) members.now }
    ensures { IfOk result (λ kept. kept.items ≡ map (request_at requests.now) members.now) }
{
    let mut kept = Vec::new(alloc);
    for member in members {
        kept.push(copied_request(alloc, &requests[*member as usize])?)?;
    }
    Ok(kept)
}

impl Problem {
    /// The restricted problem of the members, which are numbers of requests in rising order: the same graph, variables
    /// and bounds, and only those requests.
    ///
    /// # Errors
    ///
    /// `OutOfMemory`.
    pub fn only(&self, alloc: Global, members: &[u32]) -> Result<Problem, OutOfMemory>
        requires rising { IsStrictlyIncreasing members.now }
        requires known { All (λ m. m < length self.now.requests) members.now }
        ensures { IfOk result (λ problem. problem ≡ restricted self.now members.now) }
    {
        let requests = requests_of(alloc, self.requests.as_slice(), members)?;
        let vars = copied_names(alloc, self.vars.as_slice())?;
        let low = self.low.copy(alloc)?;
        let high = self.high.copy(alloc)?;
        let graph = self.graph.copy(alloc)?;
        Ok(Problem {
            graph,
            vars: Listed::from_items(vars),
            low,
            high,
            requests: Listed::from_items(requests),
        })
    }
}
