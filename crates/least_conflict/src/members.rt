//! Sets of requests, as their numbers in rising order.
ghost use Rattle.std.specs.Prelude.{◌≡◌, ◌<◌, length, IfOk};
ghost use Rattle.std.specs.List.{remove};
ghost use Rattle.least_conflict.specs.Conflicts.{all_requests};

use cost_base::OutOfMemory;
use design_problem::Problem;
use std::alloc::Global;

/// The numbers of all requests of a problem, in rising order.
///
/// # Errors
///
/// `OutOfMemory`.
pub fn all_requests(alloc: Global, problem: &Problem) -> Result<Vec<u32>, OutOfMemory>
    ensures { IfOk result (λ all. all.items ≡ all_requests problem.now) }
{
    let mut all = Vec::new(alloc);
    for request in 0..problem.requests.as_slice().len() {
        all.push(request as u32)?;
    }
    Ok(all)
}

/// The members without the one at a place.
pub(crate) fn without_one(
    alloc: Global,
    members: &[u32],
    place: usize,
) -> Result<Vec<u32>, OutOfMemory>
    requires { place < length members.now }
    ensures { IfOk result (λ rest. rest.items ≡ remove members.now place) }
{
    let mut rest = Vec::from_slice(alloc, members)?;
    rest.remove(place);
    Ok(rest)
}
