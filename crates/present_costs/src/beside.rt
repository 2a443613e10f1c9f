//! The problem of a request file in an area where each link has a present cost, or its first fault.
ghost use Rattle.std.specs.Prelude.{◌≡◌, Some, None, IfOk, IfErr};
ghost use Rattle.wanted_paths.specs.LineFaults.{TellsResolution};
ghost use Rattle.path_requests.specs.Meaning.{problem_of};
ghost use Rattle.path_requests.specs.Resolving.{resolution_fault};
ghost use Rattle.present_costs.specs.PresentCosts.{fault_beside_present};

use cost_base::Refusal;
use design_problem::Problem;
use lsdb_build::Lsdb;
use path_requests::{first_without_cost, resolve};
use request_reader::RequestFile;
use std::alloc::Global;
use wanted_paths::ResolutionFault;

/// The first fault beside present costs, where this is the first one of `resolve`: a fixed link without a cost gives
/// way to the first link without one.
fn fault_beside_present(
    request_file: &RequestFile,
    lsdb: &Lsdb,
    fault: ResolutionFault,
) -> ResolutionFault
    requires { resolution_fault request_file.now lsdb.now ≡ Some fault }
    ensures { fault_beside_present request_file.now lsdb.now ≡ Some result }
{
    match fault {
        ResolutionFault::NoCost { .. } => match first_without_cost(request_file, lsdb) {
            Some(first) => first,
            None => fault,
        },
        _ => fault,
    }
}

/// What stops the resolution beside present costs, where this stops `resolve`.
fn refusal_beside_present(
    request_file: &RequestFile,
    lsdb: &Lsdb,
    refusal: Refusal<ResolutionFault, ()>,
) -> Refusal<ResolutionFault, ()>
    requires { TellsResolution (resolution_fault request_file.now lsdb.now) refusal }
    ensures { TellsResolution (fault_beside_present request_file.now lsdb.now) result }
{
    refusal.and_then(|fault, place| {
        Refusal::at(place, fault_beside_present(request_file, lsdb, fault))
    })
}

/// The problem that a request file makes of an area's routers and links, as `resolve` makes it, where each link has a
/// present cost, free or not: a cost line, or the default of the request file.
///
/// # Errors
///
/// `Refused` with the first fault. The faults of the lines come first, then `EndsDiffer` and `TooManyVariables`, as in
/// `resolve`; `NoCost` comes at the first link without a present cost, where there is no default. `OutOfMemory` where
/// memory runs out.
#[tactic(auto, using(crate::proofs::FaultsBeside::beside_resolved))]
pub fn resolve_beside_present(
    alloc: Global,
    request_file: &RequestFile,
    lsdb: &Lsdb,
) -> Result<Problem, Refusal<ResolutionFault, ()>>
    ensures made { IfOk result (λ p. (fault_beside_present request_file.now lsdb.now ≡ None) ×
        (p ≡ problem_of request_file.now lsdb.now)) }
    ensures refused { IfErr result (TellsResolution (fault_beside_present request_file.now
        lsdb.now)) }
{
    match resolve(alloc, request_file, lsdb) {
        Ok(problem) => match first_without_cost(request_file, lsdb) {
            None => Ok(problem),
            Some(fault) => Err(Refusal::at((), fault)),
        },
        Err(refusal) => Err(refusal_beside_present(request_file, lsdb, refusal)),
    }
}
