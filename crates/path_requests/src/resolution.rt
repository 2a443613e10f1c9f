//! The problem that requests make of a database, or their first fault.
ghost use Rattle.std.specs.Prelude.{◌≡◌, ◌≤◌, nat_le, [], None, OnOk, IfOk, IfErr};
ghost use Rattle.std.specs.List.{filter_map};
ghost use Rattle.cost_base.specs.Lists.{first_of};
ghost use Rattle.wanted_paths.specs.Paths.{request_of};
ghost use Rattle.path_requests.specs.Meaning.{problem_of};
ghost use Rattle.path_requests.specs.Checked.{AreOwners};
ghost use Rattle.wanted_paths.specs.LineFaults.{fault_unless, line_faults, TellsResolution};
ghost use Rattle.path_requests.specs.Resolving.{whole_faults, resolution_fault, present_fault, present_problem_of};
ghost use Rattle.wanted_paths.specs.Paths.{outline};
ghost use Rattle.wanted_paths.specs.declared.fault.ResolutionFault.TheVariants.{TooManyVariables};

use crate::choices::{Choices, items};
use crate::costless::{check_costs, check_present};
use crate::present::assemble_present;
use crate::problems::assemble;
use crate::variables::{check_ends, own_links};
use cost_base::Refusal;
use design_problem::{Problem, Request};
use lsdb_build::Lsdb;
use request_reader::RequestFile;
use std::alloc::Global;
use wanted_paths::{Names, ResolutionFault, resolve_lines};

/// The most variables that a problem has.
const MOST_VARIABLES: usize = 1000;

/// Whether there are few enough variables.
fn check_count(count: usize) -> Result<(), Refusal<ResolutionFault, ()>>
    ensures made { OnOk result (fault_unless (nat_le count 1000) TooManyVariables ≡ []) }
    ensures few { OnOk result (count ≤ 1000) }
    ensures refused { IfErr result
        (TellsResolution (first_of (fault_unless (nat_le count 1000) TooManyVariables))) }
{
    if count > MOST_VARIABLES {
        return Err(Refusal::at((), ResolutionFault::TooManyVariables));
    }
    Ok(())
}

/// The links that have a variable of their own; the first fault after all lines.
fn check_whole(alloc: Global, choices: &Choices) -> Result<Vec<u32>, Refusal<ResolutionFault, ()>>
    ensures made { IfOk result (λ own. AreOwners choices.now.asked choices.now.database own.items) }
    ensures refused { IfErr result
        (TellsResolution (first_of (whole_faults choices.now.asked choices.now.database))) }
{
    check_ends(choices, items(choices.request_file()))?;
    let own = own_links(alloc, choices)?;
    check_count(own.len())?;
    check_costs(choices)?;
    Ok(own)
}

/// The problem of choices whose requests' lines have no fault, with their paths; the first fault after all lines.
fn resolve_choices(
    alloc: Global,
    choices: &Choices,
    requests: Vec<Request>,
) -> Result<Problem, Refusal<ResolutionFault, ()>>
    requires lines { line_faults choices.now.database choices.now.asked.items ≡ [] }
    requires requests { requests.items ≡ filter_map (λ item. request_of choices.now.database
        (outline choices.now.database) item.what) choices.now.asked.items }
    ensures made { IfOk result (λ p. (whole_faults choices.now.asked choices.now.database ≡ []) ×
        (p ≡ problem_of choices.now.asked choices.now.database)) }
    ensures refused { IfErr result
        (TellsResolution (first_of (whole_faults choices.now.asked choices.now.database))) }
{
    let own = check_whole(alloc, choices)?;
    Ok(assemble(alloc, choices, &own, requests)?)
}

/// The problem of a request file whose lines have no fault, with its paths; the first fault after all lines.
fn resolve_whole(
    alloc: Global,
    names: &Names,
    request_file: &RequestFile,
    requests: Vec<Request>,
) -> Result<Problem, Refusal<ResolutionFault, ()>>
    requires lines { line_faults names.now request_file.now.items ≡ [] }
    requires requests { requests.items ≡ filter_map (λ item. request_of names.now (outline
        names.now) item.what) request_file.now.items }
    ensures made { IfOk result (λ p. (whole_faults request_file.now names.now ≡ []) ×
        (p ≡ problem_of request_file.now names.now)) }
    ensures refused { IfErr result
        (TellsResolution (first_of (whole_faults request_file.now names.now))) }
{
    let choices = Choices::new(alloc, names, request_file)?;
    resolve_choices(alloc, &choices, requests)
}

/// The paths of a request file, whose lines have no fault; the first fault of a line.
fn resolve_paths(
    alloc: Global,
    names: &Names,
    request_file: &RequestFile,
) -> Result<Vec<Request>, Refusal<ResolutionFault, ()>>
    ensures made { IfOk result (λ made. (line_faults names.now request_file.now.items ≡ []) ×
        (made.items ≡ filter_map (λ item. request_of names.now (outline names.now) item.what)
        request_file.now.items)) }
    ensures refused { IfErr result
        (TellsResolution (first_of (line_faults names.now request_file.now.items))) }
{
    let outline = names.outline(alloc)?;
    resolve_lines(alloc, names, &outline, items(request_file))
}

/// `resolve` with the names of the area.
fn resolve_named(
    alloc: Global,
    names: &Names,
    request_file: &RequestFile,
) -> Result<Problem, Refusal<ResolutionFault, ()>>
    ensures made { IfOk result (λ p. (resolution_fault request_file.now names.now ≡ None) ×
        (p ≡ problem_of request_file.now names.now)) }
    ensures refused { IfErr result (TellsResolution (resolution_fault request_file.now names.now)) }
{
    let requests = resolve_paths(alloc, names, request_file)?;
    resolve_whole(alloc, names, request_file, requests)
}

/// `resolve_present` with the names of the area.
fn present_named(
    alloc: Global,
    names: &Names,
    request_file: &RequestFile,
) -> Result<Problem, Refusal<ResolutionFault, ()>>
    ensures made { IfOk result (λ p. (present_fault request_file.now names.now ≡ None) ×
        (p ≡ present_problem_of request_file.now names.now)) }
    ensures refused { IfErr result (TellsResolution (present_fault request_file.now names.now)) }
{
    let requests = resolve_paths(alloc, names, request_file)?;
    check_present(names, request_file)?;
    Ok(assemble_present(alloc, names, request_file, requests)?)
}

/// The problem that requests make of an area's routers and links: free interfaces have variables, and each wanted
/// path is one of the area's graph (RFC 2328, 16.1), with the edges that its line excludes.
///
/// # Errors
///
/// `Refused` with the first fault. Line by line: `UnknownRouter` and `UnknownInterface` for a word; `NotALink` for a
/// `symmetric` line; `BrokenPath`, `LoopPath` and `PathExcluded` for a path. After all lines: `EndsDiffer` at the first
/// `symmetric` line that names a link whose ends differ; `TooManyVariables`; `NoCost` at the first fixed link without
/// a present cost, where there is no default. `OutOfMemory` where memory runs out.
pub fn resolve(
    alloc: Global,
    request_file: &RequestFile,
    lsdb: &Lsdb,
) -> Result<Problem, Refusal<ResolutionFault, ()>>
    ensures made { IfOk result (λ p. (resolution_fault request_file.now lsdb.now ≡ None) ×
        (p ≡ problem_of request_file.now lsdb.now)) }
    ensures refused { IfErr result (TellsResolution (resolution_fault request_file.now lsdb.now)) }
{
    let names = Names::new(alloc, lsdb)?;
    resolve_named(alloc, &names, request_file)
}

/// The problem in which every interface is fixed at its present cost, or at the default, whatever the request file
/// frees: there is no variable, and the paths are those of `resolve`.
///
/// # Errors
///
/// As `resolve`, without `EndsDiffer` and `TooManyVariables`; `NoCost` comes at the first link without a present cost,
/// where there is no default.
pub fn resolve_present(
    alloc: Global,
    request_file: &RequestFile,
    lsdb: &Lsdb,
) -> Result<Problem, Refusal<ResolutionFault, ()>>
    ensures made { IfOk result (λ p. (present_fault request_file.now lsdb.now ≡ None) ×
        (p ≡ present_problem_of request_file.now lsdb.now)) }
    ensures refused { IfErr result (TellsResolution (present_fault request_file.now lsdb.now)) }
{
    let names = Names::new(alloc, lsdb)?;
    present_named(alloc, &names, request_file)
}
