//! The problem that the files of words make: the request file, the configurations, the topology, resolution.
ghost use Rattle.std.specs.Prelude.{◌≡◌, None, ℕ, List, [], IfOk, IfErr};
ghost use Rattle.lsdb_build.specs.Graphs.{IsAreaDatabase};
ghost use Rattle.wanted_paths.specs.LineFaults.{TellsResolution};
ghost use Rattle.input_files.specs.Readings.{Gave};
ghost use Rattle.input_files.specs.Outcomes.{outcome, topology_read, topology_refused, problem_read, viewed_fault, viewed_problem, file_of, resolution_place, resolution_refused};
ghost use Rattle.input_files.specs.Stops.{IsReadAs, IsStopOf, files_named};

use crate::network::read_network;
use crate::reading::FileWords;
use crate::stop::{Stop, stop_of};
use cost_base::{Refusal, Shelf};
use design_problem::Problem;
use interface_model::RouterConfig;
use lsdb_build::{ConfigLine, Lsdb, TopologyFault, build};
use path_requests::{resolve, resolve_present};
use present_costs::resolve_beside_present;
use request_reader::RequestFile;
use std::alloc::Global;
use wanted_paths::ResolutionFault;

/// Which interfaces of a problem are free: those that the request file frees, or none, as each stands at present.
/// With it goes which interfaces need a cost line where there is no default.
#[derive(Clone, Copy)]
pub enum View {
    /// The interfaces that the request file frees are free. The others need a cost.
    AsRequested,
    /// The interfaces that the request file frees are free, beside what they cost at present: every linked interface
    /// needs a cost, free or not.
    BesidePresent,
    /// None is free: every interface stands at its present cost or the default, so each needs one.
    AtPresent,
}

/// The file of a router's configuration.
pub fn file_of(words: FileWords<'_>, router: u32) -> &str
    ensures { result.now ≡ file_of (files_named words.entry) router }
{
    match words.configs.get(router as usize) {
        Some(file) => file.as_str(),
        None => words.request,
    }
}

/// The stop of a topology that is refused.
fn stop_of_topology(refusal: Refusal<TopologyFault, ConfigLine>, words: FileWords<'_>) -> Stop<'_>
    ensures { IsStopOf (topology_refused (files_named words.entry)) refusal result }
{
    match refusal {
        Refusal::Refused { fault, place } => {
            stop_of(Refusal::at(place.line, fault), file_of(words, place.config))
        }
        Refusal::OutOfMemory => Stop::OutOfMemory,
    }
}

/// The topology of configurations.
pub(crate) fn topology<'a>(
    alloc: Global,
    configs: &[RouterConfig],
    area: u32,
    words: FileWords<'a>,
) -> Result<Lsdb, Stop<'a>>
    ensures { IsReadAs (topology_read (files_named words.entry) area configs.now) []
        (λ d read. d ≡ read) result }
{
    match build(alloc, configs, area) {
        Ok(lsdb) => Ok(lsdb),
        Err(refusal) => Err(stop_of_topology(refusal, words)),
    }
}

/// The place of a fault of resolution: the file, and the line in it. An interface without a cost is refused at its
/// first head, any other fault in the request file.
fn place_of<'a>(fault: ResolutionFault, lsdb: &Lsdb, words: FileWords<'a>) -> (&'a str, u32)
    ensures { resolution_place (files_named words.entry) lsdb.now fault ≡
        record { file = result.0.now; line = result.1 } }
{
    match fault {
        ResolutionFault::NoCost { link } => match lsdb.links.as_slice().get(link as usize) {
            Some(link) => (file_of(words, link.router), link.line),
            None => (words.request, 0),
        },
        fault => (words.request, fault.line()),
    }
}

/// The stop of a request file that isn't resolved.
pub(crate) fn stop_of_resolution<'a>(
    refusal: Refusal<ResolutionFault, ()>,
    lsdb: &Lsdb,
    words: FileWords<'a>,
) -> Stop<'a>
    ensures { IsStopOf (λ fault _. resolution_refused (files_named words.entry) lsdb.now fault)
        refusal result }
{
    match refusal {
        Refusal::Refused { fault, place: () } => {
            let (file, line) = place_of(fault, lsdb, words);
            stop_of(Refusal::at(line, fault), file)
        }
        Refusal::OutOfMemory => Stop::OutOfMemory,
    }
}

/// The problem that a request file makes of a topology, or its first fault.
fn resolve_in(
    alloc: Global,
    view: View,
    request_file: &RequestFile,
    lsdb: &Lsdb,
) -> Result<Problem, Refusal<ResolutionFault, ()>>
    ensures made { IfOk result (λ p. (viewed_fault view request_file.now lsdb.now ≡ None) ×
        (p ≡ viewed_problem view request_file.now lsdb.now)) }
    ensures refused { IfErr result
        (TellsResolution (viewed_fault view request_file.now lsdb.now)) }
{
    match view {
        View::AsRequested => resolve(alloc, request_file, lsdb),
        View::BesidePresent => resolve_beside_present(alloc, request_file, lsdb),
        View::AtPresent => resolve_present(alloc, request_file, lsdb),
    }
}

/// The problem that a request file makes of a topology.
pub(crate) fn resolution<'a>(
    alloc: Global,
    view: View,
    request_file: &RequestFile,
    lsdb: &Lsdb,
    words: FileWords<'a>,
) -> Result<Problem, Stop<'a>>
    ensures present { IfOk result (λ p. view ≡ View.AtPresent → p.low ≡ []) }
    ensures read { IsReadAs (problem_read view (files_named words.entry) request_file.now lsdb.now)
        [] (λ p read. p ≡ read) result }
{
    match resolve_in(alloc, view, request_file, lsdb) {
        Ok(problem) => Ok(problem),
        Err(refusal) => Err(stop_of_resolution(refusal, lsdb, words)),
    }
}

/// The problem that a request file makes of a topology at present costs.
///
/// # Errors
///
/// `Stop`: a line of the request file can't be resolved, or an interface has no cost; want of memory.
pub fn resolution_at_present<'a>(
    alloc: Global,
    request_file: &RequestFile,
    lsdb: &Lsdb,
    words: FileWords<'a>,
) -> Result<Problem, Stop<'a>>
    ensures present { IfOk result (λ p. p.low ≡ []) }
    ensures read { IsReadAs (problem_read View.AtPresent (files_named words.entry) request_file.now
        lsdb.now) [] (λ p read. p ≡ read) result }
{
    resolution(alloc, View::AtPresent, request_file, lsdb, words)
}

/// The problem that the files of words make.
///
/// # Errors
///
/// `Stop`: a file failed or is too long, or the input has a fault; want of memory.
pub fn read_problem<'a, S: Shelf>(
    alloc: Global,
    view: View,
    words: FileWords<'a>,
    shelf: &mut S,
) -> Result<Problem, Stop<'a>>
    ensures present { IfOk result (λ p. view ≡ View.AtPresent → p.low ≡ []) }
    ensures read { Gave (S.gave shelf.old shelf.new) (λ came. IsReadAs
        (outcome view (files_named words.entry)) came (λ p d. (d.problem ≡ p) ×
        IsAreaDatabase d.database) result) }
{
    let network = read_network(alloc, view, words, shelf)?;
    Ok(network.problem)
}
