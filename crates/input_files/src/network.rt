//! The network that the files of words make: the request file, the configurations, the topology, the problem.
ghost use Rattle.std.specs.Prelude.{◌≡◌, [], IfOk};
ghost use Rattle.input_files.specs.Readings.{Gave};
ghost use Rattle.input_files.specs.Outcomes.{outcome};
ghost use Rattle.input_files.specs.Stops.{IsReadAs, files_named};
ghost use Rattle.input_files.specs.Networks.{IsNetworkOf};

use crate::problem::{View, resolution, topology};
use crate::reading::{FileWords, read_configs, read_request};
use crate::stop::Stop;
use cost_base::Shelf;
use design_problem::Problem;
use interface_model::RouterConfig;
use lsdb_build::Lsdb;
use request_reader::RequestFile;
use std::alloc::Global;

/// A network as its files say it.
#[derive(Drop)]
pub struct Network {
    /// What the request file asks for.
    pub request_file: RequestFile,
    /// What the configurations say, in their order.
    pub configs: Vec<RouterConfig>,
    /// The routers, links and transit subnets of the area.
    pub lsdb: Lsdb,
    /// The problem that the request file makes of them.
    pub problem: Problem,
}

/// The network that the files of words make.
///
/// # Errors
///
/// `Stop`: a file failed or is too long, or the input has a fault; want of memory.
pub fn read_network<'a, S: Shelf>(
    alloc: Global,
    view: View,
    words: FileWords<'a>,
    shelf: &mut S,
) -> Result<Network, Stop<'a>>
    ensures present { IfOk result (λ network. view ≡ View.AtPresent → network.problem.low ≡ []) }
    ensures read { Gave (S.gave shelf.old shelf.new) (λ came. IsReadAs
        (outcome view (files_named words.entry)) came (IsNetworkOf view (files_named words.entry))
        result) }
{
    let request_file = read_request(alloc, shelf, words.request)?;
    let configs = read_configs(alloc, shelf, words.configs)?;
    let lsdb = topology(alloc, &configs, request_file.area, words)?;
    let problem = resolution(alloc, view, &request_file, &lsdb, words)?;
    Ok(Network {
        request_file,
        configs,
        lsdb,
        problem,
    })
}
