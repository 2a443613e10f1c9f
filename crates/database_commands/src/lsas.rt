//! `lsas`: the LSAs of configurations at present costs.
ghost use Rattle.std.specs.Prelude.{◌≡◌, IfErr, IfOk};
ghost use Rattle.input_files.specs.declared.problem.View.TheVariants.{AtPresent};
ghost use Rattle.input_files.specs.Inputs.{InputFiles};
ghost use Rattle.input_files.specs.Networks.{IsNetworkOf};
ghost use Rattle.input_files.specs.Outcomes.{Input};
ghost use Rattle.input_files.specs.Readings.{Gave};
ghost use Rattle.input_files.specs.Stops.{IsReadAs, files_named};
ghost use Rattle.database_commands.specs.Identified.{HasRouterIds};
ghost use Rattle.database_commands.specs.Lsas.{AreWritten, MayLsas, identified_read};
ghost use Rattle.report_writer.specs.Reports.{bytes_in};

use crate::identified::read_identified;
use cost_base::{OutOfMemory, Shelf, Status};
use input_files::{FileWords, Network, Stop};
use lsa_writer::lsas_of;
use present_costs::costs_of_links;
use report_writer::Report;
use std::alloc::Global;

/// The LSAs of a network at present costs.
fn lsas_bytes(alloc: Global, network: &Network) -> Result<Vec<u8>, OutOfMemory>
    requires { HasRouterIds network.now }
    ensures { IfOk result (λ bytes. (names : InputFiles) → (d : Input) →
        IsNetworkOf AtPresent names network.now d → AreWritten d bytes.items) }
{
    let costs = costs_of_links(alloc, &network.request_file, &network.lsdb)?;
    lsas_of(alloc, &network.configs, &network.lsdb, &costs)
}

/// The report of the LSAs of a network at present costs.
fn report_of<'a>(alloc: Global, network: &Network) -> Result<Report, Stop<'a>>
    requires { HasRouterIds network.now }
    ensures made { IfOk result (λ report. (names : InputFiles) → (d : Input) →
        IsNetworkOf AtPresent names network.now d →
        MayLsas d report.status (bytes_in report.text)) }
    ensures wanting { IfErr result (λ stop. stop ≡ Stop.OutOfMemory) }
{
    let bytes = lsas_bytes(alloc, network)?;
    Ok(Report::lsas(Status::Done, bytes))
}

/// The report of the LSAs of the files of words.
///
/// # Errors
///
/// `Stop`: a file failed or is too long, or the input has a fault; a configuration has no router ID, or that of an
/// earlier one; want of memory.
pub fn lsas_report<'a, S: Shelf>(
    alloc: Global,
    words: FileWords<'a>,
    shelf: &mut S,
) -> Result<Report, Stop<'a>>
    ensures { Gave (S.gave shelf.old shelf.new) (λ came. IsReadAs
        (identified_read (files_named words.entry)) came (λ report d.
        MayLsas d report.status (bytes_in report.text)) result) }
{
    let network = read_identified(alloc, words, shelf)?;
    let report = report_of(alloc, &network);
    // For the prover alone: a call drops the network, so that its parts' drops aren't written out at each exit.
    drop(network);
    report
}
