//! `compare`: where the running area differs from its configurations.
ghost use Rattle.std.specs.Prelude.{◌≡◌, IfOk, map};
ghost use Rattle.std.specs.List.{list_all};
ghost use Rattle.path_requests.specs.Meaning.{present_cost};
ghost use Rattle.input_files.specs.declared.problem.View.TheVariants.{AtPresent};
ghost use Rattle.input_files.specs.Inputs.{InputFiles};
ghost use Rattle.input_files.specs.Networks.{IsNetworkOf};
ghost use Rattle.input_files.specs.Outcomes.{Input};
ghost use Rattle.input_files.specs.Readings.{Gave};
ghost use Rattle.input_files.specs.Stops.{IsReadAs, files_named};
ghost use Rattle.report_writer.specs.Reports.{bytes_in};
ghost use Rattle.live_area.specs.Differences.{difference_lines};
ghost use Rattle.database_commands.specs.Compares.{MayCompare, compare_read};
ghost use Rattle.database_commands.specs.Compares as definition;
ghost use Rattle.database_commands.specs.Compared.{ReportsLines, live_then, status_of_lines};

use crate::differences::text_of_lines;
use crate::identified::read_identified;
use cost_base::{OutOfMemory, Shelf, Status};
use input_files::{FileWords, Network, Stop};
use live_area::{Difference, compare};
use live_input::read_live_file;
use lsa_bytes::LsaDatabase;
use present_costs::costs_of_links;
use report_writer::Report;
use std::alloc::Global;

/// Whether a line counts all linked interfaces as those with a link of their present cost.
fn counts_all(line: &Difference) -> bool
    ensures { result ≡ definition.counts_all line.now }
{
    match *line {
        Difference::Same { same, linked } => same == linked,
        _ => false,
    }
}

/// Whether each line counts all linked interfaces as those with a link of their present cost.
fn each_counts_all(lines: &[Difference]) -> bool
    ensures { result ≡ list_all definition.counts_all lines.now }
{
    lines.iter().all(|line| counts_all(line))
}

/// Whether there is no line but the count, and the same number stands in it twice.
fn are_alike(lines: &[Difference]) -> bool
    ensures { result ≡ definition.are_alike lines.now }
{
    let count = each_counts_all(lines);
    lines.len() == 1 && count
}

/// The status of a comparison with these lines.
fn status_of(lines: &[Difference]) -> Status
    ensures { result ≡ status_of_lines lines.now }
{
    if are_alike(lines) {
        Status::Done
    } else {
        Status::Impossible
    }
}

/// The area that a network's request file names. For the prover: a call, so that the caller's goals have
/// this part alone.
fn area_of(network: &Network) -> u32
    ensures { result ≡ network.now.request_file.area }
{
    network.request_file.area
}

/// The report of a network beside the LSAs of its area that count.
fn comparison(alloc: Global, network: &Network, live: &LsaDatabase) -> Result<Report, OutOfMemory>
    ensures { IfOk result
        (ReportsLines network.now.lsdb (difference_lines network.now.configs.items network.now.lsdb
        (map (present_cost network.now.request_file) network.now.lsdb.links) live.now)) }
{
    let costs = costs_of_links(alloc, &network.request_file, &network.lsdb)?;
    let lines = compare(alloc, &network.configs, &network.lsdb, &costs, live)?;
    let text = text_of_lines(alloc, &network.lsdb, &lines)?;
    Ok(Report::made(status_of(&lines), text))
}

/// The report of a network beside a live file.
fn compare_live<'a, S: Shelf>(
    alloc: Global,
    network: &Network,
    live: &'a str,
    shelf: &mut S,
) -> Result<Report, Stop<'a>>
    ensures { (names : InputFiles) → (d : Input) → IsNetworkOf AtPresent names network.now d →
        Gave (S.gave shelf.old shelf.new) (λ came. IsReadAs (live_then live.now d) came
        (λ report said. MayCompare said report.status (bytes_in report.text)) result) }
{
    let database = read_live_file(alloc, shelf, live, area_of(network))?;
    let report = comparison(alloc, network, &database)?;
    Ok(report)
}

/// The report of where the running area of a live file differs from the files of words: a line for each difference, and
/// the count of the linked interfaces that have a link with their present cost.
///
/// # Errors
///
/// `Stop`: a file failed or is too long, or the input has a fault; a configuration has no router ID, or that of an
/// earlier one; the live file has a fault; want of memory.
pub fn compare_report<'a, S: Shelf>(
    alloc: Global,
    words: FileWords<'a>,
    live: &'a str,
    shelf: &mut S,
) -> Result<Report, Stop<'a>>
    ensures { Gave (S.gave shelf.old shelf.new) (λ came. IsReadAs
        (compare_read (files_named words.entry) live.now) came
        (λ report said. MayCompare said report.status (bytes_in report.text)) result) }
{
    let network = read_identified(alloc, words, shelf)?;
    let report = compare_live(alloc, &network, live, shelf);
    // For the prover alone: a call drops the network, so that its parts' drops aren't written out at each exit.
    drop(network);
    report
}
