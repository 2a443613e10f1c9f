//! `change`: the fewest changes of present costs for the requests of the files of words.
ghost use Rattle.std.specs.Prelude.{◌≡◌, ℕ, ◌≤◌, IfErr, IfOk};
ghost use Rattle.wide_fraction.specs.SearchLimits.{limits_seen};
ghost use Rattle.input_files.specs.Readings.{Gave};
ghost use Rattle.input_files.specs.Outcomes.{outcome};
ghost use Rattle.input_files.specs.Stops.{IsReadAs, files_named};
ghost use Rattle.path_requests.specs.Meaning.{problem_of};
ghost use Rattle.present_costs.specs.PresentCosts.{present_of_variables};
ghost use Rattle.report_writer.specs.Reports.{Reports, bytes_in};
ghost use Rattle.least_change.specs.Changes.{IsChangeFound};
ghost use Rattle.change_commands.specs.Changes.{IsReportIn, MayChange, change_status, change_text};

use crate::change_text::{fewest_text, impossible_text, undecided_text};
use cost_base::{OutOfMemory, Shelf, Status};
use design_problem::{Problem, keeps_problem_on_graph};
use input_files::{FileWords, Network, Stop, View, read_network};
use least_change::{Change, change_count, find_change};
use present_costs::present_of_variables;
use printed_parts::keeps_greatest_bound;
use report_writer::Report;
use std::alloc::Global;
use wide_fraction::Limits;

/// The status of a run that prints this.
fn status_of(change: &Change) -> Status
    ensures { result ≡ change_status change.now }
{
    match change {
        Change::Fewest { .. } => Status::Done,
        Change::Impossible { .. } => Status::Impossible,
        Change::Undecided { .. } => Status::Undecided,
    }
}

/// The text of what was found of the changes of a network's present costs.
fn text_of_change(
    alloc: Global,
    network: &Network,
    present: &[Option<u16>],
    change: &Change,
) -> Result<Vec<u8>, OutOfMemory>
    requires built { network.now.problem ≡ problem_of network.now.request_file network.now.lsdb }
    requires present { present.now ≡ present_of_variables network.now.request_file
        network.now.lsdb }
    requires found { (top : ℕ) × (nodes : ℕ) × (nodes ≤ 10000000) ×
        IsChangeFound (record {
          problem = network.now.problem;
          present = present.now;
          top = top;
          nodes = nodes;
        }) change.now }
    ensures { IfOk result (λ text. text.items ≡ change_text network.now.request_file
        network.now.lsdb network.now.problem change.now) }
{
    keeps_problem_on_graph(&network.problem);
    keeps_greatest_bound(&network.problem);
    match change {
        Change::Fewest { costs, evidence } => {
            let count = change_count(present, costs.as_slice());
            fewest_text(alloc, network, count, costs, evidence)
        }
        Change::Impossible { rows, tree } => {
            impossible_text(alloc, &network.problem, rows.as_slice(), tree)
        }
        Change::Undecided {
            costs,
            evidence,
            undecided,
        } => undecided_text(alloc, network, costs.as_ref(), evidence, undecided.as_ref()),
    }
}

/// The report of what was found of the changes of a network's present costs.
fn report_of_change(
    alloc: Global,
    network: &Network,
    present: &[Option<u16>],
    change: &Change,
) -> Result<Report, OutOfMemory>
    requires built { network.now.problem ≡ problem_of network.now.request_file network.now.lsdb }
    requires present { present.now ≡ present_of_variables network.now.request_file
        network.now.lsdb }
    requires found { (top : ℕ) × (nodes : ℕ) × (nodes ≤ 10000000) ×
        IsChangeFound (record {
          problem = network.now.problem;
          present = present.now;
          top = top;
          nodes = nodes;
        }) change.now }
    ensures { IfOk result
        (Reports (change_status change.now) (change_text network.now.request_file network.now.lsdb
        network.now.problem change.now)) }
{
    let text = text_of_change(alloc, network, present, change)?;
    Ok(Report::made(status_of(change), text))
}

/// The report of the changes of a network's present costs, which are these.
fn report_of_present(
    alloc: Global,
    network: &Network,
    present: &[Option<u16>],
    limits: &Limits,
) -> Result<Report, OutOfMemory>
    requires built { network.now.problem ≡ problem_of network.now.request_file network.now.lsdb }
    requires present { present.now ≡ present_of_variables network.now.request_file
        network.now.lsdb }
    ensures { IfOk result (IsReportIn (limits_seen limits.now) network.now.request_file
        network.now.lsdb network.now.problem) }
{
    keeps_greatest_bound(&network.problem);
    let change = find_change(alloc, &network.problem, present, limits)?;
    let report = report_of_change(alloc, network, present, &change);
    // For the prover alone: a call drops the change, so that its parts' drops aren't written out at each exit.
    drop(change);
    report
}

/// The report of the changes of a network's present costs.
fn report_of_network<'a>(
    alloc: Global,
    network: &Network,
    limits: &Limits,
) -> Result<Report, Stop<'a>>
    requires { network.now.problem ≡ problem_of network.now.request_file network.now.lsdb }
    ensures made { IfOk result (IsReportIn (limits_seen limits.now) network.now.request_file
        network.now.lsdb network.now.problem) }
    ensures wanting { IfErr result (λ stop. stop ≡ Stop.OutOfMemory) }
{
    let costs = present_of_variables(
        alloc,
        &network.request_file,
        &network.lsdb,
        &network.problem,
    )?;
    Ok(report_of_present(alloc, network, costs.as_slice(), limits)?)
}

/// The report of `change` from the files of words: the text of what was found, with status 0 where it is fit costs that
/// change as few variables of the present costs as any, 1 where no costs are fit, and 2 where the budget was used up.
///
/// # Errors
///
/// The first fault of the files, the file that failed, or want of memory.
pub fn change_report<'a, S: Shelf>(
    alloc: Global,
    words: FileWords<'a>,
    limits: &Limits,
    shelf: &mut S,
) -> Result<Report, Stop<'a>>
    ensures { Gave (S.gave shelf.old shelf.new)
        (λ came. IsReadAs (outcome View.BesidePresent (files_named words.entry)) came
        (λ report d. MayChange (limits_seen limits.now) d report.status (bytes_in report.text))
        result) }
{
    let network = read_network(alloc, View::BesidePresent, words, shelf)?;
    let report = report_of_network(alloc, &network, limits);
    // For the prover alone: a call drops the network, so that its parts' drops aren't written out at each exit.
    drop(network);
    report
}
