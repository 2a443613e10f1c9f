//! `steps`: an order of the changes to a text's costs that keeps wanted paths in place.
ghost use Rattle.std.specs.Prelude.{◌≡◌, ℕ, ◌<◌, ◌≤◌, Some, All, IfOk, length};
ghost use Rattle.area_graph.specs.Costs.{IsPriced};
ghost use Rattle.rival_separation.specs.Askers.{ArePathsOf};
ghost use Rattle.sections_reader.specs.Texts.{FitLines, SaysCosts};
ghost use Rattle.present_costs.specs.AtCosts.{graph_by_links};
ghost use Rattle.present_costs.specs.PresentCosts.{present_of_links};
ghost use Rattle.change_steps.specs.Outcomes.{AreStepsFound};
ghost use Rattle.input_files.specs.declared.problem.View.TheVariants.{AtPresent};
ghost use Rattle.input_files.specs.Inputs.{InputFiles};
ghost use Rattle.input_files.specs.Networks.{IsNetworkOf};
ghost use Rattle.input_files.specs.Outcomes.{Input, longest_answer};
ghost use Rattle.input_files.specs.Readings.{Gave};
ghost use Rattle.input_files.specs.Stops.{IsReadAs, files_named};
ghost use Rattle.report_writer.specs.Reports.{Reports, bytes_in};
ghost use Rattle.change_commands.specs.WantedMoves.{IsAtPresent, IsStepsInputOf, StepsInput, moves_between, steps_read, steps_with};
ghost use Rattle.change_commands.specs.Steps.{MaySteps, ReportsSteps, outcome_status, steps_text};

use crate::step_text::text_of_steps;
use crate::wanted_moves::{moves_to, wanted_costs};
use change_steps::{Moves, Outcome, Steps, find_steps};
use command_words::StepUnit;
use cost_base::{Listed, OutOfMemory, Shelf, Status};
use design_problem::{CostLine, Problem, Request};
use input_files::{FileWords, Network, Stop, View, read_answer_file, read_network};
use present_costs::{costs_of_links, priced_by_links};
use report_writer::{Rejection, Report, rejection_of};
use sections_reader::{CostsFault, read_costs};
use std::alloc::Global;
use wanted_paths::Names;

/// What `steps` is asked besides its network: the file of the text with the costs, how many states may be tested, and
/// what one step is.
#[derive(Clone, Copy)]
pub struct StepsWords<'a> {
    /// The file of the text with the costs.
    pub answer: &'a str,
    /// How many states may be tested.
    pub nodes: u32,
    /// What one step is: a cost line, or all lines of a router.
    pub by: StepUnit,
}

/// The status of a run that prints this.
fn status_of(outcome: &Outcome) -> Status
    ensures { result ≡ outcome_status outcome.now }
{
    match outcome {
        Outcome::Order(_) => Status::Done,
        Outcome::NoOrder(_) => Status::Impossible,
        Outcome::Undecided(_) => Status::Undecided,
    }
}

/// The requests of a problem. For the prover: a call, so that the caller's goals have this part alone.
fn requests_of(problem: &Problem) -> &[Request]
    ensures { result.now ≡ problem.now.requests }
{
    problem.requests.as_slice()
}

/// What is found of the steps of moves.
fn steps_of_moves(
    alloc: Global,
    network: &Network,
    moves: &Moves,
    nodes: u32,
) -> Result<Steps, OutOfMemory>
    requires priced { All (λ edge. IsPriced (length moves.now.present) edge.price)
        (graph_by_links network.now.lsdb).edges }
    requires requests { ArePathsOf (graph_by_links network.now.lsdb) network.now.problem.requests }
    requires few { length network.now.problem.requests ≤ 10000 }
    ensures { IfOk result
        (AreStepsFound (record {
          graph = graph_by_links network.now.lsdb;
          requests = network.now.problem.requests;
          moves = moves.now;
        }) nodes) }
{
    let graph = priced_by_links(alloc, &network.lsdb)?;
    let steps = find_steps(alloc, &graph, requests_of(&network.problem), moves, nodes);
    // For the prover alone: a call drops the graph, so that its parts' drops aren't written out at each exit.
    drop(graph);
    steps
}

/// The report of what was found of the steps of moves.
fn report_of_steps(
    alloc: Global,
    by: StepUnit,
    names: &Names,
    moves: &Moves,
    steps: &Steps,
) -> Result<Report, OutOfMemory>
    ensures { IfOk result (Reports (outcome_status steps.now.outcome)
        (steps_text by names.now moves.now steps.now)) }
{
    let text = text_of_steps(alloc, by, names, moves, steps)?;
    Ok(Report::made(status_of(&steps.outcome), text))
}

/// The report of the steps of moves.
fn report_of_moves(
    alloc: Global,
    network: &Network,
    names: &Names,
    moves: &Moves,
    words: StepsWords,
) -> Result<Report, OutOfMemory>
    requires priced { All (λ edge. IsPriced (length moves.now.present) edge.price)
        (graph_by_links network.now.lsdb).edges }
    requires requests { ArePathsOf (graph_by_links network.now.lsdb) network.now.problem.requests }
    requires few { length network.now.problem.requests ≤ 10000 }
    ensures { IfOk result (ReportsSteps words.entry.nodes words.entry.by names.now
        (record {
          graph = graph_by_links network.now.lsdb;
          requests = network.now.problem.requests;
          moves = moves.now;
        })) }
{
    let steps = steps_of_moves(alloc, network, moves, words.nodes)?;
    let report = report_of_steps(alloc, words.by, names, moves, &steps);
    // For the prover alone: a call drops the steps, so that their parts' drops aren't written out at each exit.
    drop(steps);
    report
}

/// The report of the steps from the present costs to these wanted ones.
fn report_of_wanted(
    network: &Network,
    names: &Names,
    present: Vec<u16>,
    wanted: Vec<u16>,
    words: StepsWords,
) -> Result<Report, OutOfMemory>
    // The network is at its present costs, and has the database of the names.
    requires network { IsAtPresent network.now }
    requires names { names.now ≡ network.now.lsdb }
    requires present { present.items ≡ present_of_links network.now.request_file network.now.lsdb }

    // Each link has a wanted cost, at least 1.
    requires wanted { length wanted.items ≡ length names.now.links }
    requires positive { All (λ cost. 0 < cost) wanted.items }

    // The report is of the rollout between these costs.
    ensures { IfOk result (ReportsSteps words.entry.nodes words.entry.by names.now
        (record {
          graph = graph_by_links network.now.lsdb;
          requests = network.now.problem.requests;
          moves = moves_between words.entry.by names.now present.items wanted.items;
        })) }
{
    network.problem.keeps_conditions();
    let alloc = *present.allocator();
    let moves = moves_to(alloc, words.by, names, present, wanted)?;
    let report = report_of_moves(alloc, network, names, &moves, words);
    // For the prover alone: a call drops the moves, so that their parts' drops aren't written out at each exit.
    drop(moves);
    report
}

/// The report of the steps to the costs of lines, with the names of the area.
fn report_by_names(
    alloc: Global,
    network: &Network,
    names: &Names,
    lines: &[CostLine],
    words: StepsWords,
) -> Result<Report, OutOfMemory>
    requires network { IsAtPresent network.now }
    requires names { names.now ≡ network.now.lsdb }
    requires lines { All (λ line. 0 < line.cost) lines.now }
    ensures { IfOk result (λ report. (handed : StepsInput) → IsStepsInputOf network.now handed →
        SaysCosts handed.bytes (Some lines.now) → MaySteps words.entry.nodes words.entry.by handed
        report.status (bytes_in report.text)) }
{
    let present = costs_of_links(alloc, &network.request_file, &network.lsdb)?;
    match wanted_costs(alloc, names, &present, lines)? {
        Ok(wanted) => report_of_wanted(network, names, present, wanted, words),
        Err(fault) => Report::rejected(alloc, Rejection::at(0, fault)),
    }
}

/// The report of the steps to the costs of lines.
fn report_of_lines(
    alloc: Global,
    network: &Network,
    lines: &[CostLine],
    words: StepsWords,
) -> Result<Report, OutOfMemory>
    requires network { IsAtPresent network.now }
    requires lines { All (λ line. 0 < line.cost) lines.now }
    ensures { IfOk result (λ report. (handed : StepsInput) → IsStepsInputOf network.now handed →
        SaysCosts handed.bytes (Some lines.now) → MaySteps words.entry.nodes words.entry.by handed
        report.status (bytes_in report.text)) }
{
    let names = Names::new(alloc, &network.lsdb)?;
    let report = report_by_names(alloc, network, &names, lines, words);
    // For the prover alone: a call drops the names, so that their parts' drops aren't written out at each exit.
    drop(names);
    report
}

/// The report of the steps to the costs of a text, where it has costs.
fn report_of_costs(
    alloc: Global,
    network: &Network,
    costs: Option<Listed<CostLine>>,
    words: StepsWords,
) -> Result<Report, OutOfMemory>
    requires network { IsAtPresent network.now }
    requires lines { FitLines costs }
    ensures { IfOk result (λ report. (handed : StepsInput) → IsStepsInputOf network.now handed →
        SaysCosts handed.bytes costs → MaySteps words.entry.nodes words.entry.by handed
        report.status (bytes_in report.text)) }
{
    match costs {
        Some(lines) => report_of_lines(alloc, network, lines.as_slice(), words),
        None => Report::rejected(alloc, Rejection::at(0, CostsFault::NoCosts)),
    }
}

/// The report of the steps to the costs of a text.
fn report_of_text(
    alloc: Global,
    network: &Network,
    bytes: &[u8],
    words: StepsWords,
) -> Result<Report, OutOfMemory>
    requires network { IsAtPresent network.now }
    requires within { length bytes.now ≤ longest_answer }
    ensures { IfOk result (λ report. (handed : StepsInput) → IsStepsInputOf network.now handed →
        handed.bytes ≡ bytes.now → MaySteps words.entry.nodes words.entry.by handed report.status
        (bytes_in report.text)) }
{
    match read_costs(alloc, bytes) {
        Ok(costs) => report_of_costs(alloc, network, costs, words),
        Err(stop) => Report::rejected(alloc, rejection_of(stop)?),
    }
}

/// The report of `steps` of a network that was read, and of the text with the costs.
fn report_by_file<'a, S: Shelf>(
    alloc: Global,
    network: &Network,
    words: StepsWords<'a>,
    shelf: &mut S,
) -> Result<Report, Stop<'a>>
    requires { IsAtPresent network.now }
    ensures { (names : InputFiles) → (d : Input) → IsNetworkOf AtPresent names network.now d →
        Gave (S.gave shelf.old shelf.new) (λ came. IsReadAs
        (steps_with words.entry.answer.now d) came
        (λ report handed. MaySteps words.entry.nodes words.entry.by handed report.status
        (bytes_in report.text)) result) }
{
    let bytes = read_answer_file(alloc, shelf, words.answer)?;
    Ok(report_of_text(alloc, network, &bytes, words)?)
}

/// The report of `steps` from the files of words, and after them the text with the costs: an order of its lines, or of
/// its routers, in which each path that is the only cheapest before and after stays so after each step; that there is
/// none; or that the budget of states was used up.
///
/// # Errors
///
/// `Stop`: a file failed or is too long, or the input has a fault; want of memory.
pub fn steps_report<'a, S: Shelf>(
    alloc: Global,
    files: FileWords<'a>,
    words: StepsWords<'a>,
    shelf: &mut S,
) -> Result<Report, Stop<'a>>
    ensures { Gave (S.gave shelf.old shelf.new) (λ came. IsReadAs
        (steps_read (files_named files.entry) words.entry.answer.now) came
        (λ report handed. MaySteps words.entry.nodes words.entry.by handed report.status
        (bytes_in report.text)) result) }
{
    let network = read_network(alloc, View::AtPresent, files, shelf)?;
    let report = report_by_file(alloc, &network, words, shelf);
    // For the prover alone: a call drops the network, so that its parts' drops aren't written out at each exit.
    drop(network);
    report
}
