//! From a job to its report: each command's function stands in the crate of its kind.
ghost use Rattle.std.specs.Prelude.{◌≡◌, ◌≤◌, ◌<◌, ◌^◌, [], IfOk, Some, option_map, string_bytes};
ghost use Rattle.form_search.specs.AdvisorsAsked.{AreCalled};
ghost use Rattle.text_lines.specs.Arguments.{texts};
ghost use Rattle.command_words.specs.Jobs.{Audit, IsInRange, Spread, Steps, Trial, search_seen, seen};
ghost use Rattle.help_texts.specs.Texts.{help_text, version_text};
ghost use Rattle.input_files.specs.Readings.{Gave};
ghost use Rattle.input_files.specs.Stops.{files_named};
ghost use Rattle.report_writer.specs.Reports.{bytes_in};
ghost use Rattle.designer_command.specs.AdvisorsAsked.{AreAskedBy, IsMadeAsking};
ghost use Rattle.designer_command.specs.Runs.{IsMadeAs, IsTold, IsTried, input_files_of, searched};

use change_commands::{StepsWords, change_report, steps_report};
use command_words::{CommandName, Job, Search, StepUnit};
use cost_base::{Shelf, Status};
use cut_advisors::Advisor;
use database_commands::{compare_report, lsas_report, route_report};
use design_commands::{TrialNumbers, design_report, total_report, trial_report};
use evidence_commands::{check_report, rewrite_report};
use help_texts::{help_text, version_text};
use input_files::{FileWords, Stop};
use path_commands::{audit_live_report, audit_report, conflict_report, spread_report};
use report_writer::{Report, Text};
use std::alloc::Global;

/// A request file and configurations.
fn files<'a>(request: &'a str, configs: &'a [String]) -> FileWords<'a>
    ensures { files_named result ≡ input_files_of request.now (texts configs.now) }
{
    FileWords { request, configs }
}

/// The files that a search is asked about.
fn words<'a>(search: &'a Search) -> FileWords<'a>
    ensures { files_named result ≡ searched (search_seen search.now) }
{
    files(&search.request, &search.configs)
}

/// What `steps` is asked besides its network.
fn wanted<'a>(answer: &'a str, nodes: u32, by: StepUnit) -> StepsWords<'a>
    ensures answer { result.answer.now ≡ answer.now }
    ensures nodes { result.nodes ≡ nodes }
    ensures by { result.by ≡ by }
{
    StepsWords { answer, nodes, by }
}

/// What `spread` makes of a search, with a file of sets.
fn made_spread<'a, S: Shelf>(
    alloc: Global,
    search: &'a Search,
    sets: &'a str,
    shelf: &mut S,
) -> Result<Report, Stop<'a>>
    ensures { Gave (S.gave shelf.old shelf.new) (λ came. IsMadeAs
        (Spread (search_seen search.now) sets.now) came result) }
{
    spread_report(alloc, words(search), sets, &search.limits, shelf)
}

/// What `trial` makes: no file is read, and only want of memory stops it.
fn made_trial<'a>(
    alloc: Global,
    blocks: u32,
    start: u32,
    advisors: &mut Vec<Box<dyn Advisor>>,
) -> Result<Report, Stop<'a>>
    // The words are within their ranges.
    requires some { 1 ≤ blocks }
    requires most { blocks ≤ 125 }
    requires start { start < 2 ^ 31 }

    // The report tells of the trial that they make, and the advisors were asked by its searches.
    ensures made { IsTried blocks start result }
    ensures asked { IfOk result (λ report. AreAskedBy ⟦<dyn Advisor as Advisor>⟧ (λ b. b.vtable)
        (λ b. state b) advisors.old.items advisors.new.items (Some (Trial blocks start)) []
        (bytes_in report.text)) }
    ensures advisors { AreCalled ⟦<dyn Advisor as Advisor>⟧ (λ b. b.vtable) (λ b. state b)
        advisors.old.items advisors.new.items }
{
    Ok(trial_report(alloc, TrialNumbers { blocks, start }, advisors)?)
}

/// What `audit` makes: at present costs, or with a live file at those of the running area.
fn made_audit<'a, S: Shelf>(
    alloc: Global,
    request: &'a str,
    live: &'a Option<String>,
    configs: &'a [String],
    shelf: &mut S,
) -> Result<Report, Stop<'a>>
    ensures { Gave (S.gave shelf.old shelf.new) (λ came. IsMadeAs
        (Audit request.now (option_map string_bytes live.now) (texts configs.now)) came result) }
{
    match live {
        Some(live) => audit_live_report(alloc, files(request, configs), live, shelf),
        None => audit_report(alloc, files(request, configs), shelf),
    }
}

/// What `steps` makes of a request file, what it is asked besides, and configurations.
fn made_steps<'a, S: Shelf>(
    alloc: Global,
    request: &'a str,
    wanted: StepsWords<'a>,
    configs: &'a [String],
    shelf: &mut S,
) -> Result<Report, Stop<'a>>
    ensures { Gave (S.gave shelf.old shelf.new) (λ came. IsMadeAs
        (Steps request.now wanted.entry.answer.now wanted.entry.nodes wanted.entry.by (texts configs.now))
        came result) }
{
    steps_report(alloc, files(request, configs), wanted, shelf)
}

/// What `help` makes: no file is read.
fn told_help<'a>(topic: Option<CommandName>) -> Result<Report, Stop<'a>>
    ensures { IsTold (help_text topic) result }
{
    Ok(Report {
        status: Status::Done,
        text: Text::Fixed(help_text(topic)),
    })
}

/// What `version` makes: no file is read.
fn told_version<'a>() -> Result<Report, Stop<'a>>
    ensures { IsTold version_text result }
{
    Ok(Report {
        status: Status::Done,
        text: Text::Fixed(version_text()),
    })
}

/// What a job's command makes: its report, or what stopped it.
pub(crate) fn job_report<'a, S: Shelf>(
    alloc: Global,
    job: &'a Job,
    shelf: &mut S,
    advisors: &mut Vec<Box<dyn Advisor>>,
) -> Result<Report, Stop<'a>>
    requires { IsInRange (seen job.now) }
    ensures made { Gave (S.gave shelf.old shelf.new) (λ came. IsMadeAsking
        (AreAskedBy ⟦<dyn Advisor as Advisor>⟧ (λ b. b.vtable) (λ b. state b)
        advisors.old.items advisors.new.items)
        (seen job.now) came result) }
    ensures advisors { AreCalled ⟦<dyn Advisor as Advisor>⟧ (λ b. b.vtable) (λ b. state b)
        advisors.old.items advisors.new.items }
{
    match job {
        Job::Design(search) => design_report(alloc, words(search), &search.limits, shelf, advisors),
        Job::Check {
            request,
            answer,
            configs,
        } => check_report(alloc, files(request, configs), answer, shelf),
        Job::Audit {
            request,
            live,
            configs,
        } => made_audit(alloc, request, live, configs, shelf),
        Job::Rewrite { answer, config } => rewrite_report(alloc, answer, config, shelf),
        Job::Trial { blocks, start } => made_trial(alloc, *blocks, *start, advisors),
        Job::Conflict(search) => {
            conflict_report(alloc, words(search), &search.limits, shelf, advisors)
        }
        Job::Spread { search, sets } => made_spread(alloc, search, sets, shelf),
        Job::Total(search) => total_report(alloc, words(search), &search.limits, shelf, advisors),
        Job::Change(search) => change_report(alloc, words(search), &search.limits, shelf),
        Job::Steps {
            request,
            answer,
            nodes,
            by,
            configs,
        } => made_steps(alloc, request, wanted(answer, *nodes, *by), configs, shelf),
        Job::Compare {
            live,
            request,
            configs,
        } => compare_report(alloc, files(request, configs), live, shelf),
        Job::Lsas { request, configs } => lsas_report(alloc, files(request, configs), shelf),
        Job::Route { lsas, from, to } => route_report(alloc, lsas, *from, *to, shelf),
        Job::Help(topic) => told_help(*topic),
        Job::Version => told_version(),
    }
}
