//! The jobs of the commands, from the values that they find.
ghost use Rattle.std.specs.Prelude.{◌≡◌, ◌≢◌, MatchResult, true, false};
ghost use Rattle.clap.specs.Values.{kind_of};
ghost use Rattle.command_words.specs.Commands.{row_of, takes_words, found_in, job_of_row, search_of, design_job, check_job, audit_job, rewrite_job};
ghost use Rattle.command_words.specs.Commands.{trial_job, conflict_job, spread_job, total_job, change_job, steps_job};
ghost use Rattle.command_words.specs.Commands.{compare_job, lsas_job, route_job, help_job};
ghost use Rattle.command_words.specs.Forms.{rows_found, Answers};
ghost use Rattle.command_words.specs.Jobs.{search_seen, seen};
ghost use Rattle.text_lines.specs.Arguments.{texts};

use crate::table::simple_command;
use crate::values::{
    configs, limits, may_number, may_text, must_number, nodes, router, step_unit, text, topic,
};
use crate::{CommandName, Job, Search, WordsStop};
use clap::error::ErrorKind;
use clap::{ArgMatches, Error};
use std::alloc::Global;

/// The job of words whose first is this command's.
pub(crate) fn read_row(alloc: Global, name: CommandName, words: &[String]) -> Result<Job, WordsStop>
    ensures { Answers (job_of_row (row_of name) (texts words.now)) seen result }
{
    let matches = find_values(alloc, name, words)?;
    job_of_values(alloc, name, &matches)
}

/// What the simple command of a row finds in the words, of which it passes over the first.
fn find_values<'a>(
    alloc: Global,
    name: CommandName,
    words: &'a [String],
) -> Result<ArgMatches<'a>, WordsStop>
    ensures { MatchResult result (λ matches. (takes_words (row_of name) (texts words.now) ≡ true) ×
        (rows_found matches ≡ found_in (row_of name) (texts words.now)))
        (λ stop. stop ≡ WordsStop.Refused → takes_words (row_of name) (texts words.now) ≡ false) }
{
    let command = simple_command(alloc, name)?;
    match command.try_get_matches_from(words) {
        Ok(matches) => Ok(matches),
        Err(error) => Err(stop_of(&error)),
    }
}

/// What stops a reading where `clap` fails.
fn stop_of(error: &Error) -> WordsStop
    ensures { result ≡ WordsStop.Refused → kind_of error.now ≢ ErrorKind.OutOfMemory }
{
    if error.kind() == ErrorKind::OutOfMemory {
        WordsStop::OutOfMemory
    } else {
        WordsStop::Refused
    }
}

/// The job of a command, from the values that it finds.
fn job_of_values(
    alloc: Global,
    name: CommandName,
    matches: &ArgMatches<'_>,
) -> Result<Job, WordsStop>
    ensures { Answers ((row_of name).job (rows_found matches.now)) seen result }
{
    match name {
        CommandName::Design => design(alloc, matches),
        CommandName::Check => check(alloc, matches),
        CommandName::Audit => audit(alloc, matches),
        CommandName::Rewrite => rewrite(alloc, matches),
        CommandName::Trial => trial(matches),
        CommandName::Conflict => conflict(alloc, matches),
        CommandName::Spread => spread(alloc, matches),
        CommandName::Total => total(alloc, matches),
        CommandName::Change => change(alloc, matches),
        CommandName::Steps => steps(alloc, matches),
        CommandName::Compare => compare(alloc, matches),
        CommandName::Lsas => lsas(alloc, matches),
        CommandName::Route => route(alloc, matches),
        CommandName::Help => help(matches),
        CommandName::Version => Ok(Job::Version),
    }
}

/// What the words ask of a search.
fn searched(alloc: Global, matches: &ArgMatches<'_>) -> Result<Search, WordsStop>
    ensures { Answers (search_of (rows_found matches.now)) search_seen result }
{
    let limits = limits(matches).ok_or(WordsStop::Refused)?;
    let request = text(alloc, matches, "request")?;
    let configs = configs(alloc, matches)?;
    Ok(Search {
        request,
        limits,
        configs,
    })
}

fn design(alloc: Global, matches: &ArgMatches<'_>) -> Result<Job, WordsStop>
    ensures { Answers (design_job (rows_found matches.now)) seen result }
{
    let search = searched(alloc, matches)?;
    Ok(Job::Design(search))
}

fn check(alloc: Global, matches: &ArgMatches<'_>) -> Result<Job, WordsStop>
    ensures { Answers (check_job (rows_found matches.now)) seen result }
{
    let request = text(alloc, matches, "request")?;
    let answer = text(alloc, matches, "answer")?;
    let configs = configs(alloc, matches)?;
    Ok(Job::Check {
        request,
        answer,
        configs,
    })
}

fn audit(alloc: Global, matches: &ArgMatches<'_>) -> Result<Job, WordsStop>
    ensures { Answers (audit_job (rows_found matches.now)) seen result }
{
    let request = text(alloc, matches, "request")?;
    let live = may_text(alloc, matches, "live")?;
    let configs = configs(alloc, matches)?;
    Ok(Job::Audit {
        request,
        live,
        configs,
    })
}

fn rewrite(alloc: Global, matches: &ArgMatches<'_>) -> Result<Job, WordsStop>
    ensures { Answers (rewrite_job (rows_found matches.now)) seen result }
{
    let answer = text(alloc, matches, "answer")?;
    let config = text(alloc, matches, "CONFIG")?;
    Ok(Job::Rewrite { answer, config })
}

fn trial(matches: &ArgMatches<'_>) -> Result<Job, WordsStop>
    ensures { Answers (trial_job (rows_found matches.now)) seen result }
{
    let blocks = must_number(matches, "blocks", 1, 125).ok_or(WordsStop::Refused)?;
    let start = may_number(matches, "start", 0, 2147483647, 1).ok_or(WordsStop::Refused)?;
    Ok(Job::Trial {
        blocks: blocks as u32,
        start: start as u32,
    })
}

fn conflict(alloc: Global, matches: &ArgMatches<'_>) -> Result<Job, WordsStop>
    ensures { Answers (conflict_job (rows_found matches.now)) seen result }
{
    let search = searched(alloc, matches)?;
    Ok(Job::Conflict(search))
}

fn spread(alloc: Global, matches: &ArgMatches<'_>) -> Result<Job, WordsStop>
    ensures { Answers (spread_job (rows_found matches.now)) seen result }
{
    let search = searched(alloc, matches)?;
    let sets = text(alloc, matches, "sets")?;
    Ok(Job::Spread { search, sets })
}

fn total(alloc: Global, matches: &ArgMatches<'_>) -> Result<Job, WordsStop>
    ensures { Answers (total_job (rows_found matches.now)) seen result }
{
    let search = searched(alloc, matches)?;
    Ok(Job::Total(search))
}

fn change(alloc: Global, matches: &ArgMatches<'_>) -> Result<Job, WordsStop>
    ensures { Answers (change_job (rows_found matches.now)) seen result }
{
    let search = searched(alloc, matches)?;
    Ok(Job::Change(search))
}

fn steps(alloc: Global, matches: &ArgMatches<'_>) -> Result<Job, WordsStop>
    ensures { Answers (steps_job (rows_found matches.now)) seen result }
{
    let nodes = nodes(matches).ok_or(WordsStop::Refused)?;
    let by = step_unit(matches).ok_or(WordsStop::Refused)?;
    let request = text(alloc, matches, "request")?;
    let answer = text(alloc, matches, "answer")?;
    let configs = configs(alloc, matches)?;
    Ok(Job::Steps {
        request,
        answer,
        nodes: nodes as u32,
        by,
        configs,
    })
}

fn compare(alloc: Global, matches: &ArgMatches<'_>) -> Result<Job, WordsStop>
    ensures { Answers (compare_job (rows_found matches.now)) seen result }
{
    let live = text(alloc, matches, "live")?;
    let request = text(alloc, matches, "request")?;
    let configs = configs(alloc, matches)?;
    Ok(Job::Compare {
        live,
        request,
        configs,
    })
}

fn lsas(alloc: Global, matches: &ArgMatches<'_>) -> Result<Job, WordsStop>
    ensures { Answers (lsas_job (rows_found matches.now)) seen result }
{
    let request = text(alloc, matches, "request")?;
    let configs = configs(alloc, matches)?;
    Ok(Job::Lsas { request, configs })
}

fn route(alloc: Global, matches: &ArgMatches<'_>) -> Result<Job, WordsStop>
    ensures { Answers (route_job (rows_found matches.now)) seen result }
{
    let from = router(matches, "from").ok_or(WordsStop::Refused)?;
    let to = router(matches, "to").ok_or(WordsStop::Refused)?;
    let lsas = text(alloc, matches, "lsas")?;
    Ok(Job::Route { lsas, from, to })
}

fn help(matches: &ArgMatches<'_>) -> Result<Job, WordsStop>
    ensures { Answers (help_job (rows_found matches.now)) seen result }
{
    let topic = topic(matches).ok_or(WordsStop::Refused)?;
    Ok(Job::Help(topic))
}
