//! The words after the program's name, as the job that they ask for.
#![tactic(auto)]

ghost use Rattle.std.specs.Prelude.{◌≡◌, None, Some, IfOk, IsErrOf, MatchOption};
ghost use Rattle.command_words.specs.Commands.{job_of, job_of_row, row_of};
ghost use Rattle.command_words.specs.Jobs.{seen, IsInRange};
ghost use Rattle.text_lines.specs.Arguments.{texts};

use std::alloc::Global;

mod job;
mod reading;
mod table;
mod values;

pub use job::{CommandName, Job, Search, StepUnit, WordsStop};
use reading::read_row;
use table::command_named;

/// The job that `words`, the words after the program's name, ask for.
///
/// The first word names one of the commands, and a `clap` command that has the options of its row takes the
/// others: options in any order and between the CONFIG words, each at most once, as `--option VALUE` or
/// `--option=VALUE`, and none behind `--`.
///
/// `Refused` comes exactly where the first word is missing or names no command, where that `clap` command doesn't
/// take the other words (as where they ask for help), where a number isn't 1 to 10 decimal digits within its range,
/// where a router isn't a dotted quad, where the word of `--by` is neither `line` nor `router`, or where the word
/// behind `help` names no command.
///
/// # Errors
///
/// Why no job was read: the words are off the command table, or memory ran out.
pub fn read_words(alloc: Global, words: &[String]) -> Result<Job, WordsStop>
    ensures job { IfOk result (λ job. job_of (texts words.now) ≡ Some (seen job)) }
    ensures ranges { IfOk result (λ job. IsInRange (seen job)) }
    ensures refused { IsErrOf result WordsStop.Refused → job_of (texts words.now) ≡ None }
{
    let Some(name) = named(words) else {
        return Err(WordsStop::Refused);
    };
    read_row(alloc, name, words)
}

/// The command that the first word names; None exactly where there is none.
fn named(words: &[String]) -> Option<CommandName>
    ensures { MatchOption result (job_of (texts words.now) ≡ None)
        (λ name. job_of (texts words.now) ≡ job_of_row (row_of name) (texts words.now)) }
{
    let (first, _others) = words.split_first()?;
    command_named(first.as_bytes())
}
