//! The command table: the commands and their options.
ghost use Rattle.std.specs.Prelude.{◌≡◌, IfOk, map, true, false};
ghost use Rattle.clap.specs.Walk.{rule_of};
ghost use Rattle.clap.specs.Simple.{app_of};
ghost use Rattle.command_words.specs.Commands.{option, config_word, config_words, topic_word, operand_rules, with_rules, command_of, app_of_row};
ghost use Rattle.command_words.specs.Commands.{command_named, row_of, word_of};
ghost use Rattle.command_words.specs.Forms.{operands_of, now_texts};

use crate::CommandName;
use crate::table::Operands::{Config, Configs, Nothing, Topic};
use clap::{Arg, Command};
use std::alloc::{AllocError, Global};

/// The words that a command takes beside its options.
#[derive(Clone, Copy)]
enum Operands {
    Nothing,
    Config,
    Configs,
    Topic,
}

static NAMES: [CommandName; 15] = [
    CommandName::Design,
    CommandName::Check,
    CommandName::Audit,
    CommandName::Rewrite,
    CommandName::Trial,
    CommandName::Conflict,
    CommandName::Spread,
    CommandName::Total,
    CommandName::Change,
    CommandName::Steps,
    CommandName::Compare,
    CommandName::Lsas,
    CommandName::Route,
    CommandName::Help,
    CommandName::Version,
];

impl CommandName {
    /// The word that names the command.
    pub fn word(self) -> &'static str
        ensures { result.now ≡ word_of self }
    {
        match self {
            CommandName::Design => "design",
            CommandName::Check => "check",
            CommandName::Audit => "audit",
            CommandName::Rewrite => "rewrite",
            CommandName::Trial => "trial",
            CommandName::Conflict => "conflict",
            CommandName::Spread => "spread",
            CommandName::Total => "total",
            CommandName::Change => "change",
            CommandName::Steps => "steps",
            CommandName::Compare => "compare",
            CommandName::Lsas => "lsas",
            CommandName::Route => "route",
            CommandName::Help => "help",
            CommandName::Version => "version",
        }
    }
}

/// The command that a word names; None exactly where it names none.
pub(crate) fn command_named(word: &[u8]) -> Option<CommandName>
    ensures { result ≡ command_named word.now }
{
    for name in NAMES {
        if name.word().as_bytes() == word {
            return Some(name);
        }
    }
    None
}

/// The simple command of a row of the table.
pub(crate) fn simple_command<'a>(
    alloc: Global,
    name: CommandName,
) -> Result<Command<'a>, AllocError>
    ensures { IfOk result (λ command. app_of command ≡ app_of_row (row_of name)) }
{
    command(
        alloc,
        name.word(),
        must_options(name),
        may_options(name),
        operand_kind(name),
    )
}

/// The options of a command that must be given.
fn must_options<'a>(name: CommandName) -> &'a [&'a str]
    ensures { now_texts result.now ≡ (row_of name).must }
{
    match name {
        CommandName::Check | CommandName::Steps => &["request", "answer"],
        CommandName::Rewrite => &["answer"],
        CommandName::Trial => &["blocks"],
        CommandName::Spread => &["request", "sets"],
        CommandName::Compare => &["live", "request"],
        CommandName::Route => &["lsas", "from", "to"],
        CommandName::Help | CommandName::Version => &[],
        _ => &["request"],
    }
}

/// The options of a command that may be given.
fn may_options<'a>(name: CommandName) -> &'a [&'a str]
    ensures { now_texts result.now ≡ (row_of name).may }
{
    match name {
        CommandName::Design
        | CommandName::Conflict
        | CommandName::Spread
        | CommandName::Total
        | CommandName::Change => &["nodes", "bits"],
        CommandName::Audit => &["live"],
        CommandName::Trial => &["start"],
        CommandName::Steps => &["nodes", "by"],
        _ => &[],
    }
}

/// The operands of a command.
fn operand_kind(name: CommandName) -> Operands
    ensures { operands_of result ≡ (row_of name).operands }
{
    match name {
        CommandName::Rewrite => Config,
        CommandName::Help => Topic,
        CommandName::Trial | CommandName::Route | CommandName::Version => Nothing,
        _ => Configs,
    }
}

/// A command with the options that must be given, those that may be, and its operands.
fn command<'a>(
    alloc: Global,
    name: &'a str,
    must: &[&'a str],
    may: &[&'a str],
    operands: Operands,
) -> Result<Command<'a>, AllocError>
    ensures { IfOk result (λ command. app_of command ≡ command_of name.now (now_texts must.now)
        (now_texts may.now) (operands_of operands)) }
{
    let command = with_options(alloc, Command::new(alloc, name), must, true)?;
    let command = with_options(alloc, command, may, false)?;
    with_operands(alloc, command, operands)
}

/// The command with one more option of each name.
fn with_options<'a>(
    alloc: Global,
    command: Command<'a>,
    names: &[&'a str],
    must: bool,
) -> Result<Command<'a>, AllocError>
    ensures { IfOk result (λ more. app_of more ≡ with_rules (app_of command.entry)
        (map (option must) (now_texts names.now))) }
{
    let mut more = command;
    for name in names {
        more = more.arg(option(alloc, name, must))?;
    }
    Ok(more)
}

/// The command with its operands.
fn with_operands<'a>(
    alloc: Global,
    command: Command<'a>,
    operands: Operands,
) -> Result<Command<'a>, AllocError>
    ensures { IfOk result (λ more. app_of more ≡ with_rules (app_of command.entry)
        (operand_rules (operands_of operands))) }
{
    let word = match operands {
        Nothing => return Ok(command),
        Config => config_word(alloc),
        Configs => config_words(alloc),
        Topic => topic_word(alloc),
    };
    command.arg(word)
}

/// The option `--NAME VALUE`.
fn option<'a>(alloc: Global, name: &'a str, must: bool) -> Arg<'a>
    ensures rule { rule_of result ≡ option must name.now }
    ensures local { result.global ≡ false }
{
    Arg::new(alloc, name).long(name).required(must)
}

/// The one CONFIG word.
fn config_word<'a>(alloc: Global) -> Arg<'a>
    ensures rule { rule_of result ≡ config_word }
    ensures local { result.global ≡ false }
{
    Arg::new(alloc, "CONFIG").required(true)
}

/// One or more CONFIG words.
fn config_words<'a>(alloc: Global) -> Arg<'a>
    ensures rule { rule_of result ≡ config_words }
    ensures local { result.global ≡ false }
{
    Arg::new(alloc, "CONFIG").required(true).num_args(1..)
}

/// The COMMAND word, which may be left out.
fn topic_word<'a>(alloc: Global) -> Arg<'a>
    ensures rule { rule_of result ≡ topic_word }
    ensures local { result.global ≡ false }
{
    Arg::new(alloc, "COMMAND")
}
