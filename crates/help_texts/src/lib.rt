//! What `help` and `version` print: texts that are always the same.
#![tactic(auto)]

ghost use Rattle.std.specs.Prelude.{◌≡◌};
ghost use Rattle.help_texts.specs.Texts.{help_text, text_on, version_text};

mod texts;

use command_words::CommandName;

/// The version of the program, and the logic of the checker that proved it, as `rt version` and the last line of each
/// check name it.
const VERSION: &str = "\
ospfcost 1.0
proved with rattle logic dac8208d650f15bf
";

/// The text on one command: what it answers, its words, its statuses, and an example.
fn text_on(name: CommandName) -> &'static str
    ensures { result.now ≡ text_on name }
{
    match name {
        CommandName::Design => texts::design::TEXT,
        CommandName::Check => texts::check::TEXT,
        CommandName::Audit => texts::audit::TEXT,
        CommandName::Rewrite => texts::rewrite::TEXT,
        CommandName::Trial => texts::trial::TEXT,
        CommandName::Conflict => texts::conflict::TEXT,
        CommandName::Spread => texts::spread::TEXT,
        CommandName::Total => texts::total::TEXT,
        CommandName::Change => texts::change::TEXT,
        CommandName::Steps => texts::steps::TEXT,
        CommandName::Compare => texts::compare::TEXT,
        CommandName::Lsas => texts::lsas::TEXT,
        CommandName::Route => texts::route::TEXT,
        CommandName::Help => texts::help::TEXT,
        CommandName::Version => texts::version::TEXT,
    }
}

/// The text on all commands, or on one of them.
pub fn help_text(topic: Option<CommandName>) -> &'static str
    ensures { result.now ≡ help_text topic }
{
    match topic {
        None => texts::all::TEXT,
        Some(name) => text_on(name),
    }
}

/// The two lines of `version`.
pub fn version_text() -> &'static str
    ensures { result.now ≡ version_text }
{
    VERSION
}
