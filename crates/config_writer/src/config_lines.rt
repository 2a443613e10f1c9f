//! Lines of configurations.
ghost use Rattle.std.specs.Prelude.{◌≡◌, codes};
ghost use Rattle.std.specs.Option.{option_map};
ghost use Rattle.text_lines.specs.Lines.{words};
ghost use Rattle.config_reader.specs.Statements as statements;
ghost use Rattle.config_reader.specs.Configs.{name_opened};

use config_reader::{begins, word};
use text_lines::word_count;

/// Whether a line begins with `ip ospf cost`.
pub(crate) fn sets_cost(text: &[u8]) -> bool
    ensures { result ≡ statements.begin_with (statements.ip_ospf (codes "cost")) (words text.now) }
{
    begins(text, b"ip ospf cost")
}

/// The interface whose block a head opens, if any.
pub(crate) fn interface_opened(head: &[u8]) -> Option<&[u8]>
    ensures { option_map (λ name. name.now) result ≡ name_opened
        (statements.block_of (words head.now)) }
{
    if word_count(head) == 2 && begins(head, b"interface") {
        Some(word(head, 1))
    } else {
        None
    }
}
