//! Whether bytes begin a lawful line of a text that is no answer's.
ghost use Rattle.std.specs.Prelude.{◌↔◌, IsTrue, Some};
ghost use Rattle.std.specs.Option.{option_copied};
ghost use Rattle.answer_lines.specs.Grammar.{AtOtherHead, AtOtherVerdict, AtOtherCosts, AtSections, AtSectionsEnd, IsPlainVerdict};
ghost use Rattle.answer_lines.specs.Places.{BeginsLawful};
ghost use Rattle.begun_lines.specs.Begun.{BeginsOne};

use crate::fronts::{begins_line, begins_number};
use crate::places::{begins_floor, begins_next_cost, begins_rows, begins_verdict};
use answer_lines::OtherText;

/// Whether these bytes begin the first line.
pub fn begins_other_head(rest: &[u8], text: OtherText) -> bool
    ensures { IsTrue result ↔ BeginsLawful (AtOtherHead text) rest.now }
{
    begins_line(rest, text.head())
}

/// Whether these bytes begin the line of a verdict.
pub fn begins_other_verdict(rest: &[u8], text: OtherText) -> bool
    ensures { IsTrue result ↔ BeginsLawful (AtOtherVerdict text) rest.now }
{
    match text {
        OtherText::Total => begins_verdict(rest),
        OtherText::Spread => begins_line(rest, b"verdict fit") || begins_plain_verdict(rest),
        OtherText::Change => {
            begins_number(rest, b"verdict fewest ", 4_294_967_295) || begins_plain_verdict(rest)
        }
    }
}

/// Whether these bytes begin the line of a verdict without a number, and not `fit`.
fn begins_plain_verdict(rest: &[u8]) -> bool
    ensures { IsTrue result ↔ BeginsOne IsPlainVerdict rest.now }
{
    begins_line(rest, b"verdict impossible") || begins_line(rest, b"verdict undecided")
}

/// Whether these bytes begin the line before the costs.
pub fn begins_other_costs(rest: &[u8], text: OtherText) -> bool
    ensures { IsTrue result ↔ BeginsLawful (AtOtherCosts text) rest.now }
{
    let greatest = u128::from(text.greatest_of_costs());
    begins_line(rest, text.no_costs()) || begins_number(rest, text.costs_front(), greatest)
}

/// Whether these bytes begin the line that ends the sections.
pub fn begins_sections_end(rest: &[u8], text: OtherText) -> bool
    ensures { IsTrue result ↔ BeginsLawful (AtSectionsEnd text) rest.now }
{
    match text {
        OtherText::Total => begins_floor(rest),
        OtherText::Spread | OtherText::Change => begins_rows(rest),
    }
}

/// Whether these bytes begin a line among the sections, `before` being the router of the cost line before.
pub fn begins_other_section(rest: &[u8], before: Option<&[u8]>, text: OtherText) -> bool
    ensures { IsTrue result ↔ BeginsLawful (AtSections (Some text) (option_copied before.entry))
        rest.now }
{
    begins_next_cost(rest, before) || begins_sections_end(rest, text)
}
