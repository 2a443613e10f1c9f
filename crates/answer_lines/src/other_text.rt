//! The texts of other commands that costs are read of.
ghost use Rattle.std.specs.Prelude.{◌≡◌, ◌≤◌, ◌↔◌, IsTrue, length};
ghost use Rattle.answer_lines.specs.Grammar.{IsFrontAndNumber, IsOtherVerdict, IsPlainVerdict, IsSectionsEnd};
ghost use Rattle.answer_lines.specs.Grammar as grammar;

use crate::heads::{floor_of, verdict_of};
use crate::words::number_after;

/// A text with costs that is no answer's.
#[derive(Clone, Copy, Debug, PartialEq, Eq)]
pub enum OtherText {
    /// What `total` writes, with an answer's text inside.
    Total,
    /// What `spread` writes.
    Spread,
    /// What `change` writes.
    Change,
}

impl OtherText {
    /// The first line.
    pub fn head(self) -> &'static [u8]
        ensures { result.now ≡ grammar.other_head self }
    {
        match self {
            OtherText::Total => b"ospfcost total 1",
            OtherText::Spread => b"ospfcost spread answer 1",
            OtherText::Change => b"ospfcost change 1",
        }
    }

    /// The word before the costs, with a space behind it.
    pub fn costs_front(self) -> &'static [u8]
        ensures { result.now ≡ grammar.costs_front self }
    {
        match self {
            OtherText::Total | OtherText::Spread => b"costs ",
            OtherText::Change => b"changes ",
        }
    }

    /// The line that there are no costs.
    pub fn no_costs(self) -> &'static [u8]
        ensures { result.now ≡ grammar.no_costs_line self }
    {
        match self {
            OtherText::Total | OtherText::Spread => b"costs none",
            OtherText::Change => b"changes none",
        }
    }

    /// The greatest number behind the word before the costs: a cost, or how many cost lines there are.
    pub fn greatest_of_costs(self) -> u32
        ensures { result ≡ grammar.greatest_of_costs self }
    {
        match self {
            OtherText::Total | OtherText::Spread => 65_535,
            OtherText::Change => 4_294_967_295,
        }
    }

    /// Whether a line is that of a verdict.
    pub fn is_verdict(self, line: &[u8]) -> bool
        ensures { IsTrue result ↔ IsOtherVerdict self line.now }
    {
        match self {
            OtherText::Total => verdict_of(line).is_some(),
            OtherText::Spread => line == b"verdict fit".as_slice() || is_plain_verdict(line),
            OtherText::Change => {
                has_number(line, b"verdict fewest ", 4_294_967_295) || is_plain_verdict(line)
            }
        }
    }

    /// Whether a line is one that ends the sections.
    pub fn ends_sections(self, line: &[u8]) -> bool
        ensures { IsTrue result ↔ IsSectionsEnd self line.now }
    {
        match self {
            OtherText::Total => floor_of(line).is_some(),
            OtherText::Spread | OtherText::Change => {
                has_number(line, b"rows ", 18_446_744_073_709_551_615)
            }
        }
    }
}

/// Whether a line is that of a verdict without a number, and not `fit`.
fn is_plain_verdict(line: &[u8]) -> bool
    ensures { IsTrue result ↔ IsPlainVerdict line.now }
{
    line == b"verdict impossible".as_slice() || line == b"verdict undecided".as_slice()
}

/// Whether a line is this front and a number behind it, at most `greatest`.
fn has_number(line: &[u8], front: &[u8], greatest: u128) -> bool
    ensures { IsTrue result ↔ IsFrontAndNumber front.now greatest line.now }
{
    number_after(line, front, greatest).is_some()
}
