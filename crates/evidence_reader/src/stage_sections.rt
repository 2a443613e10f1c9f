//! The stage of the sections of costs, in an answer's text or another one.
ghost use Rattle.std.specs.Prelude.{◌≡◌, ◌≢◌, ℕ, ◌<◌, List, [], ◌∷◌, ◌++◌, Option, None, Some, All, MatchOption, MatchResult, IfOk, IfSome, IsTrue, ◌↔◌, codes};
ghost use Rattle.std.specs.Option.{option_copied};
ghost use Rattle.cost_base.specs.Words.{IsOneWord};
ghost use Rattle.design_problem.specs.Text.{cost_lines, FitsCostLine, interface_line, answer_cost_line, router_line};
ghost use Rattle.answer_lines.specs.declared.other_text.OtherText.{OtherText};
ghost use Rattle.answer_lines.specs.Grammar.{TextPlace, IsRouterNext, AtSections, AtInterface, AtCost, AtExit};
ghost use Rattle.design_problem.specs.AnswerRanges.{IsCost};
ghost use Rattle.answer_lines.specs.Places.{LacksLawful};
ghost use Rattle.evidence_reader.specs.Sections.{IsCostBegun, LacksCost};
ghost use Rattle.evidence_reader.specs.Stops.{StopsReader};
ghost use Rattle.answer_lines.specs.Going.{Goes};
ghost use Rattle.evidence_reader.specs.Stages.{IsSectionLine, behind_section_line, words_lines, FitsWords, lines_of_words};

use crate::fault::AnswerFault;
use crate::faults::fault_at;
use answer_lines::{TextLeft, name_after, number_after};
use begun_lines::{begins_cost, begins_exit, begins_interface};
use cost_base::Refusal;
use design_problem::{CostLine, cost_line};
use std::alloc::Global;

/// The cost lines of a text.
#[derive(Drop)]
pub struct Sections<'a> {
    /// The cost lines, in their order.
    pub lines: Vec<CostLine>,
    /// The router of the last one.
    pub router: Option<&'a [u8]>,
}

/// What a cost line says, as it stands in the text.
#[derive(Clone, Copy)]
struct CostWords<'a> {
    router: &'a [u8],
    interface: &'a [u8],
    cost: u16,
}

/// What a line of one more cost says.
#[derive(Clone, Copy)]
enum SectionLine<'a> {
    /// A router that isn't the one before.
    Router(&'a [u8]),
    /// The router before, and a further interface of it.
    Interface(&'a [u8], &'a [u8]),
}

/// The cost lines of a text, and what is left behind them: no line of one more cost stands first there.
///
/// # Errors
///
/// - `Refused` where one of their lines is at fault.
/// - `OutOfMemory` where a growth was refused.
pub fn read_sections<'a>(
    alloc: Global,
    text: TextLeft<'a>,
) -> Result<(Sections<'a>, TextLeft<'a>), Refusal<AnswerFault>>
    ensures { (of : Option OtherText) → MatchResult result (λ r. All FitsCostLine r.0.lines.items ×
        Goes (AtSections of None) text.entry (cost_lines None r.0.lines.items)
        (AtSections of (option_copied r.0.router)) r.1 × LacksCost of (option_copied r.0.router)
        r.1.left.now) (StopsReader (AtSections of None) text.entry) }
{
    let mut lines = Vec::new(alloc);
    let mut before = None;
    let mut left = text;
    loop {
        let Some((words, rest)) = next_cost(left, before)? else {
            let sections = Sections {
                lines,
                router: before,
            };
            return Ok((sections, left));
        };
        lines.push(cost_line(alloc, words.router, words.interface, words.cost)?)?;
        before = Some(words.router);
        left = rest;
    }
}

/// The next cost line, where one begins here, and the text behind it.
fn next_cost<'a>(
    text: TextLeft<'a>,
    before: Option<&'a [u8]>,
) -> Result<Option<(CostWords<'a>, TextLeft<'a>)>, Refusal<AnswerFault>>
    requires { IfSome (option_copied before) IsOneWord }
    ensures { (of : Option OtherText) → MatchResult result (λ found.
        MatchOption found (LacksCost of (option_copied before.entry) text.entry.left.now)
        (λ r. FitsWords r.0 × Goes (AtSections of (option_copied before.entry)) text.entry
        (lines_of_words (option_copied before.entry) r.0) (AtSections of (Some r.0.router.now))
        r.1)) (StopsReader (AtSections of (option_copied before.entry)) text.entry) }
{
    let Some((line, rest)) = section_line_next(text, before) else {
        return Ok(None);
    };
    match line {
        SectionLine::Router(router) => {
            let found = cost_of_router(router, rest)?;
            Ok(Some(found))
        }
        SectionLine::Interface(router, interface) => {
            let found = cost_of_interface(router, interface, rest)?;
            Ok(Some(found))
        }
    }
}

/// What a line of one more cost says, where one is the next.
fn section_line_next<'a>(
    text: TextLeft<'a>,
    before: Option<&'a [u8]>,
) -> Option<(SectionLine<'a>, TextLeft<'a>)>
    ensures { (of : Option OtherText) →
        MatchOption result (LacksCost of (option_copied before.entry) text.entry.left.now)
        (λ r. (line : List ℕ) × IsSectionLine (option_copied before.entry) line r.0 ×
        Goes (AtSections of (option_copied before.entry)) text.entry (line ∷ [])
        (behind_section_line of r.0) r.1) }
{
    let (line, rest) = text.line()?;
    let said = section_line_of(line, before)?;
    Some((said, rest))
}

/// What a line of one more cost says behind the cost line of this router.
fn section_line_of<'a>(line: &'a [u8], before: Option<&'a [u8]>) -> Option<SectionLine<'a>>
    ensures { MatchOption result ((of : Option OtherText) (next : TextPlace) →
        IsCostBegun of (option_copied before.entry) line.now next → ⊥)
        (IsSectionLine (option_copied before.entry) line.now) }
{
    if let Some(router) = router_of(line, before) {
        return Some(SectionLine::Router(router));
    }
    let router = before?;
    let interface = name_after(line, b"interface ")?;
    Some(SectionLine::Interface(router, interface))
}

/// The router of a line, where it isn't the one before.
fn router_of<'a>(line: &'a [u8], before: Option<&'a [u8]>) -> Option<&'a [u8]>
    ensures { MatchOption result ((of : Option OtherText) (next : TextPlace) →
        IsRouterNext of (option_copied before.entry) line.now next → ⊥)
        (λ name. IsOneWord name.now × (option_copied before.entry ≢ Some name.now) ×
        (line.now ≡ router_line name.now)) }
{
    let router = name_after(line, b"router ")?;
    if is_same(before, router) {
        None
    } else {
        Some(router)
    }
}

/// Whether this router is the one before.
fn is_same(before: Option<&[u8]>, router: &[u8]) -> bool
    ensures { IsTrue result ↔ (option_copied before.entry ≡ Some router.now) }
{
    match before {
        Some(name) => name == router,
        None => false,
    }
}

/// The cost line behind the line of its router, and the text behind it.
fn cost_of_router<'a>(
    router: &'a [u8],
    text: TextLeft<'a>,
) -> Result<(CostWords<'a>, TextLeft<'a>), Refusal<AnswerFault>>
    requires { IsOneWord router.now }
    ensures { (of : Option OtherText) → MatchResult result (λ r. (r.0.router.now ≡ router.now) ×
        FitsWords r.0 × Goes (AtInterface of router.now) text.entry (words_lines r.0)
        (AtSections of (Some router.now)) r.1) (StopsReader (AtInterface of router.now)
        text.entry) }
{
    let (interface, rest) = interface_at(text)?;
    cost_of_interface(router, interface, rest)
}

/// The cost line behind the line of its interface, and the text behind it.
fn cost_of_interface<'a>(
    router: &'a [u8],
    interface: &'a [u8],
    text: TextLeft<'a>,
) -> Result<(CostWords<'a>, TextLeft<'a>), Refusal<AnswerFault>>
    requires router { IsOneWord router.now }
    requires interface { IsOneWord interface.now }
    ensures { (of : Option OtherText) → MatchResult result (λ r. (r.0.router.now ≡ router.now) ×
        (r.0.interface.now ≡ interface.now) × FitsWords r.0 ×
        Goes (AtCost of router.now) text.entry (answer_cost_line r.0.cost ∷ codes "exit" ∷ [])
        (AtSections of (Some router.now)) r.1) (StopsReader (AtCost of router.now) text.entry) }
{
    let (cost, rest) = cost_at(text)?;
    let rest = exit_at(rest)?;
    let words = CostWords {
        router,
        interface,
        cost,
    };
    Ok((words, rest))
}

/// The interface whose line has to be the next, and the text behind it.
fn interface_at(text: TextLeft<'_>) -> Result<(&[u8], TextLeft<'_>), Refusal<AnswerFault>>
    ensures { (of : Option OtherText) (router : List ℕ) → MatchResult result
        (λ r. IsOneWord r.0.now × Goes (AtInterface of router) text.entry
        (interface_line r.0.now ∷ []) (AtCost of router) r.1)
        (StopsReader (AtInterface of router) text.entry) }
{
    match interface_next(text) {
        Some(found) => Ok(found),
        None => Err(fault_at(text, begins_interface(text.left))),
    }
}

/// The interface whose line is the next, and the text behind it.
fn interface_next(text: TextLeft<'_>) -> Option<(&[u8], TextLeft<'_>)>
    ensures { (of : Option OtherText) (router : List ℕ) → MatchOption result
        (LacksLawful (AtInterface of router) text.entry.left.now)
        (λ r. IsOneWord r.0.now × Goes (AtInterface of router) text.entry
        (interface_line r.0.now ∷ []) (AtCost of router) r.1) }
{
    let (line, rest) = text.line()?;
    let interface = name_after(line, b"interface ")?;
    Some((interface, rest))
}

/// The cost whose line has to be the next, and the text behind it.
fn cost_at(text: TextLeft<'_>) -> Result<(u16, TextLeft<'_>), Refusal<AnswerFault>>
    ensures { (of : Option OtherText) (router : List ℕ) → MatchResult result
        (λ r. (0 < r.0) × Goes (AtCost of router) text.entry (answer_cost_line r.0 ∷ [])
        (AtExit of router) r.1) (StopsReader (AtCost of router) text.entry) }
{
    match cost_next(text) {
        Some(found) => Ok(found),
        None => Err(fault_at(text, begins_cost(text.left))),
    }
}

/// The cost whose line is the next, and the text behind it.
fn cost_next(text: TextLeft<'_>) -> Option<(u16, TextLeft<'_>)>
    ensures { (of : Option OtherText) (router : List ℕ) → MatchOption result
        (LacksLawful (AtCost of router) text.entry.left.now)
        (λ r. (0 < r.0) × Goes (AtCost of router) text.entry (answer_cost_line r.0 ∷ [])
        (AtExit of router) r.1) }
{
    let (line, rest) = text.line()?;
    let cost = cost_of(line)?;
    Some((cost, rest))
}

/// The cost that a line says.
fn cost_of(line: &[u8]) -> Option<u16>
    ensures { MatchOption result ((cost : ℕ) → 0 < cost → IsCost cost →
        line.now ≢ answer_cost_line cost) (λ cost. (0 < cost) ×
        (line.now ≡ answer_cost_line cost)) }
{
    let cost = number_after(line, b" ip ospf cost ", 65_535)?;
    if cost == 0 { None } else { Some(cost as u16) }
}

/// The text behind the line that closes an interface.
fn exit_at(text: TextLeft<'_>) -> Result<TextLeft<'_>, Refusal<AnswerFault>>
    ensures { (of : Option OtherText) (router : List ℕ) → MatchResult result
        (λ rest. Goes (AtExit of router) text.entry (codes "exit" ∷ [])
        (AtSections of (Some router)) rest) (StopsReader (AtExit of router) text.entry) }
{
    match text.behind(b"exit") {
        Some(rest) => Ok(rest),
        None => Err(fault_at(text, begins_exit(text.left))),
    }
}
