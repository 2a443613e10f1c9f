//! Which links are free, and within which bounds.
ghost use Rattle.std.specs.Prelude.{◌≡◌, ◌&&◌, Option, Some, None, if◌then◌else◌, map, unwrap_or, IfOk};
ghost use Rattle.std.specs.Option.{option_or};
ghost use Rattle.lsdb_build.specs.declared.Linked.{Linked as LinkValue};
ghost use Rattle.wanted_paths.specs.Paths.{is_link_named};
ghost use Rattle.path_requests.specs.Meaning.{range_by};
ghost use Rattle.path_requests.specs.Chosen.{said_of_all, said_of_one};
ghost use Rattle.path_requests.specs.Resolving.{same_range};

use cost_base::OutOfMemory;
use lsdb_build::Linked;
use request_reader::{Directive, DirectiveLine};
use std::alloc::Global;
use wanted_paths::Names;

/// The range of a link: free within bounds, or fixed.
#[derive(Clone, Copy, Debug, PartialEq, Eq)]
pub enum Range {
    Within(u16, u16),
    AsItIs,
}

/// Whether two ranges are one.
pub fn same_range(range: Range, other: Range) -> bool
    ensures { result ≡ same_range range other }
{
    match (range, other) {
        (Range::Within(low, high), Range::Within(other_low, other_high)) => {
            low == other_low && high == other_high
        }
        (Range::AsItIs, Range::AsItIs) => true,
        (Range::Within(_, _), Range::AsItIs) => false,
        (Range::AsItIs, Range::Within(_, _)) => false,
    }
}

/// The range that a line gives to each link.
fn said_of_all(directive: &Directive) -> Option<Range>
    ensures { result ≡ said_of_all directive.now }
{
    match directive {
        Directive::FreeAll(low, high) => Some(Range::Within(*low, *high)),
        _ => None,
    }
}

/// Gives the link of an interface a range, if it has none yet.
fn decide(
    names: &Names,
    router: &[u8],
    interface: &[u8],
    range: Range,
    decided: &mut Vec<Option<Range>>,
)
    ensures { (f : LinkValue → Option Range) → decided.old.items ≡ map f names.now.links →
        decided.new.items ≡ map (λ link. option_or (f link)
        (if is_link_named names.now router.now interface.now link then Some range else None))
        names.now.links }
{
    match names.find_interface(router, interface) {
        Some(link) => {
            let place = link as usize;
            if place < decided.len() {
                decided[place] = decided[place].or(Some(range));
            }
        }
        None => {}
    }
}

/// Gives the link that a line names a range, if it has none yet.
fn decide_named(names: &Names, directive: &Directive, decided: &mut Vec<Option<Range>>)
    ensures { (f : LinkValue → Option Range) → decided.old.items ≡ map f names.now.links →
        decided.new.items ≡ map (λ link. option_or (f link)
        (said_of_one names.now link directive.now)) names.now.links }
{
    match directive {
        Directive::Free(router, interface, low, high) => {
            let range = Range::Within(*low, *high);
            decide(
                names,
                router.as_bytes(),
                interface.as_bytes(),
                range,
                decided,
            );
        }
        Directive::Fix(router, interface) => {
            let range = Range::AsItIs;
            decide(
                names,
                router.as_bytes(),
                interface.as_bytes(),
                range,
                decided,
            );
        }
        _ => {}
    }
}

/// Gives ranges from the last line back to one that frees all links; the range of those that have none then.
fn decide_lines(names: &Names, items: &[DirectiveLine], decided: &mut Vec<Option<Range>>) -> Range
    requires { decided.old.items ≡ map (λ link. None) names.now.links }
    ensures { map (λ said. unwrap_or said result) decided.new.items ≡
        map (λ link. range_by names.now link items.now) names.now.links }
{
    for place in (0..items.len()).rev() {
        let directive = &items[place].what;
        match said_of_all(directive) {
            Some(range) => return range,
            None => decide_named(names, directive, decided),
        }
    }
    Range::AsItIs
}

/// No range for each link.
fn no_ranges(alloc: Global, names: &Names) -> Result<Vec<Option<Range>>, OutOfMemory>
    ensures { IfOk result (λ made. made.items ≡ map (λ link. None) names.now.links) }
{
    Ok(vec![in alloc; None; names.links().len()]?)
}

/// The ranges; for the links that have none, this one.
fn ranges_or(
    alloc: Global,
    decided: &[Option<Range>],
    other: Range,
) -> Result<Vec<Range>, OutOfMemory>
    ensures { IfOk result (λ ranges. ranges.items ≡ map (λ said. unwrap_or said other)
        decided.now) }
{
    let mut ranges = Vec::new(alloc);
    for said in decided {
        ranges.push(said.unwrap_or(other))?;
    }
    Ok(ranges)
}

/// The range of each link: the last line that says it counts. One pass over the lines, whose links are looked up by
/// their names.
pub fn ranges_by(
    alloc: Global,
    names: &Names,
    items: &[DirectiveLine],
) -> Result<Vec<Range>, OutOfMemory>
    ensures { IfOk result (λ ranges. ranges.items ≡ map (λ link. range_by names.now link items.now)
        names.now.links) }
{
    let mut decided = no_ranges(alloc, names)?;
    let other = decide_lines(names, items, &mut decided);
    ranges_or(alloc, &decided, other)
}
