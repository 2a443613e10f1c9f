//! Which links have which variables.
ghost use Rattle.std.specs.Prelude.{◌≡◌, ◌&&◌, ◌==◌, ◌<◌, ◌++◌, [], Some, option_to_list, map, slice_get, IfOk, IfErr, OnOk};
ghost use Rattle.std.specs.List.{list_any, filter_map};
ghost use Rattle.cost_base.specs.Lists.{first_of};
ghost use Rattle.path_requests.specs.Meaning.{AsItIs, range_of, is_free, low_of, high_of, is_symmetric, owner_at, own, owners, range_at};
ghost use Rattle.path_requests.specs.Resolving.{ends_differ, ends_differ_at, ties_different, ends_faults};
ghost use Rattle.wanted_paths.specs.LineFaults.{TellsResolution};

use crate::choices::Choices;
use crate::ranges::{Range, same_range};
use cost_base::{OutOfMemory, Refusal, push_if, push_some};
use lsdb_build::Linked;
use request_reader::{Directive, DirectiveLine};
use std::alloc::Global;
use wanted_paths::ResolutionFault;

/// The link whose variable a free link has.
pub fn owner(choices: &Choices, number: u32, link: &Linked) -> u32
    requires { slice_get choices.now.database.links number ≡ Some link.now }
    ensures { result ≡ owner_at choices.now.asked choices.now.database number (Some link.now) }
{
    let tied = choices.is_symmetric(number, link);
    match link.link_back {
        Some(link_back) => {
            if tied && link_back < number {
                link_back
            } else {
                number
            }
        }
        None => number,
    }
}

/// Whether a range is within bounds.
pub fn is_free(range: Range) -> bool
    ensures { result ≡ is_free range }
{
    match range {
        Range::Within(_, _) => true,
        Range::AsItIs => false,
    }
}

/// The lower bound of a range, 0 where it is fixed.
fn low_of(range: Range) -> u16
    ensures { result ≡ low_of range }
{
    match range {
        Range::Within(low, _) => low,
        Range::AsItIs => 0,
    }
}

/// The upper bound of a range, 0 where it is fixed.
fn high_of(range: Range) -> u16
    ensures { result ≡ high_of range }
{
    match range {
        Range::Within(_, high) => high,
        Range::AsItIs => 0,
    }
}

/// Whether a link has a variable of its own.
fn is_own(choices: &Choices, number: u32, link: &Linked) -> bool
    requires { slice_get choices.now.database.links number ≡ Some link.now }
    ensures { result ≡ (is_free (range_of choices.now.asked choices.now.database link.now) &&
        owner_at choices.now.asked choices.now.database number (Some link.now) == number) }
{
    let free = is_free(choices.range_of(number));
    free && owner(choices, number, link) == number
}

/// The links that have a variable of their own, in order.
pub fn own_links(alloc: Global, choices: &Choices) -> Result<Vec<u32>, OutOfMemory>
    ensures { IfOk result (λ made. made.items ≡ owners choices.now.asked choices.now.database) }
{
    let mut made = Vec::new(alloc);
    for (i, link) in choices.links().iter().enumerate() {
        let number = i as u32;
        push_if(&mut made, number, is_own(choices, number, link))?;
    }
    Ok(made)
}

/// Appends the lower bound of the link of a number.
fn push_low(choices: &Choices, number: u32, made: &mut Vec<u16>) -> Result<(), OutOfMemory>
    ensures { OnOk result (made.new.items ≡ made.old.items ++ map low_of
        (option_to_list (range_at choices.now.asked choices.now.database
        (slice_get choices.now.database.links number)))) }
{
    push_some(made, choices.range_at(number).map(low_of))
}

/// Appends the upper bound of the link of a number.
fn push_high(choices: &Choices, number: u32, made: &mut Vec<u16>) -> Result<(), OutOfMemory>
    ensures { OnOk result (made.new.items ≡ made.old.items ++ map high_of
        (option_to_list (range_at choices.now.asked choices.now.database
        (slice_get choices.now.database.links number)))) }
{
    push_some(made, choices.range_at(number).map(high_of))
}

/// The lower bounds of some links.
pub fn low_bounds(alloc: Global, choices: &Choices, own: &[u32]) -> Result<Vec<u16>, OutOfMemory>
    ensures { IfOk result
        (λ made. made.items ≡
        map low_of
        (filter_map (λ l. range_at choices.now.asked choices.now.database
        (slice_get choices.now.database.links l)) own.now)) }
{
    let mut made = Vec::new(alloc);
    for link in own {
        push_low(choices, *link, &mut made)?;
    }
    Ok(made)
}

/// The upper bounds of some links.
pub fn high_bounds(alloc: Global, choices: &Choices, own: &[u32]) -> Result<Vec<u16>, OutOfMemory>
    ensures { IfOk result
        (λ made. made.items ≡
        map high_of
        (filter_map (λ l. range_at choices.now.asked choices.now.database
        (slice_get choices.now.database.links l)) own.now)) }
{
    let mut made = Vec::new(alloc);
    for link in own {
        push_high(choices, *link, &mut made)?;
    }
    Ok(made)
}

/// Whether the ends of a link differ: one is free and the other is fixed, or both are free within different bounds.
fn ends_differ(choices: &Choices, number: u32, link: &Linked) -> bool
    requires { slice_get choices.now.database.links number ≡ Some link.now }
    ensures { result ≡ ends_differ choices.now.asked choices.now.database link.now }
{
    let Some(link_back) = link.link_back else {
        return false;
    };
    match choices.links().get(link_back as usize) {
        Some(_) => {
            let range = choices.range_of(number);
            !same_range(range, choices.range_of(link_back))
        }
        None => false,
    }
}

/// Whether the ends of the link of a number differ.
fn ends_differ_at(choices: &Choices, number: u32) -> bool
    ensures { result ≡ ends_differ_at choices.now.asked choices.now.database
        (slice_get choices.now.database.links number) }
{
    match choices.links().get(number as usize) {
        Some(link) => ends_differ(choices, number, link),
        None => false,
    }
}

/// Whether the ends of one of the links differ.
fn any_ends_differ(choices: &Choices) -> bool
    ensures { result ≡ list_any (ends_differ choices.now.asked choices.now.database)
        choices.now.database.links }
{
    for (i, link) in choices.links().iter().enumerate() {
        if ends_differ(choices, i as u32, link) {
            return true;
        }
    }
    false
}

/// Whether a line makes a link symmetric whose ends differ. `any` tells whether there is such a link.
fn ties_different(choices: &Choices, any: bool, directive: &Directive) -> bool
    requires { any ≡ list_any (ends_differ choices.now.asked choices.now.database)
        choices.now.database.links }
    ensures { result ≡ ties_different choices.now.asked choices.now.database directive.now }
{
    match directive {
        Directive::SymmetricAll => any,
        Directive::Symmetric(router, interface) => {
            let names = choices.names();
            let number = names.link_number(router.as_bytes(), interface.as_bytes());
            ends_differ_at(choices, number)
        }
        _ => false,
    }
}

/// Whether no line makes a link symmetric whose ends differ; the first that does.
pub fn check_ends(
    choices: &Choices,
    items: &[DirectiveLine],
) -> Result<(), Refusal<ResolutionFault, ()>>
    ensures made { OnOk result (ends_faults choices.now.asked choices.now.database items.now ≡ []) }
    ensures refused { IfErr result
        (TellsResolution
        (first_of (ends_faults choices.now.asked choices.now.database items.now))) }
{
    let any = any_ends_differ(choices);
    for item in items {
        if ties_different(choices, any, &item.what) {
            return Err(Refusal::at((), ResolutionFault::EndsDiffer { line: item.line }));
        }
    }
    Ok(())
}
