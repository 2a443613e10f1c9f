//! Which links the lines make symmetric.
ghost use Rattle.std.specs.Prelude.{◌≡◌, ◌||◌, ◌&&◌, Bool, is_some, map, IfOk};
ghost use Rattle.std.specs.List.{list_any};
ghost use Rattle.lsdb_build.specs.declared.Linked.{Linked as LinkValue};
ghost use Rattle.wanted_paths.specs.Paths.{is_link_named};
ghost use Rattle.path_requests.specs.Meaning.{says_symmetric};
ghost use Rattle.path_requests.specs.Chosen.{ties_all, ties_one};

use cost_base::{OutOfMemory, mark_within};
use lsdb_build::Linked;
use request_reader::{Directive, DirectiveLine};
use std::alloc::Global;
use wanted_paths::Names;

/// Whether a line makes each link symmetric that has another end.
fn ties_all(directive: &Directive) -> bool
    ensures { result ≡ ties_all directive.now }
{
    match directive {
        Directive::SymmetricAll => true,
        _ => false,
    }
}

/// Whether one of the lines makes each link symmetric that has another end.
fn any_ties_all(items: &[DirectiveLine]) -> bool
    ensures { result ≡ list_any (λ item. ties_all item.what) items.now }
{
    items.iter().any(|item| ties_all(&item.what))
}

/// Whether a link is symmetric where `all` tells whether each is that has another end.
fn is_tied(all: bool, link: &Linked) -> bool
    ensures { result ≡ (all && is_some link.now.link_back) }
{
    all && link.link_back.is_some()
}

/// Marks each link that has another end, if all such are symmetric.
fn tied_by_all(alloc: Global, names: &Names, all: bool) -> Result<Vec<bool>, OutOfMemory>
    ensures { IfOk result (λ marks. marks.items ≡ map (λ link. all && is_some link.link_back)
        names.now.links) }
{
    let mut marks = Vec::new(alloc);
    for link in names.links() {
        marks.push(is_tied(all, link))?;
    }
    Ok(marks)
}

/// Marks the link of an interface.
fn mark(names: &Names, router: &[u8], interface: &[u8], marks: &mut Vec<bool>)
    ensures { (f : LinkValue → Bool) → marks.old.items ≡ map f names.now.links →
        marks.new.items ≡ map (λ link. f link || is_link_named names.now router.now interface.now
        link) names.now.links }
{
    match names.find_interface(router, interface) {
        Some(link) => mark_within(marks, link as usize),
        None => {}
    }
}

/// Marks the link that a line names as symmetric.
fn mark_named(names: &Names, directive: &Directive, marks: &mut Vec<bool>)
    ensures { (f : LinkValue → Bool) → marks.old.items ≡ map f names.now.links →
        marks.new.items ≡ map (λ link. f link || ties_one names.now link directive.now)
        names.now.links }
{
    if let Directive::Symmetric(router, interface) = directive {
        mark(names, router.as_bytes(), interface.as_bytes(), marks);
    }
}

/// Marks the links that lines name as symmetric.
fn mark_lines(names: &Names, items: &[DirectiveLine], marks: &mut Vec<bool>)
    ensures { (f : LinkValue → Bool) → marks.old.items ≡ map f names.now.links →
        marks.new.items ≡
        map (λ link. f link || list_any (λ item. ties_one names.now link item.what) items.now)
        names.now.links }
{
    for item in items {
        mark_named(names, &item.what, marks);
    }
}

/// Whether a line makes each link symmetric, without the lines of its other end. One pass over the lines, whose links
/// are looked up by their names.
pub fn symmetric_by(
    alloc: Global,
    names: &Names,
    items: &[DirectiveLine],
) -> Result<Vec<bool>, OutOfMemory>
    ensures { IfOk result (λ marks. marks.items ≡ map (λ link.
        list_any (λ item. says_symmetric names.now link item.what) items.now) names.now.links) }
{
    let mut marks = tied_by_all(alloc, names, any_ties_all(items))?;
    mark_lines(names, items, &mut marks);
    Ok(marks)
}
