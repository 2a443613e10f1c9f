//! Resolves the lines of a request file, one by one.
ghost use Rattle.std.specs.Prelude.{◌≡◌, ◌++◌, [], slice_get, option_to_list, IfOk, IfErr, OnOk};
ghost use Rattle.std.specs.List.{filter_map};
ghost use Rattle.cost_base.specs.Lists.{first_of};
ghost use Rattle.wanted_paths.specs.Paths.{request_of};
ghost use Rattle.wanted_paths.specs.LineFaults.{has_link_back, directive_faults, line_faults, TellsResolution};
ghost use Rattle.wanted_paths.specs.Paths.{outline};
ghost use Rattle.request_reader.specs.declared.Directive.TheVariants.{Symmetric as SymmetricDirective};

use crate::ResolutionFault;
use crate::names::Names;
use crate::paths::Resolver;
use area_graph::Graph;
use cost_base::Refusal;
use design_problem::Request;
use request_reader::{Directive, DirectiveLine};
use std::alloc::Global;

/// Whether the link of a number is one of a point-to-point subnet.
fn has_link_back(names: &Names, number: u32) -> bool
    ensures { result ≡ has_link_back (slice_get names.now.links number) }
{
    match names.links().get(number as usize) {
        Some(link) => link.link_back.is_some(),
        None => false,
    }
}

/// Looks up the link of a `symmetric` line; its first fault where it doesn't resolve.
fn check_symmetric(
    names: &Names,
    line: u32,
    router: &[u8],
    interface: &[u8],
) -> Result<(), Refusal<ResolutionFault, ()>>
    ensures made { OnOk result
        (directive_faults names.now line (SymmetricDirective router.now interface.now) ≡ []) }
    ensures refused { IfErr result
        (TellsResolution
        (first_of
        (directive_faults names.now line (SymmetricDirective router.now interface.now)))) }
{
    let number = names.link(line, router, interface)?;
    if !has_link_back(names, number) {
        return Err(Refusal::at((), ResolutionFault::NotALink { line }));
    }
    Ok(())
}

/// Appends the request of a line, where it wants a path; the line's first fault where it doesn't resolve.
fn push_request(
    resolver: &mut Resolver,
    item: &DirectiveLine,
    made: &mut Vec<Request>,
) -> Result<(), Refusal<ResolutionFault, ()>>
    ensures resolves { OnOk result (directive_faults resolver.old item.now.line item.now.what ≡
        []) }
    ensures made { OnOk result (made.new.items ≡ made.old.items ++
        option_to_list (request_of resolver.old (outline resolver.old) item.now.what)) }
    ensures refused { IfErr result
        (TellsResolution (first_of (directive_faults resolver.old item.now.line item.now.what))) }
    ensures same { resolver.new ≡ resolver.old }
{
    let line = item.line;
    match &item.what {
        Directive::Path(route, parts) => {
            let request = resolver.path(line, route, parts.as_slice())?;
            made.push(request)?;
        }
        Directive::Free(router, interface, _, _) => {
            resolver
                .names()
                .link(line, router.as_bytes(), interface.as_bytes())?;
        }
        Directive::Fix(router, interface) => {
            resolver
                .names()
                .link(line, router.as_bytes(), interface.as_bytes())?;
        }
        Directive::Symmetric(router, interface) => {
            check_symmetric(
                resolver.names(),
                line,
                router.as_bytes(),
                interface.as_bytes(),
            )?;
        }
        Directive::FreeAll(_, _) => {}
        Directive::SymmetricAll => {}
    }
    Ok(())
}

/// The requests of the lines that want a path, in order; the first line's fault where one doesn't resolve.
///
/// # Errors
///
/// The first fault of a line, or `OutOfMemory`.
pub fn resolve_lines(
    alloc: Global,
    names: &Names,
    graph: &Graph,
    items: &[DirectiveLine],
) -> Result<Vec<Request>, Refusal<ResolutionFault, ()>>
    requires { graph.now ≡ outline names.now }
    ensures made { IfOk result (λ made. (line_faults names.now items.now ≡ []) ×
        (made.items ≡ filter_map (λ item. request_of names.now (outline names.now) item.what)
        items.now)) }
    ensures refused { IfErr result (TellsResolution (first_of (line_faults names.now items.now))) }
{
    let mut resolver = Resolver::new(alloc, names, graph)?;
    let mut made = Vec::new(alloc);
    for item in items {
        push_request(&mut resolver, item, &mut made)?;
    }
    Ok(made)
}
