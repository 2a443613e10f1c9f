//! Router-LSAs beside the configurations.
ghost use Rattle.std.specs.Prelude.{◌≡◌, ◌&&◌, List, [], ◌∷◌, ◌++◌, None, Some, if◌then◌else◌, not, IfOk, OnOk, flat_map, option_to_list};
ghost use Rattle.std.specs.List.{list_any};
ghost use Rattle.lsa_writer.specs.declared.ends.LinkEnd.{LinkEnd as OneEnd};
ghost use Rattle.live_area.specs.declared.links.LiveLink.{LiveLink as OneLink};
ghost use Rattle.live_area.specs.Indexes.{HasLinkMetrics, HaveAddresses};
ghost use Rattle.live_area.specs.Differences as definition;

use crate::Difference;
use crate::links::{LiveLink, links_of_lsa};
use crate::metrics::EndMetrics;
use cost_base::{OutOfMemory, push_some};
use interface_model::RouterConfig;
use lsa_bytes::{Lsa, have_id, is_router};
use std::alloc::Global;
use std::collections::BTreeSet;

/// The line of a link: none where it is the first of its data that its router-LSA has, and that of a linked interface.
fn unknown_line(known: bool, first: bool, link: LiveLink) -> Option<Difference>
    ensures { result ≡
        (if known && first then None
        else Some (Difference.Unknown link.router link.address link.metric)) }
{
    if known && first {
        return None;
    }
    Some(Difference::Unknown {
        router: link.router,
        address: link.address,
        live: link.metric,
    })
}

/// Notes the data of a link behind others; tells whether none of them has these data.
fn see(seen: &mut BTreeSet<u32>, link: LiveLink) -> Result<bool, OutOfMemory>
    ensures first { IfOk result (λ first. (before : List OneLink) → HaveAddresses seen.old before →
        first ≡ not (list_any (definition.has_address link.address) before)) }
    ensures seen { OnOk result ((before : List OneLink) → HaveAddresses seen.old before →
        HaveAddresses seen.new (before ++ link ∷ [])) }
{
    Ok(seen.insert(link.address)?)
}

/// Adds the lines of the links of a router-LSA, in order.
fn push_unknown_lines(
    alloc: Global,
    lines: &mut Vec<Difference>,
    metrics: &EndMetrics,
    links: &[LiveLink],
) -> Result<(), OutOfMemory>
    ensures { OnOk result ((ends : List OneEnd) (all : List OneLink) →
        HasLinkMetrics metrics.now.by_name ends all → lines.new.items ≡
        lines.old.items ++ definition.unknown_lines ends [] links.now) }
{
    let mut seen = BTreeSet::new(alloc);
    for link in links {
        let first = see(&mut seen, *link)?;
        push_some(lines, unknown_line(metrics.has_end(*link), first, *link))?;
    }
    Ok(())
}

/// Adds the lines of an LSA.
fn push_lsa_lines(
    alloc: Global,
    lines: &mut Vec<Difference>,
    configs: &[RouterConfig],
    metrics: &EndMetrics,
    lsa: &Lsa,
) -> Result<(), OutOfMemory>
    ensures { OnOk result ((ends : List OneEnd) (all : List OneLink) →
        HasLinkMetrics metrics.now.by_name ends all → lines.new.items ≡
        lines.old.items ++ definition.lsa_lines configs.now ends lsa.now) }
{
    if !is_router(lsa) {
        return Ok(());
    }
    if !have_id(configs, lsa.router) {
        return push_some(lines, Some(Difference::Stranger { router: lsa.router }));
    }
    let links = links_of_lsa(alloc, lsa)?;
    push_unknown_lines(alloc, lines, metrics, &links)?;
    Ok(())
}

/// Adds the lines of router-LSAs, in order.
pub fn push_router_lines(
    alloc: Global,
    lines: &mut Vec<Difference>,
    configs: &[RouterConfig],
    metrics: &EndMetrics,
    lsas: &[Lsa],
) -> Result<(), OutOfMemory>
    ensures { OnOk result ((ends : List OneEnd) (all : List OneLink) →
        HasLinkMetrics metrics.now.by_name ends all → lines.new.items ≡
        lines.old.items ++ flat_map (definition.lsa_lines configs.now ends) lsas.now) }
{
    for lsa in lsas {
        push_lsa_lines(alloc, lines, configs, metrics, lsa)?;
    }
    Ok(())
}
