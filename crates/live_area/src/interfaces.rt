//! Linked interfaces beside their links.
ghost use Rattle.std.specs.Prelude.{◌≡◌, ◌≤◌, ◌++◌, ℕ, List, None, IfOk, OnOk, count_by, length, slice_index};
ghost use Rattle.std.specs.List.{list_any};
ghost use Rattle.std.specs.Ordering.{nat_cmp};
ghost use Rattle.std.specs.BTreeSet.{contains};
ghost use Rattle.lsdb_build.specs.Graphs.{router_of};
ghost use Rattle.lsa_bytes.specs.Databases.{is_router_of};
ghost use Rattle.live_area.specs.declared.links.LiveLink.{LiveLink as OneLink};
ghost use Rattle.live_area.specs.Indexes.{HasLinkMetrics};
ghost use Rattle.live_area.specs.Differences as definition;

use crate::Difference;
use crate::metrics::EndMetrics;
use cost_base::{OutOfMemory, push_some};
use lsa_bytes::{Lsa, is_router};
use lsa_writer::CostedLinks;
use lsdb_build::Linked;
use std::alloc::Global;
use std::collections::BTreeSet;

/// A linked interface: the number of its configuration, its own, its present cost, whether a router-LSA of its router
/// counts, and the metric of its link.
#[derive(Clone, Copy)]
pub struct Compared {
    pub router: u32,
    pub link: u32,
    pub cost: u16,
    pub counts: bool,
    pub metric: Option<u16>,
}

/// The advertising routers of the router-LSAs.
fn router_ids(alloc: Global, lsas: &[Lsa]) -> Result<BTreeSet<u32>, OutOfMemory>
    ensures { IfOk result (λ ids. (router : ℕ) → contains nat_cmp ids router ≡
        list_any (is_router_of router) lsas.now) }
{
    let mut ids = BTreeSet::new(alloc);
    for lsa in lsas {
        if is_router(lsa) {
            ids.insert(lsa.router)?;
        }
    }
    Ok(ids)
}

/// The number of the router of a link by its number, 0 where there is none.
#[tactic(auto, using(crate::proofs::LineSteps::routers_known))]
fn router_of(links: &[Linked], link: usize) -> u32
    ensures { result ≡ router_of links.now link }
{
    match links.get(link) {
        Some(link) => link.router,
        None => 0,
    }
}

/// The present cost of a link by its number, 0 where there is none.
fn cost_at(costs: &[u16], link: usize) -> u16
    ensures { result ≡ slice_index costs.now link }
{
    costs.get(link).copied().unwrap_or(0)
}

/// The linked interfaces with what the router-LSAs say of them, in order.
pub fn compare_interfaces(
    alloc: Global,
    lsas: &[Lsa],
    metrics: &EndMetrics,
    of: CostedLinks<'_>,
) -> Result<Vec<Compared>, OutOfMemory>
    requires { length of.ends.now ≤ 4000 }
    ensures { IfOk result (λ interfaces. (all : List OneLink) →
        HasLinkMetrics metrics.now.by_name of.entry.ends.now all →
        interfaces.items ≡ definition.compared_from lsas.now all of.entry.links.now
        of.entry.costs.now 0 of.entry.ends.now) }
{
    let routers = router_ids(alloc, lsas)?;
    let mut interfaces = Vec::new(alloc);
    for (link, end) in of.ends.iter().enumerate() {
        interfaces.push(Compared {
            router: router_of(of.links, link),
            link: link as u32,
            cost: cost_at(of.costs, link),
            counts: routers.contains(&end.router),
            metric: metrics.at(*end),
        })?;
    }
    Ok(interfaces)
}

/// The line of a linked interface with a link, or without one, in a router-LSA.
fn compared_line(interface: Compared) -> Option<Difference>
    ensures { result ≡ definition.compared_line interface interface.metric }
{
    match interface.metric {
        None => Some(Difference::Missing {
            link: interface.link,
        }),
        Some(live) => {
            if live == interface.cost {
                None
            } else {
                Some(Difference::Cost {
                    link: interface.link,
                    file: interface.cost,
                    live,
                })
            }
        }
    }
}

/// The line of a linked interface behind one of the router `before`.
fn link_line(before: Option<u32>, interface: Compared) -> Option<Difference>
    ensures { result ≡ definition.link_line before interface }
{
    if interface.counts {
        return compared_line(interface);
    }
    if before == Some(interface.router) {
        None
    } else {
        Some(Difference::Absent {
            router: interface.router,
        })
    }
}

/// Adds the lines of linked interfaces, in order.
pub fn push_interface_lines(
    lines: &mut Vec<Difference>,
    interfaces: &[Compared],
) -> Result<(), OutOfMemory>
    ensures { OnOk result (lines.new.items ≡ lines.old.items ++
        definition.compared_lines None interfaces.now) }
{
    let mut before = None;
    for interface in interfaces {
        push_some(lines, link_line(before, *interface))?;
        before = Some(interface.router);
    }
    Ok(())
}

/// Whether an interface has a link with its present cost.
fn is_same(interface: &Compared) -> bool
    ensures { result ≡ definition.is_as_said interface.now }
{
    interface.metric == Some(interface.cost)
}

/// How many interfaces have a link with their present cost.
pub fn same_count(interfaces: &[Compared]) -> u32
    requires { length interfaces.now ≤ 4000 }
    ensures { result ≡ count_by definition.is_as_said interfaces.now }
{
    let mut same = 0;
    for interface in interfaces {
        if is_same(interface) {
            same += 1;
        }
    }
    same
}
