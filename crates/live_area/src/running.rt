//! An area at the costs at which it runs.
ghost use Rattle.std.specs.Prelude.{◌≡◌, ◌≤◌, List, None, Some, IfOk, is_some, length, map, slice_get, slice_index_or};
ghost use Rattle.std.specs.Option.{option_or};
ghost use Rattle.lsa_writer.specs.Ends.{end_of, link_ends, router_id_in};
ghost use Rattle.lsa_writer.specs.declared.ends.LinkEnd.{LinkEnd as OneEnd};
ghost use Rattle.live_area.specs.declared.links.LiveLink.{LiveLink as OneLink};
ghost use Rattle.live_area.specs.LiveLinks.{metric_at};
ghost use Rattle.live_area.specs.Indexes.{HasLinkMetrics};
ghost use Rattle.live_area.specs.LiveCosts as definition;

use crate::links::{LiveLink, live_links};
use crate::metrics::EndMetrics;
use cost_base::{Listed, Name, OutOfMemory, push_if};
use interface_model::RouterConfig;
use lsa_bytes::{Lsa, LsaDatabase};
use lsa_writer::{LinkEnd, ends_of};
use lsdb_build::{Linked, Lsdb};
use std::alloc::Global;

/// An area at the costs at which it runs.
#[derive(Drop)]
pub struct RunningArea {
    /// The area, with the metric of its link in place of each linked interface's cost, where it has a link.
    pub lsdb: Lsdb,
    /// The numbers of the linked interfaces without a link, in rising order.
    pub missing: Vec<u32>,
}

/// Whether the configuration of a number has a router ID.
fn has_router_id(configs: &[RouterConfig], router: u32) -> bool
    ensures { result ≡ is_some (router_id_in (slice_get configs.now router)) }
{
    match configs.get(router as usize) {
        Some(config) => config.router_id.is_some(),
        None => false,
    }
}

/// The end of a number, if there is one.
fn end_in(ends: &[LinkEnd], number: usize) -> Option<LinkEnd>
    ensures { result ≡ slice_get ends.now number }
{
    ends.get(number).copied()
}

/// The metric of the link of the end of a number, by the metrics of all ends.
fn metric_at(by_end: &EndMetrics, ends: &[LinkEnd], number: usize) -> Option<u16>
    ensures { (end : OneEnd) (live : List OneLink) → HasLinkMetrics by_end.now.by_name ends.now
        live → slice_get ends.now number ≡ Some end → result ≡ metric_at end live }
{
    match end_in(ends, number) {
        Some(end) => by_end.at(end),
        None => None,
    }
}

/// The metric of the link of a linked interface, by its number, and the ends of all with their metrics.
fn metric_of(
    configs: &[RouterConfig],
    by_end: &EndMetrics,
    ends: &[LinkEnd],
    number: usize,
    link: &Linked,
) -> Option<u16>
    requires { slice_get ends.now number ≡ Some (end_of configs.now link.now) }
    ensures { (live : List OneLink) → HasLinkMetrics by_end.now.by_name ends.now live →
        result ≡ definition.metric_among configs.now live link.now }
{
    if has_router_id(configs, link.router) {
        metric_at(by_end, ends, number)
    } else {
        None
    }
}

/// The metrics of the links of linked interfaces with these ends, in order.
fn metrics_of_ends(
    alloc: Global,
    configs: &[RouterConfig],
    found: &[LiveLink],
    ends: &[LinkEnd],
    links: &[Linked],
) -> Result<Vec<Option<u16>>, OutOfMemory>
    requires { ends.now ≡ link_ends configs.now links.now }
    ensures { IfOk result
        (λ metrics. metrics.items ≡ map (definition.metric_among configs.now found.now) links.now) }
{
    let by_end = EndMetrics::among(alloc, ends, found)?;
    let mut metrics = Vec::new(alloc);
    for (number, link) in links.iter().enumerate() {
        metrics.push(metric_of(configs, &by_end, ends, number, link))?;
    }
    Ok(metrics)
}

/// The metrics of the links of linked interfaces, in order.
fn metrics_among(
    alloc: Global,
    configs: &[RouterConfig],
    found: &[LiveLink],
    links: &[Linked],
) -> Result<Vec<Option<u16>>, OutOfMemory>
    ensures { IfOk result
        (λ metrics. metrics.items ≡ map (definition.metric_among configs.now found.now) links.now) }
{
    let ends = ends_of(alloc, configs, links)?;
    metrics_of_ends(alloc, configs, found, &ends, links)
}

/// The metrics of the links of linked interfaces, as LSAs say them, in order.
fn live_metrics(
    alloc: Global,
    configs: &[RouterConfig],
    links: &[Linked],
    lsas: &[Lsa],
) -> Result<Vec<Option<u16>>, OutOfMemory>
    ensures { IfOk result
        (λ metrics. metrics.items ≡ map (definition.live_metric configs.now lsas.now) links.now) }
{
    let found = live_links(alloc, lsas)?;
    metrics_among(alloc, configs, &found, links)
}

/// The numbers of the interfaces without a metric, in rising order.
fn missing_of(alloc: Global, metrics: &[Option<u16>]) -> Result<Vec<u32>, OutOfMemory>
    requires { length metrics.now ≤ 4000 }
    ensures { IfOk result (λ missing. missing.items ≡ definition.without_metric 0 metrics.now) }
{
    let mut missing = Vec::new(alloc);
    for (number, metric) in metrics.iter().enumerate() {
        push_if(&mut missing, number as u32, metric.is_none())?;
    }
    Ok(missing)
}

/// A linked interface with a metric in place of its cost, if there is one.
fn costed(alloc: Global, link: &Linked, metric: Option<u16>) -> Result<Linked, OutOfMemory>
    ensures { IfOk result
        (λ made. made ≡ record link.now { cost = option_or metric link.now.cost }) }
{
    Ok(Linked {
        router: link.router,
        interface: Name::from_bytes(alloc, link.interface.as_bytes())?,
        line: link.line,
        cost: metric.or(link.cost),
        to: link.to,
        link_back: link.link_back,
    })
}

/// The metric at a place, if there is one.
fn metric_in(metrics: &[Option<u16>], place: usize) -> Option<u16>
    ensures { result ≡ slice_index_or metrics.now place None }
{
    match metrics.get(place) {
        Some(metric) => *metric,
        None => None,
    }
}

/// Linked interfaces with the metrics at their places in place of their costs, where there are.
fn costed_links(
    alloc: Global,
    links: &[Linked],
    metrics: &[Option<u16>],
) -> Result<Vec<Linked>, OutOfMemory>
    ensures { IfOk result (λ made. made.items ≡ definition.costed_from metrics.now 0 links.now) }
{
    let mut made = Vec::new(alloc);
    for (place, link) in links.iter().enumerate() {
        made.push(costed(alloc, link, metric_in(metrics, place))?)?;
    }
    Ok(made)
}

/// An area at the costs at which it runs, as the LSAs that count say them. The link of a linked interface is the first
/// one of type 1 or 2 in the router-LSA of its router ID whose link data is its address; an interface of a
/// configuration without a router ID has none.
///
/// # Errors
///
/// `OutOfMemory` where memory runs out, and never else.
pub fn running_area(
    alloc: Global,
    configs: &[RouterConfig],
    lsdb: Lsdb,
    live: &LsaDatabase,
) -> Result<RunningArea, OutOfMemory>
    ensures costs { IfOk result (λ area. area.lsdb ≡ definition.with_live_costs configs.now live.now
        lsdb) }
    ensures missing { IfOk result (λ area. area.missing.items ≡ definition.missing_links configs.now
        live.now lsdb.links) }
{
    let metrics = live_metrics(alloc, configs, lsdb.links.as_slice(), live.as_slice())?;
    let links = costed_links(alloc, lsdb.links.as_slice(), &metrics)?;
    let missing = missing_of(alloc, &metrics)?;
    Ok(RunningArea {
        lsdb: Lsdb {
            routers: lsdb.routers,
            links: Listed::from_items(links),
            subnets: lsdb.subnets,
        },
        missing,
    })
}
