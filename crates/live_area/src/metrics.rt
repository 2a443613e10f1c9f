//! The metrics of links, found by the ends of linked interfaces.
ghost use Rattle.std.specs.Prelude.{◌≡◌, List, [], ◌∷◌, ◌++◌, true, Some, if◌then◌else◌, IfOk, OnOk};
ghost use Rattle.std.specs.List.{list_any};
ghost use Rattle.indexmap.specs.IndexMap.{get};
ghost use Rattle.lsa_writer.specs.declared.ends.LinkEnd.{LinkEnd as OneEnd};
ghost use Rattle.live_area.specs.declared.links.LiveLink.{LiveLink as OneLink};
ghost use Rattle.live_area.specs.declared.metrics.LinkName.{LinkName as Key};
ghost use Rattle.live_area.specs.LiveLinks as definition;
ghost use Rattle.live_area.specs.LiveLinks.{metric_at, same_link};
ghost use Rattle.live_area.specs.Indexes.{HasLinkMetrics, metric_noted};

use crate::links::LiveLink;
use cost_base::OutOfMemory;
use indexmap::IndexMap;
use lsa_writer::LinkEnd;
use std::alloc::Global;

/// What names a link: its advertising router and its link data.
#[derive(Clone, Copy, PartialEq, Eq, Hash)]
pub struct LinkName {
    router: u32,
    address: u32,
}

/// The metrics of the links of ends: of each end's name that of its first link, where there is one.
#[derive(Drop)]
pub struct EndMetrics {
    by_name: IndexMap<LinkName, Option<u16>>,
}

/// The name of an end's link.
fn name_of_end(end: LinkEnd) -> LinkName
    ensures { result ≡ definition.name_of_end end }
{
    LinkName {
        router: end.router,
        address: end.address,
    }
}

/// The name of a link.
fn name_of_link(link: LiveLink) -> LinkName
    ensures { result ≡ definition.name_of_link link }
{
    LinkName {
        router: link.router,
        address: link.address,
    }
}

/// What is noted of a name behind a link that it names: the first metric.
fn noted(found: Option<Option<u16>>, metric: u16) -> Option<Option<u16>>
    ensures { result ≡ metric_noted found metric }
{
    match found {
        Some(None) => Some(Some(metric)),
        _ => found,
    }
}

impl EndMetrics {
    /// No metric of the links of ends.
    fn of_ends(alloc: Global, ends: &[LinkEnd]) -> Result<EndMetrics, OutOfMemory>
        ensures { IfOk result (λ metrics. HasLinkMetrics metrics.by_name ends.now []) }
    {
        let mut metrics = EndMetrics {
            by_name: IndexMap::new(alloc),
        };
        for end in ends {
            metrics.put(name_of_end(*end), None)?;
        }
        Ok(metrics)
    }

    /// The metrics of the links of ends among links.
    pub fn among(
        alloc: Global,
        ends: &[LinkEnd],
        links: &[LiveLink],
    ) -> Result<EndMetrics, OutOfMemory>
        ensures { IfOk result (λ metrics. HasLinkMetrics metrics.by_name ends.now links.now) }
    {
        let mut metrics = EndMetrics::of_ends(alloc, ends)?;
        for link in links {
            metrics.add(*link)?;
        }
        Ok(metrics)
    }

    /// Adds a link behind those that are there.
    fn add(&mut self, link: LiveLink) -> Result<(), OutOfMemory>
        ensures { OnOk result ((ends : List OneEnd) (links : List OneLink) →
            HasLinkMetrics self.old.by_name ends links → HasLinkMetrics self.new.by_name ends
            (links ++ link ∷ [])) }
    {
        let name = name_of_link(link);
        if let Some(metric) = noted(self.of(name), link.metric) {
            self.put(name, metric)?;
        }
        Ok(())
    }

    /// Writes the metric of a link.
    fn put(&mut self, name: LinkName, metric: Option<u16>) -> Result<(), OutOfMemory>
        ensures { OnOk result ((other : Key) → get same_link self.new.by_name other ≡
            (if same_link name other then Some metric else get same_link self.old.by_name other)) }
    {
        self.by_name.insert(name, metric)?;
        Ok(())
    }

    /// The metric of a link, where it is one of an end.
    fn of(&self, name: LinkName) -> Option<Option<u16>>
        ensures { result ≡ get same_link self.now.by_name name }
    {
        self.by_name.get(&name).copied()
    }

    /// The metric of the link of one of the ends.
    pub fn at(&self, end: LinkEnd) -> Option<u16>
        ensures { (ends : List OneEnd) (links : List OneLink) → HasLinkMetrics self.now.by_name ends
            links → list_any (definition.is_end_named (definition.name_of_end end)) ends ≡ true →
            result ≡ metric_at end links }
    {
        match self.of(name_of_end(end)) {
            Some(metric) => metric,
            None => None,
        }
    }

    /// Whether one of the ends has the router ID and the address of a link.
    pub fn has_end(&self, link: LiveLink) -> bool
        ensures { (ends : List OneEnd) (links : List OneLink) → HasLinkMetrics self.now.by_name ends
            links → result ≡
            list_any (definition.is_end_named (definition.name_of_link link)) ends }
    {
        self.of(name_of_link(link)).is_some()
    }
}
