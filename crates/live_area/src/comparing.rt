//! Comparing the running area with its configurations.
ghost use Rattle.std.specs.Prelude.{◌≡◌, IfOk, length};
ghost use Rattle.live_area.specs.Differences.{difference_lines};

use crate::Difference;
use crate::interfaces::{compare_interfaces, push_interface_lines, same_count};
use crate::links::live_links;
use crate::metrics::EndMetrics;
use crate::routers::push_router_lines;
use cost_base::OutOfMemory;
use interface_model::RouterConfig;
use lsa_bytes::LsaDatabase;
use lsa_writer::{CostedLinks, ends_of};
use lsdb_build::Lsdb;
use std::alloc::Global;

/// Where the running area differs from its configurations, line by line: first the linked interfaces, in order, whose
/// link has another metric than their present cost, or that have no link, or of whose router no router-LSA counts
/// (which is said once for each router); then the router-LSAs, in order, that no configuration knows, and the links
/// that are those of no linked interface; and last how many linked interfaces have a link with their present cost.
///
/// The link of an interface is the first one of type 1 or 2 in the router-LSA of its router ID whose link data is its
/// address.
///
/// # Errors
///
/// `OutOfMemory` where memory runs out, and never else.
pub fn compare(
    alloc: Global,
    configs: &[RouterConfig],
    lsdb: &Lsdb,
    costs: &[u16],
    live: &LsaDatabase,
) -> Result<Vec<Difference>, OutOfMemory>
    requires { length costs.now ≡ length lsdb.now.links }
    ensures { IfOk result (λ lines. lines.items ≡ difference_lines configs.now lsdb.now costs.now
        live.now) }
{
    let links = lsdb.links.as_slice();
    let ends = ends_of(alloc, configs, links)?;
    let lsas = live.as_slice();
    let found = live_links(alloc, lsas)?;
    let metrics = EndMetrics::among(alloc, &ends, &found)?;
    let costed = CostedLinks {
        links,
        ends: &ends,
        costs,
    };
    let interfaces = compare_interfaces(alloc, lsas, &metrics, costed)?;
    let mut lines = Vec::new(alloc);
    push_interface_lines(&mut lines, &interfaces)?;
    push_router_lines(alloc, &mut lines, configs, &metrics, lsas)?;
    lines.push(Difference::Same {
        same: same_count(&interfaces),
        linked: links.len() as u32,
    })?;
    Ok(lines)
}
