//! The network that configurations make, as it is written.

use crate::configs::{Said, config_of};
use case_scripts::{Texts, Written};
use cost_base::Listed;
use interface_model::RouterConfig;
use lsdb_build::{Linked, Lsdb, build};
use std::alloc::{AllocError, Global};
use std::fmt;

/// Adds the configuration of a name, or gives what is told of its first fault.
fn add_config(
    alloc: Global,
    configs: &mut Vec<RouterConfig>,
    name: &str,
    bytes: &[u8],
) -> Result<Option<String>, AllocError> {
    match config_of(alloc, name, bytes) {
        Ok(config) => {
            configs.push(config)?;
            Ok(None)
        }
        Err(stop) => Ok(Some(format!(in alloc; ": {name}: {stop:?}")?)),
    }
}

/// Takes the network of configurations, or tells its first fault.
fn take_network(
    alloc: Global,
    network: &mut Option<Lsdb>,
    configs: &[RouterConfig],
) -> Result<String, AllocError> {
    match build(alloc, configs, 0) {
        Ok(lsdb) => {
            *network = Some(lsdb);
            String::from_str(alloc, "")
        }
        Err(stop) => format!(in alloc; ": {stop:?}"),
    }
}

/// `network NAME ..`: the network in area 0 of the configurations of these names, or its first fault. The network is at
/// hand from then on.
pub(crate) fn network_text(
    alloc: Global,
    texts: &Texts,
    network: &mut Option<Lsdb>,
    names: &str,
) -> Result<String, AllocError> {
    let mut configs = Vec::new(alloc);
    for name in names.split_whitespace() {
        let bytes = texts.named(name).unwrap_or(&[]);
        if let Some(fault) = add_config(alloc, &mut configs, name, bytes)? {
            return Ok(fault);
        }
    }
    take_network(alloc, network, configs.as_slice())
}

/// A linked interface, as it is written.
#[derive(Drop)]
struct Shown<'a>(&'a Linked);

impl<'a> fmt::Display for Shown<'a> {
    fn fmt<W: fmt::Write>(&self, f: &mut fmt::Formatter<W>) -> fmt::Result {
        let link = self.0;
        let name = link.interface.as_bytes().escape_ascii();
        write!(
            f,
            "{name} of {} at line {}, to {:?}{}{}",
            link.router,
            link.line,
            link.to,
            Said(", mate ", &link.link_back),
            Said(", cost ", &link.cost)
        )
    }
}

/// Links, each on a line of its own.
#[derive(Drop)]
struct Links<'a>(&'a [Linked]);

impl<'a> fmt::Display for Links<'a> {
    fn fmt<W: fmt::Write>(&self, f: &mut fmt::Formatter<W>) -> fmt::Result {
        for link in self.0 {
            write!(f, "\n  {}", Shown(link))?;
        }
        Ok(())
    }
}

/// Transit subnets, each on a line of its own.
#[derive(Drop)]
struct Subnets<'a>(&'a [Listed<u32>]);

impl<'a> fmt::Display for Subnets<'a> {
    fn fmt<W: fmt::Write>(&self, f: &mut fmt::Formatter<W>) -> fmt::Result {
        for members in self.0 {
            write!(f, "\n  subnet of links {}", Written(members.as_slice()))?;
        }
        Ok(())
    }
}

/// `links`: the routers, links and transit subnets of the network at hand.
pub(crate) fn links_text(alloc: Global, network: &Option<Lsdb>) -> Result<String, AllocError> {
    let Some(network) = network else {
        return String::from_str(alloc, ": no network");
    };
    let routers = network.routers.as_slice().len();
    let links = Links(network.links.as_slice());
    let subnets = Subnets(network.subnets.as_slice());
    format!(in alloc; ": {routers} routers{links}{subnets}")
}
