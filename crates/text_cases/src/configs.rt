//! What a configuration says, as it is written.

use config_reader::{ConfigFault, read_config};
use cost_base::Refusal;
use interface_model::{Interface, Kind, RouterConfig};
use std::alloc::{AllocError, Global};
use std::fmt;

/// No text of a script is longer.
pub const LONGEST: usize = 1_000_000;

/// An IPv4 address, as it is written.
#[derive(Drop)]
struct Quad(u32);

impl fmt::Display for Quad {
    fn fmt<W: fmt::Write>(&self, f: &mut fmt::Formatter<W>) -> fmt::Result {
        let [first, second, third, fourth] = self.0.to_be_bytes();
        write!(f, "{first}.{second}.{third}.{fourth}")
    }
}

/// A number behind a word, as they are written; nothing where there is no number.
#[derive(Drop)]
pub(crate) struct Said<'a, T>(pub(crate) &'a str, pub(crate) &'a Option<T>);

impl<'a, T: fmt::Display> fmt::Display for Said<'a, T> {
    fn fmt<W: fmt::Write>(&self, f: &mut fmt::Formatter<W>) -> fmt::Result {
        match self.1 {
            Some(number) => write!(f, "{}{number}", self.0),
            None => Ok(()),
        }
    }
}

/// An address and the length of its subnet, as they are written; nothing where there is no address.
#[derive(Drop)]
struct Subnet(Option<u32>, u8);

impl fmt::Display for Subnet {
    fn fmt<W: fmt::Write>(&self, f: &mut fmt::Formatter<W>) -> fmt::Result {
        match self.0 {
            Some(address) => write!(f, ", {}/{}", Quad(address), self.1),
            None => Ok(()),
        }
    }
}

/// An interface, as it is written: its name and line, and what else is said of it.
#[derive(Drop)]
struct Shown<'a>(&'a Interface);

impl<'a> fmt::Display for Shown<'a> {
    fn fmt<W: fmt::Write>(&self, f: &mut fmt::Formatter<W>) -> fmt::Result {
        let interface = self.0;
        write!(
            f,
            "{} at line {}{}{}{}{}",
            interface.name.as_bytes().escape_ascii(),
            interface.line,
            Subnet(interface.address, interface.length),
            Said(", area ", &interface.area),
            Said(", cost ", &interface.cost),
            Marks(interface)
        )
    }
}

/// What is said of an interface beside its address, area and cost; nothing of what stands where nothing is said.
#[derive(Drop)]
struct Marks<'a>(&'a Interface);

impl<'a> fmt::Display for Marks<'a> {
    fn fmt<W: fmt::Write>(&self, f: &mut fmt::Formatter<W>) -> fmt::Result {
        let interface = self.0;
        let kind = match interface.kind {
            Kind::PointToPoint => ", point-to-point",
            Kind::Broadcast => "",
        };
        let passive = if interface.passive { ", passive" } else { "" };
        let down = if interface.down { ", down" } else { "" };
        match interface.priority {
            1 => write!(f, "{kind}{passive}{down}"),
            priority => write!(f, "{kind}{passive}{down}, priority {priority}"),
        }
    }
}

/// The interfaces of a router, as they are written.
#[derive(Drop)]
struct Interfaces<'a>(&'a [Interface]);

impl<'a> fmt::Display for Interfaces<'a> {
    fn fmt<W: fmt::Write>(&self, f: &mut fmt::Formatter<W>) -> fmt::Result {
        for interface in self.0 {
            write!(f, "; {}", Shown(interface))?;
        }
        Ok(())
    }
}

/// The router's name and ID, and its interfaces.
fn router_text(alloc: Global, config: &RouterConfig) -> Result<String, AllocError> {
    let name = config.name.as_bytes().escape_ascii();
    let interfaces = Interfaces(config.interfaces.as_slice());
    match config.router_id {
        Some(id) => format!(in alloc; ": {name}, id {}{interfaces}", Quad(id)),
        None => format!(in alloc; ": {name}{interfaces}"),
    }
}

/// What a configuration says that isn't longer than any of a script.
pub(crate) fn config_of(
    alloc: Global,
    name: &str,
    bytes: &[u8],
) -> Result<RouterConfig, Refusal<ConfigFault>> {
    if bytes.len() > LONGEST {
        return Err(Refusal::OutOfMemory);
    }
    read_config(alloc, name, bytes)
}

/// `config MORE`: what the last text says as a configuration, or its first fault. Its name is the file's.
pub(crate) fn config_text(
    alloc: Global,
    file_name: &str,
    bytes: &[u8],
) -> Result<String, AllocError> {
    match config_of(alloc, file_name, bytes) {
        Ok(config) => router_text(alloc, &config),
        Err(stop) => format!(in alloc; ": {stop:?}"),
    }
}
