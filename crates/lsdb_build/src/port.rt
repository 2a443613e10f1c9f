//! The active interfaces of an area, and the subnets that they stand on.
ghost use Rattle.std.specs.Prelude.{◌≡◌, ◌+◌, ◌<◌, ◌≤◌, ◌++◌, length, All, IfOk, OnOk, option_to_list};
ghost use Rattle.interface_model.specs.Records.{IsRouter};
ghost use Rattle.lsdb_build.specs.Neighbours.{port_of, ports_of, ports, shares_subnet, is_broadcast};
ghost use Rattle.lsdb_build.specs.Tallies.{subnet_of};

use cost_base::{OutOfMemory, push_some};
use interface_model::{Interface, Kind, RouterConfig, is_active, subnet};
use std::alloc::Global;
use std::marker::Model;

/// An active interface of length at most 31, with its router's place among the configurations and its address.
#[derive(Drop)]
pub struct Port<'a> {
    pub router: u32,
    pub address: u32,
    pub interface: &'a Interface,
}

impl<'a> Model for Port<'a> {
    ghost use Rattle.std.specs.Prelude.{◌≤◌};
    ghost use Rattle.lsdb_build.specs.Neighbours.{Port};

    ghost Value = { Port };

    ghost view = { λ p. record {
      router = p.router;
      interface = p.interface.now;
      address = p.address;
    } };

    ghost invariant = { λ p. p.interface.now.length ≤ 31 };
}

impl<'a> Port<'a> {
    /// A copy of the interface with its router and address.
    pub fn again(&self) -> Port<'a>
        ensures { result ≡ self.now }
    {
        Port {
            router: self.router,
            address: self.address,
            interface: self.interface,
        }
    }
}

/// An interface with its router and its address, if it is active in the area and of length at most 31.
fn port_of<'a>(interface: &'a Interface, router: u32, area: u32) -> Option<Port<'a>>
    ensures { option_to_list result ≡ port_of area router interface.now interface.now.address }
{
    match interface.address {
        Some(address) if is_active(interface, area) && interface.length <= 31 => Some(Port {
            router,
            address,
            interface,
        }),
        _ => None,
    }
}

/// Appends the active interfaces of a router.
fn push_ports<'a>(
    into: &mut Vec<Port<'a>>,
    config: &'a RouterConfig,
    router: u32,
    area: u32,
) -> Result<(), OutOfMemory>
    ensures pushed { OnOk result (into.new.items ≡ into.old.items ++
        ports_of area router config.now.interfaces) }
    ensures valid { IsRouter config.now }
{
    for interface in config.interfaces.as_slice() {
        push_some(into, port_of(interface, router, area))?;
    }
    Ok(())
}

/// The active interfaces of an area, in the order of their routers.
pub fn active_ports<'a>(
    alloc: Global,
    configs: &'a [RouterConfig],
    area: u32,
) -> Result<Vec<Port<'a>>, OutOfMemory>
    requires { length configs.now ≤ 1000 }
    ensures ports { IfOk result (λ found. found.items ≡ ports area configs.now) }
    ensures valid { OnOk result (All IsRouter configs.now) }
{
    let mut found = Vec::new(alloc);
    let mut router = 0;
    for config in configs {
        push_ports(&mut found, config, router, area)?;
        router += 1;
    }
    Ok(found)
}

/// An address under a prefix length.
#[derive(Clone, Copy, PartialEq, Eq, Hash)]
pub struct Subnet {
    pub length: u8,
    pub address: u32,
}

/// The subnet of an interface.
pub fn subnet_of(port: &Port) -> Subnet
    ensures { result ≡ subnet_of port.now }
{
    let length = port.interface.length;
    Subnet {
        length,
        address: subnet(port.address, length),
    }
}

/// Whether two interfaces stand on one subnet.
pub fn shares_subnet(port: &Port, other: &Port) -> bool
    ensures { result ≡ shares_subnet port.now other.now }
{
    let first = port.interface;
    let second = other.interface;
    first.length == second.length
        && subnet(port.address, first.length) == subnet(other.address, second.length)
}

/// Whether the interface's network kind is broadcast.
pub fn is_broadcast(port: &Port) -> bool
    ensures { result ≡ is_broadcast port.now }
{
    match port.interface.kind {
        Kind::PointToPoint => false,
        Kind::Broadcast => true,
    }
}
