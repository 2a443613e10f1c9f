//! The database of an area from the configurations of its routers, or the first fault.
ghost use Rattle.std.specs.Prelude.{◌≡◌, ◌<◌, ◌≤◌, [], ◌∷◌, None, length, map, slice_get, IfOk, IfErr, OnOk, MatchResult};
ghost use Rattle.lsdb_build.specs.Neighbours.{shares_subnet};
ghost use Rattle.lsdb_build.specs.Topology.{topology_fault, database_of, places_from, first_some, at_port, at_config, first_where, second_of_name};
ghost use Rattle.lsdb_build.specs.Topology.{is_second_of_router, is_second_of_address, is_mismatch, is_crowding, Tells};
ghost use Rattle.lsdb_build.specs.Graphs.{IsAreaDatabase};
ghost use Rattle.lsdb_build.specs.Links.{link_among};
ghost use Rattle.lsdb_build.specs.declared.fault.TopologyFault.TheVariants.{TooMany, NameTwice, SameRouterTwice, AddressTwice, TypeMismatch, CrowdedLink};

use crate::checks::{
    SubnetCheck, refuse_many_configs, refuse_many_ports, refuse_on_subnet, refuse_second_name,
    refuse_second_of_address, refuse_second_of_router, refuse_undesignated,
};
use crate::links::{linked_ports, links_of, names_of, subnets_of, transit_ports};
use crate::overlaps::refuse_overlap;
use crate::places::places_of;
use crate::port::{Port, active_ports};
use crate::{ConfigLine, Lsdb, TopologyFault};
use cost_base::{Listed, OutOfMemory, Refusal};
use interface_model::RouterConfig;
use std::alloc::Global;

/// Refuses what the checks before the designated routers refuse.
fn refuse_ports(
    alloc: Global,
    configs: &[RouterConfig],
    ports: &[Port],
) -> Result<(), Refusal<TopologyFault, ConfigLine>>
    requires { length configs.now ≤ 1000 }
    ensures fault { let fault = first_some (at_port TooMany (slice_get ports.now 4000)
        ∷ at_config NameTwice (second_of_name [] 0 configs.now)
        ∷ at_port SameRouterTwice (first_where is_second_of_router [] ports.now)
        ∷ at_port AddressTwice (first_where is_second_of_address [] ports.now)
        ∷ at_port TypeMismatch (first_where is_mismatch [] ports.now)
        ∷ at_port CrowdedLink (first_where is_crowding [] ports.now)
        ∷ []) in
        MatchResult result (λ _. fault ≡ None) (Tells fault) }
    ensures few { OnOk result (length ports.now ≤ 4000) }
{
    refuse_many_ports(ports)?;
    refuse_second_name(alloc, configs)?;
    refuse_second_of_router(alloc, ports)?;
    refuse_second_of_address(alloc, ports)?;
    refuse_on_subnet(alloc, ports, SubnetCheck::Kinds)?;
    refuse_on_subnet(alloc, ports, SubnetCheck::Ends)?;
    Ok(())
}

/// The database of linked interfaces and the first members of their transit subnets.
fn assemble(
    alloc: Global,
    configs: &[RouterConfig],
    links: &[Port],
    transit: &[Port],
) -> Result<Lsdb, OutOfMemory>
    requires links { length links.now ≤ 4000 }
    requires transit { length transit.now ≤ 4000 }
    requires fits { IsAreaDatabase (record {
      routers = map (λ r. r.name) configs.now;
      links = map (link_among links.now transit.now) links.now;
      subnets = map (λ first. places_from 0 (shares_subnet first) links.now) transit.now;
    }) }
    ensures { IfOk result (λ d. d ≡ record {
      routers = map (λ r. r.name) configs.now;
      links = map (link_among links.now transit.now) links.now;
      subnets = map (λ first. places_from 0 (shares_subnet first) links.now) transit.now;
    }) }
{
    let routers = names_of(alloc, configs)?;
    let places = places_of(alloc, links)?;
    let made = links_of(alloc, links, &places, transit)?;
    let subnets = subnets_of(alloc, &places, transit)?;
    Ok(Lsdb {
        routers: Listed::from_items(routers),
        links: Listed::from_items(made),
        subnets: Listed::from_items(subnets),
    })
}

/// The routers, links and transit subnets of an area, from the configurations of its routers in order.
///
/// # Errors
///
/// `Refused` with the first fault, in the order `TooMany`, `NameTwice`, `SameRouterTwice`, `AddressTwice`,
/// `TypeMismatch`, `CrowdedLink`, `NoDesignated`, `OverlapPrefix`, and at its first place: the later configuration or
/// interface; for `TooMany` the first past the limit; for `NoDesignated` the subnet's first member. `OutOfMemory` where
/// memory runs out.
pub fn build(
    alloc: Global,
    configs: &[RouterConfig],
    area: u32,
) -> Result<Lsdb, Refusal<TopologyFault, ConfigLine>>
    ensures made { IfOk result (λ d. (topology_fault area configs.now ≡ None) ×
        (d ≡ database_of area configs.now)) }
    ensures refused { IfErr result (Tells (topology_fault area configs.now)) }
{
    refuse_many_configs(configs)?;
    let ports = active_ports(alloc, configs, area)?;
    refuse_ports(alloc, configs, &ports)?;
    let links = linked_ports(alloc, &ports)?;
    let transit = transit_ports(alloc, &links)?;
    refuse_undesignated(alloc, &ports, &transit)?;
    refuse_overlap(alloc, &ports)?;
    Ok(assemble(alloc, configs, &links, &transit)?)
}
