//! The checks of interfaces and configurations, each against those before it: whether they make a topology.
ghost use Rattle.std.specs.Prelude.{◌≡◌, ◌<◌, ◌≤◌, ◌++◌, List, [], ◌∷◌, None, length, map, count_by, not, slice_get, IsTrue, MatchResult, IfSome, IfOk, IfErr};
ghost use Rattle.std.specs.List.{list_any};
ghost use Rattle.cost_base.specs.Lists.{same_bytes};
ghost use Rattle.lsdb_build.specs.Neighbours.{Port, shares_subnet};
ghost use Rattle.lsdb_build.specs.SubnetChecks.{fails, fault_of};
ghost use Rattle.lsdb_build.specs.Tallies.{IsTally, same_subnet, same_trait, subnet_of, member_of, kind_on, rank_on};
ghost use Rattle.lsdb_build.specs.Topology.{is_second_of_router, is_second_of_address, is_mismatch, is_crowding, lacks_designated, first_where, at_port};
ghost use Rattle.lsdb_build.specs.Topology.{at_config, past, second_of_name, Tells};
ghost use Rattle.lsdb_build.specs.declared.fault.TopologyFault.TheVariants.{TooMany, NameTwice, SameRouterTwice, AddressTwice, TypeMismatch, CrowdedLink};
ghost use Rattle.lsdb_build.specs.declared.fault.TopologyFault.TheVariants.{NoDesignated};

use crate::port::{Port, Subnet, is_broadcast, subnet_of};
use crate::tally::Tally;
use crate::{ConfigLine, TopologyFault};
use area_graph::MOST_ROUTERS;
use cost_base::{Name, OutOfMemory, Refusal};
use indexmap::IndexSet;
use interface_model::RouterConfig;
use std::alloc::Global;

/// The most active interfaces that an area may have: a limit of this program.
const MOST_INTERFACES: usize = 4000;

/// The refusal of an interface.
pub fn refusal_at(fault: TopologyFault, port: &Port) -> Refusal<TopologyFault, ConfigLine>
    ensures { result ≡ Refusal.Refused fault
        (record { config = port.now.router; line = port.now.interface.line }) }
{
    Refusal::at(
        ConfigLine {
            config: port.router,
            line: port.interface.line,
        },
        fault,
    )
}

/// A router on a subnet.
fn member_of(port: &Port) -> (u32, Subnet)
    ensures { result ≡ member_of port.now }
{
    (port.router, subnet_of(port))
}

/// Refuses the first interface of which an earlier one is of the same router and on the same subnet.
pub fn refuse_second_of_router(
    alloc: Global,
    ports: &[Port],
) -> Result<(), Refusal<TopologyFault, ConfigLine>>
    requires { length ports.now ≤ 4000 }
    ensures { let fault = at_port SameRouterTwice (first_where is_second_of_router [] ports.now) in
        MatchResult result (λ _. fault ≡ None) (Tells fault) }
{
    let mut seen = Tally::new(alloc);
    for port in ports {
        if seen.add(member_of(port))? > 0 {
            return Err(refusal_at(TopologyFault::SameRouterTwice, port));
        }
    }
    Ok(())
}

/// Refuses the first interface of which an earlier one has the address.
pub fn refuse_second_of_address(
    alloc: Global,
    ports: &[Port],
) -> Result<(), Refusal<TopologyFault, ConfigLine>>
    requires { length ports.now ≤ 4000 }
    ensures { let fault = at_port AddressTwice (first_where is_second_of_address [] ports.now) in
        MatchResult result (λ _. fault ≡ None) (Tells fault) }
{
    let mut seen = Tally::new(alloc);
    for port in ports {
        if seen.add(port.address)? > 0 {
            return Err(refusal_at(TopologyFault::AddressTwice, port));
        }
    }
    Ok(())
}

/// An interface's subnet, with whether the interface is broadcast.
fn kind_on(port: &Port) -> (bool, Subnet)
    ensures { result ≡ kind_on port.now }
{
    (is_broadcast(port), subnet_of(port))
}

/// Whether an interface before on the same subnet has another network kind.
fn is_mismatch(seen: &Tally<(bool, Subnet)>, port: &Port) -> bool
    ensures { (before : List Port) → IsTally same_trait seen.now.counts (map kind_on before) →
        result ≡ is_mismatch before port.now }
{
    let (broadcast, subnet) = kind_on(port);
    seen.count((!broadcast, subnet)) > 0
}

/// How many interfaces before stand on an interface's subnet, of whichever kind.
fn members_before(seen: &Tally<(bool, Subnet)>, port: &Port) -> u64
    ensures { (before : List Port) → IsTally same_trait seen.now.counts (map kind_on before) →
        result ≡ count_by (λ q. shares_subnet q port.now) before }
{
    let subnet = subnet_of(port);
    u64::from(seen.count((true, subnet))) + u64::from(seen.count((false, subnet)))
}

/// Whether two interfaces before are on the same point-to-point subnet.
fn is_crowding(seen: &Tally<(bool, Subnet)>, port: &Port) -> bool
    ensures { (before : List Port) → IsTally same_trait seen.now.counts (map kind_on before) →
        result ≡ is_crowding before port.now }
{
    let members = members_before(seen, port);
    !is_broadcast(port) && members >= 2
}

/// A check of an interface against those before it on its subnet.
#[derive(Clone, Copy)]
pub enum SubnetCheck {
    /// None has another network kind.
    Kinds,
    /// A point-to-point subnet has at most two ends.
    Ends,
}

/// Whether an interface fails a check.
fn fails(check: SubnetCheck, seen: &Tally<(bool, Subnet)>, port: &Port) -> bool
    ensures { (before : List Port) → IsTally same_trait seen.now.counts (map kind_on before) →
        result ≡ fails check before port.now }
{
    match check {
        SubnetCheck::Kinds => is_mismatch(seen, port),
        SubnetCheck::Ends => is_crowding(seen, port),
    }
}

/// The fault of an interface that fails a check.
fn fault_of(check: SubnetCheck) -> TopologyFault
    ensures { result ≡ fault_of check }
{
    match check {
        SubnetCheck::Kinds => TopologyFault::TypeMismatch,
        SubnetCheck::Ends => TopologyFault::CrowdedLink,
    }
}

/// Refuses the first interface that fails a check against those before it on its subnet.
pub fn refuse_on_subnet(
    alloc: Global,
    ports: &[Port],
    check: SubnetCheck,
) -> Result<(), Refusal<TopologyFault, ConfigLine>>
    requires { length ports.now ≤ 4000 }
    ensures { let fault = at_port (fault_of check) (first_where (fails check) [] ports.now) in
        MatchResult result (λ _. fault ≡ None) (Tells fault) }
{
    let mut seen = Tally::new(alloc);
    for port in ports {
        if fails(check, &seen, port) {
            return Err(refusal_at(fault_of(check), port));
        }
        seen.add(kind_on(port))?;
    }
    Ok(())
}

/// An interface's subnet, with whether the interface may become its designated router (RFC 2328, 9.4).
fn rank_on(port: &Port) -> (bool, Subnet)
    ensures { result ≡ rank_on port.now }
{
    (port.interface.priority > 0, subnet_of(port))
}

/// Counts the interfaces on each subnet that may become its designated router, and those that may not.
fn count_ranks(alloc: Global, ports: &[Port]) -> Result<Tally<(bool, Subnet)>, OutOfMemory>
    requires { length ports.now ≤ 4000 }
    ensures { IfOk result (λ ranks. IsTally same_trait ranks.counts (map rank_on ports.now)) }
{
    let mut ranks = Tally::new(alloc);
    for port in ports {
        ranks.add(rank_on(port))?;
    }
    Ok(ranks)
}

/// Whether no member of an interface's subnet may become its designated router.
fn lacks_designated(ranks: &Tally<(bool, Subnet)>, port: &Port) -> bool
    ensures { (all : List Port) → IsTally same_trait ranks.now.counts (map rank_on all) →
        result ≡ lacks_designated all port.now }
{
    ranks.count((true, subnet_of(port))) == 0
}

/// Refuses the first transit subnet at which every member has priority 0, at its first member.
pub fn refuse_undesignated(
    alloc: Global,
    ports: &[Port],
    transit: &[Port],
) -> Result<(), Refusal<TopologyFault, ConfigLine>>
    requires { length ports.now ≤ 4000 }
    ensures { let fault = at_port NoDesignated
        (first_where (λ before p. lacks_designated ports.now p) [] transit.now) in
        MatchResult result (λ _. fault ≡ None) (Tells fault) }
{
    let ranks = count_ranks(alloc, ports)?;
    for port in transit {
        if lacks_designated(&ranks, port) {
            return Err(refusal_at(TopologyFault::NoDesignated, port));
        }
    }
    Ok(())
}

/// Refuses more than 1,000 configurations.
pub fn refuse_many_configs(
    configs: &[RouterConfig],
) -> Result<(), Refusal<TopologyFault, ConfigLine>>
    ensures fault { let fault = at_config TooMany (past 1000 (length configs.now)) in
        MatchResult result (λ _. fault ≡ None) (Tells fault) }
    ensures refused { IfErr result (λ refusal. refusal ≡ Refusal.Refused TooMany
        (record { config = 1000; line = 0 })) }
    ensures few { MatchResult result (λ _. length configs.now ≤ 1000)
        (λ _. 1000 < length configs.now) }
{
    if configs.len() > MOST_ROUTERS {
        return Err(Refusal::at(
            ConfigLine {
                config: MOST_ROUTERS as u32,
                line: 0,
            },
            TopologyFault::TooMany,
        ));
    }
    Ok(())
}

/// Refuses more than 4,000 active interfaces, at the first past them.
pub fn refuse_many_ports(ports: &[Port]) -> Result<(), Refusal<TopologyFault, ConfigLine>>
    ensures fault { let fault = at_port TooMany (slice_get ports.now 4000) in
        MatchResult result (λ _. fault ≡ None) (Tells fault) }
    ensures refused { IfErr result (λ refusal. IfSome (slice_get ports.now 4000)
        (λ port. refusal ≡ Refusal.Refused TooMany
        (record { config = port.router; line = port.interface.line }))) }
    ensures few { MatchResult result (λ _. length ports.now ≤ 4000) (λ _. 4000 < length ports.now) }
{
    match ports.get(MOST_INTERFACES) {
        Some(port) => Err(refusal_at(TopologyFault::TooMany, port)),
        None => Ok(()),
    }
}

/// Adds a name to those seen; tells whether it is new.
fn see<'a>(seen: &mut IndexSet<&'a [u8]>, name: &'a Name) -> Result<bool, OutOfMemory>
    ensures new { IfOk result
        (λ new. new ≡ not (list_any (same_bytes name.now) (map (λ n. n.now) seen.old.keys))) }
    ensures added { IfOk result (λ new. IsTrue new → map (λ n. n.now) seen.new.keys ≡
        map (λ n. n.now) seen.old.keys ++ name.now ∷ []) }
{
    Ok(seen.insert(name.as_bytes())?)
}

/// Refuses the first configuration of which an earlier one has the name, and adds the names of those before.
fn refuse_seen_name<'a>(
    seen: &mut IndexSet<&'a [u8]>,
    configs: &'a [RouterConfig],
) -> Result<(), Refusal<TopologyFault, ConfigLine>>
    requires few { length configs.now ≤ 1000 }
    requires none { seen.old.keys ≡ [] }
    ensures { let fault = at_config NameTwice (second_of_name [] 0 configs.now) in
        MatchResult result (λ _. fault ≡ None) (Tells fault) }
{
    for (i, config) in configs.iter().enumerate() {
        if !see(seen, &config.name)? {
            return Err(Refusal::at(
                ConfigLine {
                    config: i as u32,
                    line: 0,
                },
                TopologyFault::NameTwice,
            ));
        }
    }
    Ok(())
}

/// Refuses the first configuration of which an earlier one has the name.
pub fn refuse_second_name(
    alloc: Global,
    configs: &[RouterConfig],
) -> Result<(), Refusal<TopologyFault, ConfigLine>>
    requires { length configs.now ≤ 1000 }
    ensures { let fault = at_config NameTwice (second_of_name [] 0 configs.now) in
        MatchResult result (λ _. fault ≡ None) (Tells fault) }
{
    let mut seen = IndexSet::new(alloc);
    refuse_seen_name(&mut seen, configs)
}
