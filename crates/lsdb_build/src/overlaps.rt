//! Overlapping subnets of two routers.
ghost use Rattle.std.specs.Prelude.{◌&&◌, ◌||◌, ◌==◌, not, ◌≡◌, ℕ, ◌<◌, ◌≤◌, List, [], None, true, false, length, All, MatchResult, OnOk};
ghost use Rattle.lsdb_build.specs.Neighbours.{Port, shares_subnet};
ghost use Rattle.indexmap.specs.IndexMap.{get};
ghost use Rattle.lsdb_build.specs.Tallies.{same_subnet, subnet_of_length};
ghost use Rattle.lsdb_build.specs.Owners.{has_other, IsOwnerNoted, HasSubnet, HasPrefixes};
ghost use Rattle.lsdb_build.specs.Topology.{holds, is_overlap, first_where, at_port, Tells};
ghost use Rattle.lsdb_build.specs.declared.fault.TopologyFault.TheVariants.{OverlapPrefix};

use crate::checks::refusal_at;
use crate::owners::Owners;
use crate::port::{Port, Subnet, shares_subnet, subnet_of};
use crate::{ConfigLine, TopologyFault};
use cost_base::{OutOfMemory, Refusal};
use interface_model::{contains, subnet};
use std::alloc::Global;

/// Whether the subnet of the first interface contains that of the second, which is at least as long.
fn holds(outer: &Port, inner: &Port) -> bool
    ensures { result ≡ holds outer.now inner.now }
{
    let length = outer.interface.length;
    length <= inner.interface.length && contains(outer.address, length, inner.address)
}

/// Whether two interfaces of different routers are on different subnets of which one contains the other.
fn overlaps(port: &Port, other: &Port) -> bool
    ensures { result ≡ (not (port.now.router == other.now.router) &&
        not (shares_subnet port.now other.now) &&
        (holds port.now other.now || holds other.now port.now)) }
{
    port.router != other.router
        && !shares_subnet(port, other)
        && (holds(port, other) || holds(other, port))
}

/// Whether an interface before, of another router, has an overlapping subnet.
fn is_overlap(before: &[Port], port: &Port) -> bool
    ensures { result ≡ is_overlap before.now port.now }
{
    before.iter().any(|other| overlaps(other, port))
}

/// The address of an interface under a prefix length.
fn prefix_of(port: &Port, length: u8) -> Subnet
    requires { length ≤ 32 }
    ensures { result ≡ subnet_of_length port.now length }
{
    Subnet {
        length,
        address: subnet(port.address, length),
    }
}

/// Whether an interface's address lies in a shorter one of the subnets seen, which another router has.
fn is_inside(seen: &Owners, port: &Port) -> bool
    ensures { result ≡ false → (l : ℕ) → l < port.now.interface.length →
        has_other (get same_subnet seen.now.by_prefix (subnet_of_length port.now l))
        port.now.router ≡ false }
{
    for length in 0..port.interface.length {
        if seen.has_other(port.router, prefix_of(port, length)) {
            return true;
        }
    }
    false
}

/// Notes an interface's router at the shorter prefixes in which its subnet lies.
fn note_prefixes(enclosing: &mut Owners, port: &Port) -> Result<(), OutOfMemory>
    ensures noted { OnOk result (HasPrefixes enclosing.new.by_prefix port.now) }
    ensures kept { OnOk result ((router : ℕ) (key : Subnet) → IsOwnerNoted enclosing.old.by_prefix
        router key → IsOwnerNoted enclosing.new.by_prefix router key) }
{
    for length in 0..port.interface.length {
        enclosing.note(port.router, prefix_of(port, length))?;
    }
    Ok(())
}

/// Whether an earlier interface of another router may have an overlapping subnet: one of the subnets seen contains the
/// interface's, or one of the prefixes that enclose them is the interface's subnet. Where neither holds, none overlaps.
fn may_overlap(seen: &Owners, enclosing: &Owners, port: &Port) -> bool
    ensures { (before : List Port) → All (HasSubnet seen.now.by_prefix) before →
        All (HasPrefixes enclosing.now.by_prefix) before → is_overlap before port.now ≡ true →
        result ≡ true }
{
    is_inside(seen, port) || enclosing.has_other(port.router, subnet_of(port))
}

/// Refuses the first interface of which an earlier one, of another router, has an overlapping subnet, and
/// notes those before.
fn refuse_among(
    seen: &mut Owners,
    enclosing: &mut Owners,
    ports: &[Port],
) -> Result<(), Refusal<TopologyFault, ConfigLine>>
    ensures { let fault = at_port OverlapPrefix (first_where is_overlap [] ports.now) in
        MatchResult result (λ _. fault ≡ None) (Tells fault) }
{
    for (i, port) in ports.iter().enumerate() {
        if may_overlap(seen, enclosing, port) && is_overlap(&ports[..i], port) {
            return Err(refusal_at(TopologyFault::OverlapPrefix, port));
        }
        seen.note(port.router, subnet_of(port))?;
        note_prefixes(enclosing, port)?;
    }
    Ok(())
}

/// Refuses the first interface of which an earlier one, of another router, has an overlapping subnet.
///
/// The interfaces before are compared one by one only at an interface whose subnet lies in or round an earlier one of
/// another router.
pub fn refuse_overlap(
    alloc: Global,
    ports: &[Port],
) -> Result<(), Refusal<TopologyFault, ConfigLine>>
    requires { length ports.now ≤ 4000 }
    ensures { let fault = at_port OverlapPrefix (first_where is_overlap [] ports.now) in
        MatchResult result (λ _. fault ≡ None) (Tells fault) }
{
    let mut seen = Owners::new(alloc);
    let mut enclosing = Owners::new(alloc);
    refuse_among(&mut seen, &mut enclosing, ports)
}
