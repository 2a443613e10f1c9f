//! The designated routers of transit subnets.
ghost use Rattle.std.specs.Prelude.{◌≡◌, IfOk};
ghost use Rattle.lsa_writer.specs.Ends.{designated, designated_ends, member_ends, no_end, outranks};

use crate::ends::{LinkEnd, NO_END, end_at};
use cost_base::{Listed, OutOfMemory};
use std::alloc::Global;

/// Whether a member comes before another at the election of a designated router.
fn outranks(member: LinkEnd, other: LinkEnd) -> bool
    ensures { result ≡ outranks member other }
{
    other.priority < member.priority
        || member.priority == other.priority && other.router < member.router
}

/// The end of the designated router among the members of a subnet: the one with the greatest priority, of equals the
/// one with the greatest router ID.
fn designated(ends: &[LinkEnd], members: &[u32]) -> LinkEnd
    ensures { result ≡ designated (member_ends ends.now members.now) }
{
    let [first, more @ ..] = members else {
        return NO_END;
    };
    let mut best = end_at(ends, *first);
    for member in more {
        let other = end_at(ends, *member);
        if outranks(other, best) {
            best = other;
        }
    }
    best
}

/// The ends of the designated routers of subnets, in order.
pub fn designated_ends(
    alloc: Global,
    ends: &[LinkEnd],
    subnets: &[Listed<u32>],
) -> Result<Vec<LinkEnd>, OutOfMemory>
    ensures { IfOk result (λ made. made.items ≡ designated_ends ends.now subnets.now) }
{
    let mut made = Vec::new(alloc);
    for members in subnets {
        made.push(designated(ends, members.as_slice()))?;
    }
    Ok(made)
}
