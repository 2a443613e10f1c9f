//! Instances of one LSA, and which of two is the newer.
ghost use Rattle.std.specs.Prelude.{◌≡◌};
ghost use Rattle.lsa_bytes.specs.Instances.{is_max_age, is_newer, lsa_name_of, newer_of};

use crate::{Body, Lsa, NETWORK_LSA, ROUTER_LSA};

/// The age at which an LSA is to be flushed: MaxAge, in seconds (RFC 2328, appendix B).
const GREATEST_AGE: u16 = 3600;

/// The difference of ages above which instances aren't the same: MaxAgeDiff, in seconds (RFC 2328, appendix B).
const GREATEST_AGE_DIFFERENCE: u16 = 900;

/// What names an LSA: its type, its link state ID and its advertising router (RFC 2328, 12.1).
#[derive(Clone, Copy, PartialEq, Eq, Hash)]
pub struct LsaName {
    kind: u8,
    id: u32,
    router: u32,
}

/// Where an instance of an LSA stands, and what tells it from other instances of the same LSA (RFC 2328, 12.1).
#[derive(Clone, Copy, Debug, PartialEq, Eq)]
pub struct Stamp {
    /// Its place, of which no other instance has the same: in a file the offset of its first byte.
    pub place: u32,
    /// The age in seconds. One of 3600 or more is to be flushed.
    pub age: u16,
    /// The sequence number: the 32 bits of a signed number.
    pub sequence: u32,
    /// The checksum.
    pub checksum: u16,
}

/// One instance of an LSA.
#[derive(Drop)]
pub struct Instance {
    /// Where it stands, and how new it is.
    pub stamp: Stamp,
    /// The LSA.
    pub lsa: Lsa,
}

/// What names an LSA.
pub fn name_of(lsa: &Lsa) -> LsaName
    ensures { result ≡ lsa_name_of lsa.now }
{
    LsaName {
        kind: match lsa.body {
            Body::Links(_) => ROUTER_LSA,
            Body::Attached(_) => NETWORK_LSA,
        },
        id: lsa.id,
        router: lsa.router,
    }
}

/// Whether an instance is of MaxAge or more, by which an LSA is flushed (RFC 2328, 14).
pub fn is_max_age(stamp: Stamp) -> bool
    ensures { result ≡ is_max_age stamp }
{
    stamp.age >= GREATEST_AGE
}

/// Whether an instance is newer than another one of the same LSA (RFC 2328, 13.1).
fn is_newer(stamp: Stamp, other: Stamp) -> bool
    ensures { result ≡ is_newer stamp other }
{
    if stamp.sequence != other.sequence {
        return stamp.sequence.cast_signed() > other.sequence.cast_signed();
    }
    if stamp.checksum != other.checksum {
        return stamp.checksum > other.checksum;
    }
    if is_max_age(stamp) && !is_max_age(other) {
        return true;
    }
    if is_max_age(other) && !is_max_age(stamp) {
        return false;
    }
    other.age.saturating_sub(stamp.age) > GREATEST_AGE_DIFFERENCE
}

/// What stands of an LSA where an instance comes behind others: this one if there was none or it is newer.
pub fn newer_of(found: Option<Stamp>, stamp: Stamp) -> Stamp
    ensures { result ≡ newer_of found stamp }
{
    match found {
        Some(other) if !is_newer(stamp, other) => other,
        _ => stamp,
    }
}
