//! Reading files of LSAs.
ghost use Rattle.std.specs.Prelude.{◌≡◌, ◌<◌, ◌^◌, [], None, Ok, length, List, ℕ, All, map, MatchResult, ◌-◌, Result};
ghost use Rattle.lsa_bytes.specs.declared.Lsa.{Lsa as OneLsa};
ghost use Rattle.lsa_bytes.specs.declared.fault.LsaFault.{LsaFault as OneFault};
ghost use Rattle.lsa_bytes.specs.Grammar.{length_of};
ghost use Rattle.lsa_bytes.specs.Faults.{TellsLsaFault, fault_among, length_fault, placed};
ghost use Rattle.lsa_bytes.specs.Databases.{HaveNoFault};
ghost use Rattle.lsa_bytes.specs.Instances.{lsas_of, those_that_count};
ghost use Rattle.lsa_bytes.specs.Files.{ComesTo, Refuses, Say};
ghost use Rattle.lsa_bytes.specs.Reading.{AreReadFrom, AreSmall, AreSmallAt, EndAt, TellsFirst};
ghost use Rattle.lsa_bytes.specs.Written.{IsWritable, Masked, bytes_of_all};

use crate::bodies::{HEADER_LENGTH, said_at};
use crate::fields::number_16;
use crate::instances::Instance;
use crate::newest::Newest;
use crate::reader::Reader;
use crate::{LsaDatabase, LsaFault};
use cost_base::{Refusal, push_some};
use std::alloc::Global;

/// The length of the LSA that begins the bytes, all of which they have.
fn whole_length(rest: &[u8], offset: u32) -> Result<usize, Refusal<LsaFault>>
    ensures { MatchResult result (λ length. (length_fault rest.now ≡ None) ×
        (length ≡ length_of rest.now)) (TellsLsaFault (placed offset (length_fault rest.now))) }
{
    if rest.len() < HEADER_LENGTH {
        return Err(Refusal::at(offset, LsaFault::ShortLsa));
    }
    let length = usize::from(number_16(rest, 18));
    if rest.len() < length {
        return Err(Refusal::at(offset, LsaFault::ShortLsa));
    }
    if length < HEADER_LENGTH {
        return Err(Refusal::at(offset, LsaFault::BadLength));
    }
    Ok(length)
}

/// Appends what the LSAs of the bytes say, one after the other, up to the first that is off the grammar.
fn push_instances(
    alloc: Global,
    instances: &mut Vec<Instance>,
    bytes: &[u8],
) -> Result<(), Refusal<LsaFault>>
    requires empty { instances.old.items ≡ [] }
    requires few { length bytes.now < 2 ^ 32 - 1 }
    ensures { MatchResult result (λ _. AreReadFrom bytes.now instances.new.items None)
        (EndAt bytes.now instances.new.items) }
{
    let mut rest = bytes;
    while !rest.is_empty() {
        let offset = (bytes.len() - rest.len()) as u32;
        let length = whole_length(rest, offset)?;
        let (lsa, behind) = rest.split_at(length);
        push_some(instances, said_at(alloc, lsa, offset)?)?;
        rest = behind;
    }
    Ok(())
}

/// The database of the instances that count, in their order. Of the instances of one LSA the newest counts (RFC 2328,
/// 13.1), unless it is of MaxAge (3600) or more: then the LSA is flushed.
///
/// # Errors
///
/// `Refused` with the place of the first instance that counts and has a fault, and of its faults the first in the order
/// `TooManyRouters`, `LsaTwice`, `ZeroMetric`. `OutOfMemory` where memory runs out.
pub fn database_of(
    alloc: Global,
    instances: Vec<Instance>,
) -> Result<LsaDatabase, Refusal<LsaFault>>
    requires { AreSmall instances.items (2 ^ 32 - 2) }
    ensures { MatchResult result (λ database. (fault_among instances.items ≡ None) ×
        (database ≡ lsas_of (those_that_count instances.items)))
        (TellsLsaFault (fault_among instances.items)) }
{
    let newest = Newest::among(alloc, instances.as_slice())?;
    let mut reader = Reader::new(alloc);
    for instance in instances {
        if newest.counts(&instance) {
            reader = reader.with(instance.lsa, instance.stamp.place)?;
        }
    }
    Ok(LsaDatabase::from_items(reader.into_lsas()))
}

/// The first refusal, where one comes behind instances: that of the first fault among them, or else that one.
fn first_refusal(
    alloc: Global,
    instances: Vec<Instance>,
    refusal: Refusal<LsaFault>,
) -> Refusal<LsaFault>
    requires { AreSmallAt instances.items refusal }
    ensures { TellsFirst instances.items refusal result }
{
    match refusal {
        Refusal::OutOfMemory => refusal,
        Refusal::Refused { .. } => match database_of(alloc, instances) {
            Ok(_) => refusal,
            Err(earlier) => earlier,
        },
    }
}

/// The LSAs that the bytes are, one after the other (RFC 2328, A.4.1 to A.4.3). LSAs of other types than 1 and 2 are
/// passed over. Of the instances of one LSA the newest counts (RFC 2328, 13.1), and where its age is MaxAge (3600) or
/// more the LSA is flushed. The LSAs stand in the order of the instances that count.
///
/// # Errors
///
/// `Refused` with the offset of the first faulty LSA, and of its faults the first in the order `ShortLsa`, `BadLength`,
/// `BadBody`, `TooManyRouters`, `LsaTwice`, `ZeroMetric`, of which the last three are faults of what counts among the
/// LSAs before the first that has one of the others. `OutOfMemory` where memory runs out.
pub fn read_lsas(alloc: Global, bytes: &[u8]) -> Result<LsaDatabase, Refusal<LsaFault>>
    requires { length bytes.now < 2 ^ 32 - 1 }
    ensures { MatchResult result (λ database. ComesTo bytes.now (Ok database)) (Refuses bytes.now) }
{
    let mut instances = Vec::new(alloc);
    match push_instances(alloc, &mut instances, bytes) {
        Ok(()) => database_of(alloc, instances),
        Err(refusal) => Err(first_refusal(alloc, instances, refusal)),
    }
}

/// Bytes come to one thing: to one list of LSAs, or to one fault at one offset. A law, which takes no time.
pub fn comes_to_one()
    ensures { (bytes : List ℕ) (a b : Result (List OneLsa) (OneFault × ℕ)) → ComesTo bytes a →
        ComesTo bytes b → a ≡ b }
{}

/// The bytes of LSAs without a fault, one after the other, say these LSAs. A law, which takes no time.
pub fn written_is_read()
    ensures { (lsas : List Masked) → All IsWritable lsas → HaveNoFault (map (λ m. m.lsa) lsas) →
        Say (bytes_of_all lsas) (map (λ m. m.lsa) lsas) }
{}
