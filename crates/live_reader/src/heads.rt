//! What names a router-LSA, and how new it is.
ghost use Rattle.std.specs.Prelude.{◌≡◌};
ghost use Rattle.std.specs.Option.{option_and_then};
ghost use Rattle.json.specs.Json.{Json};
ghost use Rattle.live_reader.specs.Places.{Stands, object_members};
ghost use Rattle.live_reader.specs.JsonLsas.{head_of, instance_of};

use crate::fields::{hex_named, number_named, quad_named, short_hex_named};
use cost_base::Listed;
use json::Tape;
use lsa_bytes::{Body, Instance, Lsa, LsaLink, Stamp};

/// What names a router-LSA, and how new it is.
#[derive(Clone, Copy, Drop)]
pub struct Head {
    pub id: u32,
    pub router: u32,
    pub age: u16,
    pub sequence: u32,
    pub checksum: u16,
}

/// What the object at a place says of its LSA.
pub fn head_at(tape: &Tape<'_>, place: usize) -> Option<Head>
    ensures { (j : Json) → Stands tape.now place j → result ≡ option_and_then head_of
        (object_members place j) }
{
    let id = quad_named(tape, place, b"linkStateId")?;
    let router = quad_named(tape, place, b"advertisingRouter")?;
    let age = number_named(tape, place, b"lsaAge", 3600)?;
    let sequence = hex_named(tape, place, b"lsaSeqNumber")?;
    let checksum = short_hex_named(tape, place, b"checksum")?;
    Some(Head {
        id,
        router,
        age,
        sequence,
        checksum,
    })
}

/// The instance of a router-LSA at a place, with these links.
pub fn instance_of(place: u32, head: Head, links: Vec<LsaLink>) -> Instance
    ensures { result ≡ instance_of place head links.items }
{
    Instance {
        stamp: Stamp {
            place,
            age: head.age,
            sequence: head.sequence,
            checksum: head.checksum,
        },
        lsa: Lsa {
            id: head.id,
            router: head.router,
            body: Body::Links(Listed::from_items(links)),
        },
    }
}
