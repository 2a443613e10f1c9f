//! Finding routers in a file of LSAs.
ghost use Rattle.std.specs.Prelude.{◌≡◌, List, true, false, MatchResult};
ghost use Rattle.std.specs.List.{list_any};
ghost use Rattle.lsa_bytes.specs.declared.Lsa.{Lsa as OneLsa};
ghost use Rattle.lsa_bytes.specs.declared.fault.LsaFault.TheVariants.{NoRouterId};
ghost use Rattle.lsa_bytes.specs.Databases.{is_router_of};
ghost use Rattle.lsa_bytes.specs.Numbers.{lsa_fault_number};
ghost use Rattle.input_files.specs.Stops.{IsRefusal};

use cost_base::Refusal;
use input_files::{Stop, stop_of};
use lsa_bytes::{Lsa, LsaFault, is_router};

/// Whether an LSA is the router-LSA of a router.
pub fn is_router_of(lsa: &Lsa, id: u32) -> bool
    ensures { result ≡ is_router_of id lsa.now }
{
    is_router(lsa) && lsa.router == id
}

/// Whether a router has a router-LSA.
fn has_router(lsas: &[Lsa], id: u32) -> bool
    ensures { result ≡ list_any (is_router_of id) lsas.now }
{
    lsas.iter().any(|lsa| is_router_of(lsa, id))
}

/// Tests that a router has a router-LSA. The place stands for a line where it has none.
pub fn check_router<'a>(lsas: &[Lsa], id: u32, file: &'a str, place: u32) -> Result<(), Stop<'a>>
    ensures { MatchResult result (λ _. list_any (is_router_of id) lsas.now ≡ true)
        (λ stop. (list_any (is_router_of id) lsas.now ≡ false) ×
        IsRefusal (record { number = lsa_fault_number NoRouterId; file = file.now; line = place })
        stop) }
{
    if has_router(lsas, id) {
        Ok(())
    } else {
        Err(stop_of(Refusal::at(place, LsaFault::NoRouterId), file))
    }
}
