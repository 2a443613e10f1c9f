//! The vertices of LSAs, and what names them.
ghost use Rattle.std.specs.Prelude.{◌≡◌, ◌<◌, ◌^◌, ◌++◌, IfOk, OnOk, length};
ghost use Rattle.database_commands.specs.Routes.{network_ids, router_ids, vertex_ids, vertex_of_router};

use cost_base::{OutOfMemory, push_if};
use lsa_bytes::{Lsa, is_router};
use std::alloc::Global;

/// The vertex of a router, 0 where it has no router-LSA.
pub fn vertex_of(lsas: &[Lsa], id: u32) -> u32
    requires { length lsas.now < 2 ^ 30 }
    ensures { result ≡ vertex_of_router lsas.now id }
{
    let mut vertex = 0;
    for lsa in lsas {
        if is_router(lsa) {
            if lsa.router == id {
                return vertex;
            }
            vertex += 1;
        }
    }
    0
}

/// Adds the advertising routers of the router-LSAs, in order.
fn push_router_ids(ids: &mut Vec<u32>, lsas: &[Lsa]) -> Result<(), OutOfMemory>
    ensures { OnOk result (ids.new.items ≡ ids.old.items ++ router_ids lsas.now) }
{
    for lsa in lsas {
        push_if(ids, lsa.router, is_router(lsa))?;
    }
    Ok(())
}

/// Adds the link state IDs of the network-LSAs, in order.
fn push_network_ids(ids: &mut Vec<u32>, lsas: &[Lsa]) -> Result<(), OutOfMemory>
    ensures { OnOk result (ids.new.items ≡ ids.old.items ++ network_ids lsas.now) }
{
    for lsa in lsas {
        push_if(ids, lsa.id, !is_router(lsa))?;
    }
    Ok(())
}

/// What names each vertex: the advertising routers of the router-LSAs, then the link state IDs of the network-LSAs.
pub fn vertex_ids(alloc: Global, lsas: &[Lsa]) -> Result<Vec<u32>, OutOfMemory>
    ensures { IfOk result (λ ids. ids.items ≡ vertex_ids lsas.now) }
{
    let mut ids = Vec::new(alloc);
    push_router_ids(&mut ids, lsas)?;
    push_network_ids(&mut ids, lsas)?;
    Ok(ids)
}
