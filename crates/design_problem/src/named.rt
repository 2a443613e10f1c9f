//! What names an interface: a cost line, and a free interface with its variable.
ghost use Rattle.std.specs.Prelude.{◌≡◌, IfOk};

use crate::{CostLine, VarName};
use cost_base::{Name, OutOfMemory};
use std::alloc::Global;

/// The line that gives an interface of a router a cost.
///
/// # Errors
///
/// `OutOfMemory`.
pub fn cost_line(
    alloc: Global,
    router: &[u8],
    interface: &[u8],
    cost: u16,
) -> Result<CostLine, OutOfMemory>
    ensures { IfOk result (λ line. line ≡ record {
      router = router.now;
      interface = interface.now;
      cost = cost;
    }) }
{
    Ok(CostLine {
        router: Name::from_bytes(alloc, router)?,
        interface: Name::from_bytes(alloc, interface)?,
        cost,
    })
}

/// The free interface of a router whose cost is the variable of this number.
///
/// # Errors
///
/// `OutOfMemory`.
pub fn var_name(
    alloc: Global,
    router: &[u8],
    interface: &[u8],
    var: u32,
) -> Result<VarName, OutOfMemory>
    ensures { IfOk result (λ name. name ≡ record {
      router = router.now;
      interface = interface.now;
      var = var;
    }) }
{
    Ok(VarName {
        router: Name::from_bytes(alloc, router)?,
        interface: Name::from_bytes(alloc, interface)?,
        var,
    })
}
