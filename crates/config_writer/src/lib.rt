//! A configuration with new costs of its interfaces.
//!
//! The `ip ospf cost` lines of the named interfaces are taken out, and each new line is put right after the first head
//! of its interface. All other bytes stay as they are, in their order.
#![tactic(auto)]

mod config_lines;
mod new_costs;
mod rewriting;
mod writer;

use cost_base::OutOfMemory;
pub use rewriting::rewrite;

/// Why a configuration wasn't rewritten.
#[derive(Clone, Copy, Debug, PartialEq, Eq)]
pub enum RewriteStop {
    /// The interface of this cost line, counted from 0, has no head in the configuration.
    NoInterface(u32),
    /// Want of memory.
    OutOfMemory,
}

impl From<OutOfMemory> for RewriteStop {
    ghost use Rattle.std.specs.Prelude.{◌≡◌};
    ghost use Rattle.config_writer.specs.declared.RewriteStop.TheVariants.{OutOfMemory as StopOutOfMemory};

    ghost from_gives = { λ stop result. result ≡ StopOutOfMemory };

    fn from(_: OutOfMemory) -> RewriteStop {
        RewriteStop::OutOfMemory
    }
}
