//! The router IDs of configurations.
ghost use Rattle.std.specs.Prelude.{◌≡◌, ◌-◌, ◌<◌, ◌^◌, [], length};
ghost use Rattle.std.specs.List.{list_any};
ghost use Rattle.lsa_bytes.specs.Ids.{first_id_fault, id_fault, is_id};

use crate::LsaFault;
use interface_model::RouterConfig;

/// A configuration without a router ID, or with that of an earlier one.
#[derive(Clone, Copy, Debug, PartialEq, Eq)]
pub struct IdFault {
    /// `NoRouterId` or `RouterIdTwice`.
    pub fault: LsaFault,
    /// The number of the configuration, counted from 0.
    pub config: u32,
}

/// Whether a configuration has a router ID.
fn has_id(config: &RouterConfig, id: u32) -> bool
    ensures { result ≡ is_id id config.now.router_id }
{
    config.router_id == Some(id)
}

/// Whether one of the configurations has a router ID. Takes no memory.
pub fn have_id(configs: &[RouterConfig], id: u32) -> bool
    ensures { result ≡ list_any (λ config. is_id id config.router_id) configs.now }
{
    configs.iter().any(|config| has_id(config, id))
}

/// What is wrong with a router ID, behind the configurations before it.
fn id_fault(before: &[RouterConfig], id: Option<u32>) -> Option<LsaFault>
    ensures { result ≡ id_fault before.now id }
{
    match id {
        None => Some(LsaFault::NoRouterId),
        Some(id) => {
            if have_id(before, id) {
                Some(LsaFault::RouterIdTwice)
            } else {
                None
            }
        }
    }
}

/// The first configuration that has no router ID, or that of an earlier one; None where there is none. It takes no
/// memory, and time in proportion to the square of their number.
pub fn check_ids(configs: &[RouterConfig]) -> Option<IdFault>
    requires { length configs.now < 2 ^ 32 }
    ensures { result ≡ first_id_fault [] 0 configs.now }
{
    for (i, config) in configs.iter().enumerate() {
        let (before, _) = configs.split_at(i);
        if let Some(fault) = id_fault(before, config.router_id) {
            return Some(IdFault {
                fault,
                config: i as u32,
            });
        }
    }
    None
}
