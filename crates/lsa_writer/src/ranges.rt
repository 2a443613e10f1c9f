//! This code is for the prover alone: it keeps in which ranges the numbers of configurations, ends and links lie.
//!
//! Each function reads the numbers of its argument, so that contracts know the range of their types. None writes
//! anything.
ghost use Rattle.std.specs.Prelude.{All};
ghost use Rattle.interface_model.specs.Records.{IsRouter};
ghost use Rattle.lsa_writer.specs.OneGraph.{IsRangedEnd, IsRangedId, IsRangedLink};

use crate::ends::LinkEnd;
use crate::said::OwnedLink;
use interface_model::RouterConfig;

/// Keeps that a router ID, where there is one, has 32 bits.
fn keeps_id(id: Option<u32>)
    ensures { IsRangedId id }
{
    match id {
        Some(_id) => {}
        None => {}
    }
}

/// Keeps that a configuration is one of its type, and that its router ID has 32 bits.
fn keeps_config(config: &RouterConfig)
    ensures valid { IsRouter config.now }
    ensures id { IsRangedId config.now.router_id }
{
    keeps_id(config.router_id);
}

/// Keeps that each configuration is one of its type, and that its router ID has 32 bits.
pub fn keeps_configs(configs: &[RouterConfig])
    ensures valid { All IsRouter configs.now }
    ensures ids { All (λ config. IsRangedId config.router_id) configs.now }
{
    for config in configs {
        keeps_config(config);
    }
}

/// Keeps that the router ID and the address of a link's end have 32 bits.
fn keeps_end(_end: LinkEnd)
    ensures { IsRangedEnd _end }
{}

/// Keeps that the router ID and the address of each end have 32 bits.
pub fn keeps_ends(ends: &[LinkEnd])
    ensures { All IsRangedEnd ends.now }
{
    for end in ends {
        keeps_end(*end);
    }
}

/// Keeps that a link's ID and address have 32 bits, and its metric 16.
fn keeps_link(_said: OwnedLink)
    ensures { IsRangedLink _said }
{}

/// Keeps that each link's ID and address have 32 bits, and its metric 16.
pub fn keeps_said(said: &[OwnedLink])
    ensures { All IsRangedLink said.now }
{
    for link in said {
        keeps_link(*link);
    }
}
