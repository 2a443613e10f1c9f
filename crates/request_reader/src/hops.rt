//! The hops of a wanted path.
ghost use Rattle.std.specs.Prelude.{◌≡◌};

use cost_base::Name;
use std::marker::Model;

/// The hops of a wanted path, each a router and its interface, and the router where the path ends. There may be no hop:
/// the path then is that router alone.
///
/// Contracts see the list of the hops, from the path's start on, and the last router's name.
#[derive(Drop)]
pub struct Hops {
    items: Vec<(Name, Name)>,
    last: Name,
}

impl Model for Hops {
    ghost use Rattle.request_reader.specs.WrittenRoutes.{Route};

    ghost Value = { Route };

    ghost view = { λ h. record { hops = h.items.items; last = h.last } };
}

impl Hops {
    /// The path over these hops, in the same order, to the router `last`. It takes no memory.
    pub fn from_items(items: Vec<(Name, Name)>, last: Name) -> Hops
        ensures { result ≡ record { hops = items.items; last = last } }
    {
        Hops { items, last }
    }

    /// The hops, from the path's start on: the name of a router, and of the interface by which the path leaves it.
    pub fn as_slice(&self) -> &[(Name, Name)]
        ensures { result.now ≡ self.now.hops }
    {
        self.items.as_slice()
    }

    /// The name of the router where the path ends.
    pub fn last(&self) -> &Name
        ensures { result.now ≡ self.now.last }
    {
        &self.last
    }
}
