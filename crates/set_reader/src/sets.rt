//! The sets of a file.
ghost use Rattle.std.specs.Prelude.{◌≡◌};

use cost_base::Listed;
use std::marker::Model;

/// Sets of wanted paths that are to share traffic, each a rising list of request numbers, in the order of the file's
/// `set` lines. Only `read_sets` makes them; paths in no set aren't listed.
///
/// Contracts see the list of the sets.
#[derive(Drop)]
pub struct Sets {
    items: Vec<Listed<u32>>,
}

impl Model for Sets {
    ghost use Rattle.std.specs.Prelude.{ℕ, List};

    ghost Value = { List (List ℕ) };

    ghost view = { λ s. s.items.items };
}

impl Sets {
    /// The sets of these lists.
    pub(crate) fn from_items(items: Vec<Listed<u32>>) -> Sets
        ensures { result ≡ items.items }
    {
        Sets { items }
    }

    /// The sets, in order.
    pub fn as_slice(&self) -> &[Listed<u32>]
        ensures { result.now ≡ self.now }
    {
        self.items.as_slice()
    }
}
