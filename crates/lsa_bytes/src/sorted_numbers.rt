//! Numbers among which one is found by halving.
ghost use Rattle.std.specs.Prelude.{◌≡◌, ◌==◌, ℕ};
ghost use Rattle.std.specs.List.{list_any};

use std::marker::Model;

/// Numbers in rising order. Contracts see their list.
#[derive(Drop)]
pub struct SortedNumbers {
    sorted: Vec<u32>,
}

impl Model for SortedNumbers {
    ghost use Rattle.std.specs.Prelude.{ℕ, List, IsSorted};
    ghost use Rattle.std.specs.Ordering.{nat_cmp};

    ghost Value = { List ℕ };

    ghost view = { λ m. m.sorted.items };

    ghost invariant = { λ m. IsSorted nat_cmp m.sorted.items };
}

impl SortedNumbers {
    /// These numbers, which it sorts.
    pub fn of(numbers: Vec<u32>) -> SortedNumbers
        ensures { (number : ℕ) → list_any (λ other. other == number) result ≡
            list_any (λ other. other == number) numbers.items }
    {
        let mut sorted = numbers;
        sorted.sort_unstable();
        SortedNumbers { sorted }
    }

    /// Whether a number is among them.
    pub fn has(&self, number: u32) -> bool
        ensures { result ≡ list_any (λ other. other == number) self.now }
    {
        self.sorted.binary_search(&number).is_ok()
    }
}
