//! The pool of rows.
ghost use Rattle.std.specs.Prelude.{◌≡◌, [], take};

use design_problem::{Form, Row};
use form_search::FormPool;
use std::alloc::Global;
use std::marker::Model;

/// The rows that the search of a problem knows, with their forms. Contracts see both lists.
#[derive(Drop)]
pub struct Pool {
    pub(crate) rows: Vec<Row>,
    pub(crate) forms: FormPool,
}

impl Model for Pool {
    ghost use Rattle.cost_branching.specs.Pools.{Pooled};

    ghost Value = { Pooled };

    ghost view = { λ p. record { rows = p.rows.items; forms = p.forms } };
}

/// The pool gives the allocator from which it takes its memory.
impl Alloc for Pool {
    type A = Global;

    fn alloc(&self) -> Global {
        self.forms.alloc()
    }
}

impl Pool {
    /// The pool without a row. It takes no memory yet.
    pub fn new(alloc: Global) -> Pool
        ensures rows { result.rows ≡ [] }
        ensures forms { result.forms ≡ [] }
    {
        Pool {
            rows: Vec::new(alloc),
            forms: FormPool::new(alloc),
        }
    }

    /// Takes away the rows behind the first `count`, and their forms.
    pub(crate) fn truncate(&mut self, count: usize)
        ensures rows { self.new.rows ≡ take count self.old.rows }
        ensures forms { self.new.forms ≡ take count self.old.forms }
    {
        self.rows.truncate(count);
        self.forms.truncate(count);
    }

    /// The rows, in order.
    pub fn rows(&self) -> &[Row]
        ensures { result.now ≡ self.now.rows }
    {
        self.rows.as_slice()
    }

    /// The forms of the rows, in order.
    pub fn forms(&self) -> &[Form]
        ensures { result.now ≡ self.now.forms }
    {
        self.forms.as_slice()
    }

    /// The rows, in order, taken out. It takes no memory.
    pub fn into_rows(self) -> Vec<Row>
        ensures { result.items ≡ self.rows }
    {
        self.rows
    }
}
