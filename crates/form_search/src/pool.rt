//! The pool of forms, and the tableau that is kept with it.
ghost use Rattle.std.specs.Prelude.{◌≡◌, ◌++◌, [], ◌∷◌, take, OnOk, OnErr};
ghost use Rattle.form_search.specs.Tables.{IsHeld, IsTableauKept};

use crate::held_tableau::HeldTableau;
use cost_base::OutOfMemory;
use design_problem::Form;
use std::alloc::Global;
use std::marker::Model;

/// The forms that a search knows. Contracts see the list of the forms.
///
/// It keeps the tableau of the last box that a search over it relaxed, which holds the first forms of the pool, for the
/// next such box.
#[derive(Drop)]
pub struct FormPool {
    forms: Vec<Form>,
    table: Option<HeldTableau>,
}

impl Model for FormPool {
    ghost use Rattle.std.specs.Prelude.{List};
    ghost use Rattle.design_problem.specs.Forms.{Form};

    ghost Value = { List Form };

    ghost view = { λ p. p.forms.items };

    ghost use Rattle.form_search.specs.Tables.{IsTableauKept};

    ghost invariant = { λ p. IsTableauKept p.forms.items p.table };
}

/// The pool gives the allocator from which it takes its memory.
impl Alloc for FormPool {
    type A = Global;

    fn alloc(&self) -> Global {
        *self.forms.allocator()
    }
}

impl FormPool {
    /// The pool without a form. It takes no memory yet.
    pub fn new(alloc: Global) -> FormPool
        ensures { result ≡ [] }
    {
        FormPool {
            forms: Vec::new(alloc),
            table: None,
        }
    }

    /// Adds a form at the end.
    ///
    /// # Errors
    ///
    /// `OutOfMemory` where the list got no memory. Then the pool is as before.
    pub fn push(&mut self, form: Form) -> Result<(), OutOfMemory>
        ensures added { OnOk result (self.new ≡ self.old ++ form ∷ []) }
        ensures kept { OnErr result (self.new ≡ self.old) }
    {
        Ok(self.forms.push(form)?)
    }

    /// Takes away the forms behind the first `count`, and the tableau.
    pub fn truncate(&mut self, count: usize)
        ensures { self.new ≡ take count self.old }
    {
        // For the prover alone: a call drops the tableau, so that its parts' drops aren't written out at each exit.
        drop(self.table.take());
        self.forms.truncate(count);
    }

    /// Takes out the tableau that is kept, if there is one.
    pub(crate) fn take_tableau(&mut self) -> Option<HeldTableau>
        ensures forms { self.new ≡ self.old }
        ensures kept { IsTableauKept self.old result }
    {
        self.table.take()
    }

    /// Keeps a tableau that holds the first forms.
    pub(crate) fn keep_tableau(&mut self, table: HeldTableau)
        requires { IsHeld table.top table.variables self.old table }
        ensures { self.new ≡ self.old }
    {
        // For the prover alone: a call drops the tableau, so that its parts' drops aren't written out at each exit.
        drop(self.table.replace(table));
    }

    /// The forms, in order.
    pub fn as_slice(&self) -> &[Form]
        ensures { result.now ≡ self.now }
    {
        self.forms.as_slice()
    }
}
