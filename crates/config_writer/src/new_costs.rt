//! The new costs of interfaces.
ghost use Rattle.std.specs.Prelude.{◌≡◌, ◌≤◌, ℕ, List, All, None, Some, [], if◌then◌else◌, IfOk, OnOk};
ghost use Rattle.cost_base.specs.Lists.{same_bytes};
ghost use Rattle.config_reader.specs.Sections.{cost_after};
ghost use Rattle.config_writer.specs.Rewriting.{costs_of};
ghost use Rattle.config_writer.specs.Writing.{look_up};

use cost_base::OutOfMemory;
use design_problem::CostLine;
use indexmap::IndexMap;
use std::alloc::Global;
use std::marker::Model;

/// The new cost of each named interface. Contracts see the list of names with their costs.
#[derive(Drop)]
pub(crate) struct NewCosts<'a> {
    costs: IndexMap<&'a [u8], u16>,
}

impl<'a> Model for NewCosts<'a> {
    ghost use Rattle.std.specs.Prelude.{ℕ, List, map};

    ghost Value = { List (List ℕ × ℕ) };

    ghost view = { λ n. map (λ entry. (entry.0.now, entry.1)) n.costs.entries };
}

impl<'a> NewCosts<'a> {
    /// No interface is named.
    fn new(alloc: Global) -> NewCosts<'a>
        ensures { result ≡ [] }
    {
        NewCosts {
            costs: IndexMap::new(alloc),
        }
    }

    /// The costs of some lines.
    pub(crate) fn of_lines(
        alloc: Global,
        lines: &'a [CostLine],
    ) -> Result<NewCosts<'a>, OutOfMemory>
        ensures costs { IfOk result (λ costs. (name : List ℕ) → look_up name costs ≡
            cost_after (costs_of lines.now) name None) }
        ensures within { IfOk result (λ costs. All (λ line. line.cost ≤ 65535) lines.now) }
    {
        let mut costs = NewCosts::new(alloc);
        for line in lines {
            costs.add(line.interface.as_bytes(), line.cost)?;
        }
        Ok(costs)
    }

    /// Gives an interface its cost.
    fn add(&mut self, interface: &'a [u8], cost: u16) -> Result<(), OutOfMemory>
        ensures costs { OnOk result ((name : List ℕ) → look_up name self.new ≡
            (if same_bytes name interface.now then Some cost else look_up name self.old)) }
        ensures within { cost ≤ 65535 }
    {
        self.costs.insert(interface, cost)?;
        Ok(())
    }

    /// The cost of an interface, if it is named.
    pub(crate) fn cost(&self, interface: &'a [u8]) -> Option<u16>
        ensures { result ≡ look_up interface.now self.now }
    {
        self.costs.get(interface).copied()
    }
}
