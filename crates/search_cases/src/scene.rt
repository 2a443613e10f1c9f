//! What a script has come to: a tableau, and a box with its rows to be searched.
ghost use Rattle.std.specs.Prelude.{◌^◌, ◌<◌, length};
ghost use Rattle.design_problem.specs.Boxes.{IsBox};

use crate::source::FormList;
use cost_base::OutOfMemory;
use design_problem::{CostBox, Form};
use exact_simplex::Tableau;
use std::alloc::{AllocError, Global};
use wide_fraction::Top;

/// A tableau over the box of the last `box` line, and the box and its rows as a source of a search.
#[derive(Drop)]
pub struct Scene {
    pub tableau: Tableau,
    pub top: Top,
    pub costs: CostBox,
    pub rows: FormList,
    /// Whether the source takes every row.
    pub is_searched: bool,
}

/// A scene with a tableau over the box, and no row.
pub(crate) fn scene_of(alloc: Global, costs: &CostBox, top: Top) -> Result<Scene, AllocError>
    requires ranges { IsBox (length costs.now.low) costs.now }
    requires few { length costs.now.low < 2 ^ 32 }
{
    let Ok(copy) = costs.copy(alloc) else {
        return Err(AllocError);
    };
    match Tableau::start(alloc, costs, top) {
        Ok(tableau) => Ok(Scene::new(alloc, tableau, top, copy)),
        Err(_) => Err(AllocError),
    }
}

impl Scene {
    /// A tableau over the box, and the box without rows.
    fn new(alloc: Global, tableau: Tableau, top: Top, costs: CostBox) -> Scene {
        let variables = u32::try_from(costs.low.as_slice().len()).unwrap_or(0);
        Scene {
            tableau,
            top,
            costs,
            rows: FormList::new(alloc, variables),
            is_searched: true,
        }
    }

    /// Takes a row into the source.
    pub(crate) fn learn(&mut self, alloc: Global, form: &Form) -> Result<(), AllocError> {
        let Ok(copy) = form.copy(alloc) else {
            return Err(AllocError);
        };
        match self.rows.push(copy) {
            Ok(is_taken) => {
                self.is_searched &= is_taken;
                Ok(())
            }
            Err(_) => Err(AllocError),
        }
    }
}
