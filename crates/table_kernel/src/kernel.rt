//! The kernel of a table.
ghost use Rattle.std.specs.Prelude.{◌≡◌, length};

use fraction_table::Table;
use integer_pivots::{Line, Turn, Use};

/// A step might leave the kernel's bounds.
#[derive(Clone, Copy, Debug, PartialEq, Eq)]
pub struct OutOfRange;

/// A table at a basis in whole numbers: for each variable the line of x - low, over a denominator of its own, and the
/// constant of each form over a common one. The box, the rows and the basis are those of `table`, whose lines are room
/// for the table in fractions.
#[derive(Drop)]
pub struct Kernel {
    /// The box, the rows and the basis, with room for lines of fractions.
    pub table: Table,
    /// What the constants stand over: a multiple of each line's denominator.
    pub common: i64,
    /// For each variable, the line of x - low.
    pub lows: Vec<Line>,
    /// For each column, the first variable whose number of x - low there isn't 0.
    pub leads: Vec<usize>,
    /// The constants of all forms: x - low and high - x for each variable, and the rows.
    pub constants: Vec<i64>,
    /// For each variable, the rows in which its coefficient isn't 0, in their order.
    pub uses: Vec<Vec<Use>>,
    /// For each variable, how its line turns at a column; room, but in a pivot.
    pub turns: Vec<Turn>,
    /// Room for columns: for those of which one is chosen, and then for those in which a turn may change a number.
    pub left: Vec<usize>,
    /// Room for the line of the form that enters the basis.
    pub entering: Line,
}

impl Kernel {
    /// How many variables the box has.
    pub fn width(&self) -> usize
        ensures { result ≡ length self.now.table.costs.low }
    {
        self.table.costs.low.as_slice().len()
    }
}
