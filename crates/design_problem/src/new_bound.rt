//! New bounds of variables.
use crate::Side;

/// A new bound of a variable at a side of its range.
#[derive(Clone, Copy, Debug, PartialEq, Eq)]
pub struct NewBound {
    /// The number of the variable.
    pub var: u32,
    /// Which end of its range it is.
    pub side: Side,
    /// What the end is to be.
    pub value: u16,
}
