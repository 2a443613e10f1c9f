//! What an advisor picks from.

/// A variable at which the box may be cut, with its range.
#[derive(Clone, Copy, Debug, PartialEq, Eq)]
pub struct Candidate {
    /// The number of the variable.
    pub var: u32,
    /// The variable's value at the point of the box, rounded down.
    pub floor: u16,
    /// The lowest value of the variable in the box.
    pub low: u16,
    /// The highest value of the variable in the box.
    pub high: u16,
}
