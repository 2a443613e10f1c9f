//! What the place behind the number of a refusal is.

/// What the number behind a refusal names.
#[derive(Clone, Copy, Debug, PartialEq, Eq)]
pub(crate) enum Place {
    /// A line, counted from 1; 0 where it is the file as a whole.
    Line,
    /// A byte of a file, counted from 0.
    Byte,
    /// A line of JSON, or a byte of LSAs.
    Spot,
    /// A variable, counted from 0.
    Variable,
    /// A wanted path, counted from 0.
    Path,
    /// A row, counted from 0.
    Row,
    /// A line of the tree, counted from 0.
    TreeLine,
    /// Nothing.
    Nothing,
}
