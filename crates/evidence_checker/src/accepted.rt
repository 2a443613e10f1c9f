//! What a check answers.

/// What was accepted.
#[derive(Clone, Copy, Debug, PartialEq, Eq)]
pub enum Accepted {
    /// The costs of the answer are best, and this is their greatest.
    Optimal(u16),
    /// No costs are fit.
    Impossible,
}
