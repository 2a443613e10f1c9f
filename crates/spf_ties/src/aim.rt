//! Where least costs are to lead.

/// A target, the excluded edges, and the limit below which least costs are looked for.
#[derive(Clone, Copy)]
pub struct Aim<'a> {
    /// The vertex to which the paths lead.
    pub target: u32,
    /// The excluded edges.
    pub excluded: &'a [u32],
    /// What a path is to cost less than.
    pub limit: u128,
}
