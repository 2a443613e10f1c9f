//! What a statement of a file of sets says.
use cost_base::Listed;

/// What a statement of a file of sets says by itself.
#[derive(Drop)]
pub(crate) enum Statement {
    /// The numbers of a `set` line, in its order.
    Numbers(Listed<u64>),
    /// The line is off the form.
    Off,
}
