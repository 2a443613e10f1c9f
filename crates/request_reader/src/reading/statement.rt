//! What a statement of a request file says.
use crate::{Directive, RequestFault};

/// The bounds of a cost.
#[derive(Clone, Copy)]
pub(crate) struct Bounds {
    pub(crate) low: u16,
    pub(crate) high: u16,
}

/// What a statement of a request file says by itself.
#[derive(Drop)]
pub(crate) enum Statement {
    Area(u32),
    DefaultCost(u16),
    Ask(Directive),
    Refused(RequestFault),
}
