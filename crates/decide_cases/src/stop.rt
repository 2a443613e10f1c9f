//! Why a line of a script isn't read.

use cost_base::OutOfMemory;
use std::alloc::{AllocError, AllocFailed};

/// A line isn't read.
#[derive(Drop)]
pub enum Stop {
    /// It is none of the lines of a script.
    Unread,
    /// No memory was left.
    OutOfMemory,
}

impl From<OutOfMemory> for Stop {
    fn from(_error: OutOfMemory) -> Stop {
        Stop::OutOfMemory
    }
}

impl From<AllocError> for Stop {
    fn from(_error: AllocError) -> Stop {
        Stop::OutOfMemory
    }
}

impl<T: Drop> From<AllocFailed<T>> for Stop {
    fn from(_error: AllocFailed<T>) -> Stop {
        Stop::OutOfMemory
    }
}
