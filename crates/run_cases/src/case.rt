//! What a run of a case is made of.

use crate::advisors::CaseAdvisor;
use cost_base::Name;
use std::alloc::Global;

/// What a run is to come to.
#[derive(Drop)]
pub struct Wanted {
    /// The number of the status.
    pub status: usize,
    /// All that is written.
    pub output: Vec<u8>,
    /// How many advisors are left.
    pub advisors_left: usize,
}

/// A run of a case: what goes in, and what is to come out.
#[derive(Drop)]
pub struct Case {
    /// The words after the program's name.
    pub words: Vec<String>,
    /// The files that the shelf holds, each a name and its bytes. The first of a name counts.
    pub files: Vec<(Name, Name)>,
    /// The numbers of the shelf's calls that fail, from 0.
    pub failing_takes: Vec<u64>,
    /// The numbers of the sink's calls that fail, from 0, each with how many bytes of its piece are kept.
    pub failing_puts: Vec<(u64, usize)>,
    /// Whether the run is over a shelf and a sink that never fail.
    pub is_sure: bool,
    /// The advisors.
    pub advisors: Vec<CaseAdvisor>,
    /// What the run is to come to.
    pub wanted: Wanted,
}

impl Case {
    /// A run without words and files that is to end with status 0 and to write nothing.
    pub(crate) fn new(alloc: Global) -> Case {
        Case {
            words: Vec::new(alloc),
            files: Vec::new(alloc),
            failing_takes: Vec::new(alloc),
            failing_puts: Vec::new(alloc),
            is_sure: false,
            advisors: Vec::new(alloc),
            wanted: Wanted {
                status: 0,
                output: Vec::new(alloc),
                advisors_left: 0,
            },
        }
    }
}
