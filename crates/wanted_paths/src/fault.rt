//! Why requests don't resolve in a topology.
ghost use Rattle.std.specs.Prelude.{◌≡◌};
ghost use Rattle.wanted_paths.specs.FaultNumbers.{resolution_fault_number, line_of_fault};

use cost_base::Fault;

/// Why requests don't resolve in a topology, with the place: `line` is a line of the request file.
#[derive(Clone, Copy, Debug, PartialEq, Eq)]
pub enum ResolutionFault {
    /// No configuration has the name of a router.
    UnknownRouter { line: u32 },
    /// The router has no linked interface of the name.
    UnknownInterface { line: u32 },
    /// A `symmetric` line names an interface that leads to a transit subnet.
    NotALink { line: u32 },
    /// The hop of this number, counted from 1, doesn't lead to the router of the next word.
    BrokenPath { line: u32, hop: u32 },
    /// A router or a transit subnet comes twice.
    LoopPath { line: u32 },
    /// An edge of the path, or its start, is excluded.
    PathExcluded { line: u32 },
    /// A symmetric link has one free and one fixed end, or two free ends with different bounds.
    EndsDiffer { line: u32 },
    /// There are more than 1,000 variables.
    TooManyVariables,
    /// The link of this number is fixed, and has no present cost; there is no default.
    NoCost { link: u32 },
}

impl Fault for ResolutionFault {
    ghost numbered = { resolution_fault_number };

    fn number(self) -> u8 {
        match self {
            ResolutionFault::UnknownRouter { .. } => 21,
            ResolutionFault::UnknownInterface { .. } => 22,
            ResolutionFault::BrokenPath { .. } => 23,
            ResolutionFault::LoopPath { .. } => 24,
            ResolutionFault::NoCost { .. } => 26,
            ResolutionFault::TooManyVariables => 27,
            ResolutionFault::NotALink { .. } => 28,
            ResolutionFault::EndsDiffer { .. } => 29,
            ResolutionFault::PathExcluded { .. } => 70,
        }
    }
}

impl ResolutionFault {
    /// The line of the request file at which the fault stands, 0 where it is none of one line.
    pub fn line(self) -> u32
        ensures { result ≡ line_of_fault self }
    {
        match self {
            ResolutionFault::UnknownRouter { line } => line,
            ResolutionFault::UnknownInterface { line } => line,
            ResolutionFault::BrokenPath { line, .. } => line,
            ResolutionFault::LoopPath { line } => line,
            ResolutionFault::NoCost { .. } => 0,
            ResolutionFault::TooManyVariables => 0,
            ResolutionFault::NotALink { line } => line,
            ResolutionFault::EndsDiffer { line } => line,
            ResolutionFault::PathExcluded { line } => line,
        }
    }
}
