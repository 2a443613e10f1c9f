//! Why a text wasn't read as an answer.
ghost use Rattle.evidence_reader.specs.Refusals.{text_fault_number};

use cost_base::Fault;

/// What is wrong with a text that is no answer's.
#[derive(Clone, Copy, Debug, PartialEq, Eq)]
pub enum AnswerFault {
    /// A line is off the grammar.
    BadAnswerLine,
    /// The text ends before its `end` line.
    EarlyEnd,
    /// Something stands behind the `end` line.
    AfterEnd,
}

impl Fault for AnswerFault {
    ghost numbered = { text_fault_number };

    fn number(self) -> u8 {
        match self {
            AnswerFault::BadAnswerLine => 30,
            AnswerFault::EarlyEnd => 31,
            AnswerFault::AfterEnd => 32,
        }
    }
}
