//! What an answer can be refused for.
ghost use Rattle.evidence_checker.specs.Numbers.{check_fault_number};

use cost_base::Fault;

/// The tests of an answer, in their order. Each has its number in the output of `check`.
#[derive(Clone, Copy, Debug, PartialEq, Eq)]
pub enum CheckFault {
    /// 49: the verdict claims nothing.
    NothingClaimed,
    /// 51: the answer lacks the shape of its verdict, or an undecided tree stands.
    WrongShape,
    /// 50: the cost lines don't name the free interfaces, each once, in order.
    WrongPlaces,
    /// 53: two lines of one variable have different costs. The place is the variable.
    UnequalEnds,
    /// 45: a variable's cost is outside its bounds. The place is the variable.
    OutOfBounds,
    /// 47: the claim, the number before the lines and the greatest cost aren't all equal.
    WrongGreatest,
    /// 46: a wanted path isn't the only cheapest of its request. The place is the request.
    NotOnlyCheapest,
    /// 52: the floor is no variable whose lower bound is the greatest cost.
    FalseFloor,
    /// 40: a row isn't a simple path of its request. The place is the row.
    NotAPath,
    /// 41: a row is the wanted path. The place is the row.
    NotARival,
    /// 48: the sum of a Refute's multipliers is 2^100 or more. The place is the line of the tree.
    GreatMultipliers,
    /// 43: a Refute refutes nothing. The place is the line of the tree.
    NothingRefuted,
    /// 42: a Tighten, a Split or a Halve is no sound step. The place is the line of the tree.
    UnsoundEntry,
    /// 44: nothing is said of a box. The place is the line of the tree.
    OpenLeaf,
}

impl Fault for CheckFault {
    ghost numbered = { check_fault_number };

    fn number(self) -> u8 {
        match self {
            CheckFault::NothingClaimed => 49,
            CheckFault::WrongShape => 51,
            CheckFault::WrongPlaces => 50,
            CheckFault::UnequalEnds => 53,
            CheckFault::OutOfBounds => 45,
            CheckFault::WrongGreatest => 47,
            CheckFault::NotOnlyCheapest => 46,
            CheckFault::FalseFloor => 52,
            CheckFault::NotAPath => 40,
            CheckFault::NotARival => 41,
            CheckFault::GreatMultipliers => 48,
            CheckFault::NothingRefuted => 43,
            CheckFault::UnsoundEntry => 42,
            CheckFault::OpenLeaf => 44,
        }
    }
}
