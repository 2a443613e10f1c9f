//! Laws about the definitions: each is the contract of a function that does nothing.
ghost use Rattle.design_problem.specs.Laws.{ClosedTreesLeaveNone, GreatestBounds, FitMeansMet, TreesAreTrees};
ghost use Rattle.design_problem.specs.ProblemLaws.{GreatestReached, TreesBoundCosts, TreesLeaveNoFit, LeastIsShown, ValidAnswersHold, TreesAreSmall};
ghost use Rattle.design_problem.specs.ProblemLaws.{EarnestTreesCut, SoundTreesAreSingle, SingleTreesArePreorders, PreordersDecide, SingleTreesEnd, SizesBoundValues};
ghost use Rattle.design_problem.specs.ProblemLaws.{WeightedSumsFit};

/// Where a closed tree is sound over a box, no costs of the box meet the forms.
pub fn closed_trees_leave_none()
    ensures { ClosedTreesLeaveNone }
{}

/// A form is at most its greatest value at each point of the box.
pub fn greatest_bounds_values()
    ensures { GreatestBounds }
{}

/// The greatest value of a form over a box is its value at some costs of the box.
pub fn greatest_is_reached()
    ensures { GreatestReached }
{}

/// Costs are fit exactly where they are within the bounds and the form of each row is at least 0.
pub fn fit_costs_meet_rows()
    ensures { FitMeansMet }
{}

/// A list of entries closes the open boxes exactly where it is the preorder of a sound tree.
pub fn entries_are_trees()
    ensures { TreesAreTrees }
{}

/// Where a closed tree of true rows is sound over the box at a cap, all fit costs have a greatest cost above the cap.
pub fn trees_bound_costs()
    ensures { TreesBoundCosts }
{}

/// Where a closed tree of true rows is sound over the box at the greatest bound, no costs are fit.
pub fn trees_leave_no_fit()
    ensures { TreesLeaveNoFit }
{}

/// A floor, or a proof at the cap below, shows that no fit costs have a smaller greatest cost than the printed ones.
pub fn least_is_shown()
    ensures { LeastIsShown }
{}

/// A valid optimal answer has best costs, and a valid impossible answer leaves no fit costs.
pub fn valid_answers_hold()
    ensures { ValidAnswersHold }
{}

/// A sound tree over a box has at most twice as many entries as the box has points, less one, and one fewer
/// with an Undone.
pub fn trees_are_small()
    ensures { TreesAreSmall }
{}

/// Of the N entries of an earnest tree in n variables with an Undone at least (N - 2n)/(4n + 2) have two subtrees.
pub fn earnest_trees_cut()
    ensures { EarnestTreesCut }
{}

/// The entries of a sound tree are one whole tree.
pub fn sound_trees_are_whole()
    ensures { SoundTreesAreSingle }
{}

/// A list of entries is one whole tree exactly where it is the preorder of a tree.
pub fn whole_trees_are_preorders()
    ensures { SingleTreesArePreorders }
{}

/// The preorder of a tree decides the tree.
pub fn preorders_decide()
    ensures { PreordersDecide }
{}

/// No whole tree begins another one that is longer.
pub fn whole_trees_end()
    ensures { SingleTreesEnd }
{}

/// A form's value at costs of at most 65,535 is within its size.
pub fn sizes_bound_values()
    ensures { SizesBoundValues }
{}

/// A weighted sum of forms of size below 2^27 each, of multipliers of sum below 2^100, has a size below 2^127.
pub fn weighted_sums_fit()
    ensures { WeightedSumsFit }
{}
