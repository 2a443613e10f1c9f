//! When a run has to answer: each law is the contract of a function, most of them of one that does nothing.
ghost use Rattle.std.specs.Prelude.{◌≢◌};
ghost use Rattle.text_lines.specs.Arguments.{texts};
ghost use Rattle.designer_command.specs.Completeness.{ChangesAreFound, ConflictsAreFound, DesignsAreAccepted, DifferencesAreWritten, HeadedCostsAreWritten, HelpIsWritten};
ghost use Rattle.designer_command.specs.Completeness.{IdentifiedInputIsWritten, KnownRoutersAreRouted, LargeBudgetsSuffice, RunningAreaIsAudited, TrialsAreDesigned, SpreadsAreFound, StepsAreFound, TotalsAreFound};
ghost use Rattle.designer_command.specs.Completeness.{ValidAnswersAreAccepted, WellFormedInputIsAudited, WellFormedInputIsDesigned};
ghost use Rattle.designer_command.specs.AdvisorsAsked.{AreAskedBy};
ghost use Rattle.designer_command.specs.Runs.{RunMeets};

use crate::run;
use cost_base::{Shelf, Sink, Status, SureShelf, SureSink};
use cut_advisors::Advisor;
use std::alloc::Global;

/// A design of well-formed input answers that there are fit costs, or that there are none, as it is, where the budget
/// can't be used up.
pub fn well_formed_input_is_designed()
    ensures { WellFormedInputIsDesigned }
{}

/// A trial whose texts have no fault answers that there are fit costs, or that there are none, as it is, where the
/// budget can't be used up.
pub fn trials_are_designed()
    ensures { TrialsAreDesigned }
{}

/// For well-formed input a budget of twice as many entries as the box at the greatest bound has points, less one,
/// can't be used up: by `design`, `conflict`, `spread` or `total`.
pub fn large_budgets_suffice()
    ensures { LargeBudgetsSuffice }
{}

/// A check of a valid answer's text after well-formed input may write nothing but that it is accepted.
pub fn valid_answers_are_accepted()
    ensures { ValidAnswersAreAccepted }
{}

/// A check of what a design printed may write nothing but that it is accepted, also where that is that no
/// costs are fit.
pub fn designs_are_accepted()
    ensures { DesignsAreAccepted }
{}

/// An audit of well-formed input may write nothing but its lines.
pub fn well_formed_input_is_audited()
    ensures { WellFormedInputIsAudited }
{}

/// A rewrite with the costs of a text, whose interfaces of the router have heads, may write nothing
/// but the configuration.
pub fn headed_costs_are_written()
    ensures { HeadedCostsAreWritten }
{}

/// `conflict` on well-formed input may write nothing but what it found, and not that it is undecided where the budget
/// can't be used up.
pub fn conflicts_are_found()
    ensures { ConflictsAreFound }
{}

/// `spread` on well-formed input and sets without a fault may write nothing but what it found: where the budget can't
/// be used up it writes spread-fit costs where there are such, and that there are none exactly where there are none.
pub fn spreads_are_found()
    ensures { SpreadsAreFound }
{}

/// `total` on well-formed input may write nothing but what it found: where the budget can't be used up it writes that
/// there are no fit costs exactly where there are none.
pub fn totals_are_found()
    ensures { TotalsAreFound }
{}

/// `change` on well-formed input may write nothing but what it found: where the budget can't be used up it writes fit
/// costs with the fewest changes where there are fit costs, and that there are none exactly where there are none.
pub fn changes_are_found()
    ensures { ChangesAreFound }
{}

/// `steps` on well-formed input and a text with costs of its interfaces may write nothing but what it found: where
/// each set of steps may be tested it writes a safe order where there is one, and that there is none exactly where
/// there is none.
pub fn steps_are_found()
    ensures { StepsAreFound }
{}

/// `lsas` on well-formed input with router IDs may write nothing but the LSAs.
pub fn identified_input_is_written()
    ensures { IdentifiedInputIsWritten }
{}

/// An audit of a running area whose files have no fault may write nothing but its lines.
pub fn running_area_is_audited()
    ensures { RunningAreaIsAudited }
{}

/// `compare` on well-formed input with router IDs and a live file without a fault may write nothing but the
/// differences, and tells by its status whether there are some.
pub fn differences_are_written()
    ensures { DifferencesAreWritten }
{}

/// `help` and `version` may write nothing but their texts, whatever the files.
pub fn help_is_written()
    ensures { HelpIsWritten }
{}

/// `route` on LSAs without a fault, among which both routers have one, may write nothing but the route.
pub fn known_routers_are_routed()
    ensures { KnownRoutersAreRouted }
{}

/// A run over a shelf and a sink that never fail, which ends with no fault of theirs.
pub fn sure_run(
    alloc: Global,
    words: &[String],
    shelf: &mut SureShelf,
    out: &mut SureSink,
    advisors: &mut Vec<Box<dyn Advisor>>,
) -> Status
    ensures meets { RunMeets (texts words.now)
        (AreAskedBy ⟦<dyn Advisor as Advisor>⟧ (λ b. b.vtable) (λ b. state b)
        advisors.old.items advisors.new.items)
        (⟦<SureShelf as Shelf>⟧.gave shelf.old shelf.new)
        (⟦<SureShelf as Shelf>⟧.held shelf.old) (⟦<SureShelf as Shelf>⟧.faults shelf.old)
        (⟦<SureShelf as Shelf>⟧.faults shelf.new) (⟦<SureSink as Sink>⟧.handed out.old out.new)
        (⟦<SureSink as Sink>⟧.got out.old) (⟦<SureSink as Sink>⟧.got out.new)
        (⟦<SureSink as Sink>⟧.faults out.old) (⟦<SureSink as Sink>⟧.faults out.new) result }
    ensures shelf { result ≢ Status.ReadFault }
    ensures sink { result ≢ Status.WriteFault }
{
    run(alloc, words, shelf, out, advisors)
}
