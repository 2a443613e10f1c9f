//! A run at the program's edge: what a record of its files and its output tells, and how it ends the process.
ghost use Rattle.std.specs.Prelude.{◌≡◌, ℕ, List};
ghost use Rattle.std.specs.Process.{exit_status};
ghost use Rattle.cost_base.specs.Records.{IsNoted, IsNotedInPieces};
ghost use Rattle.cost_base.specs.Recorded.{files_recorded, pieces_recorded, shelf_recorded, sink_recorded};
ghost use Rattle.cost_base.specs.Statuses.{status_number};
ghost use Rattle.text_lines.specs.Arguments.{texts};
ghost use Rattle.report_writer.specs.Cutting.{PutsByPieces};
ghost use Rattle.form_search.specs.AdvisorsAsked.{AreCalled};
ghost use Rattle.designer_command.specs.AdvisorsAsked.{AreAskedBy};
ghost use Rattle.designer_command.specs.Runs.{RunMeets};

use crate::run;
use cost_base::{RecordedShelf, RecordedSink, Shelf, Sink, Status};
use cut_advisors::Advisor;
use std::alloc::Global;
use std::process::ExitCode;

/// Runs the program on the words after its name, and gives the run's status, and its number as the exit status
/// of the process.
pub fn run_to_exit<S: Shelf, K: Sink>(
    alloc: Global,
    words: &[String],
    shelf: &mut S,
    out: &mut K,
    advisors: &mut Vec<Box<dyn Advisor>>,
) -> (Status, ExitCode)
    ensures exit { exit_status result.1 ≡ status_number result.0 }
    ensures meets { RunMeets (texts words.now)
        (AreAskedBy ⟦<dyn Advisor as Advisor>⟧ (λ b. b.vtable) (λ b. state b)
        advisors.old.items advisors.new.items)
        (S.gave shelf.old shelf.new)
        (S.held shelf.old) (S.faults shelf.old) (S.faults shelf.new)
        (K.handed out.old out.new) (K.got out.old) (K.got out.new)
        (K.faults out.old) (K.faults out.new) result.0 }
    ensures pieces { PutsByPieces K.handed out.old out.new result.0 }
    ensures held { (name : List ℕ) → S.held shelf.new name ≡ S.held shelf.old name }
    ensures advisors { AreCalled ⟦<dyn Advisor as Advisor>⟧ (λ b. b.vtable) (λ b. state b)
        advisors.old.items advisors.new.items }
{
    let status = run(alloc, words, shelf, out, advisors);
    (status, ExitCode::from(status.number()))
}

/// A run over a shelf and a sink that keep records: what the records grew by is what came of the files and what was
/// handed over, also where the shelf and the sink in them tell nothing, as real files and the standard output do.
///
/// A record grows by calls of `take` and `put` alone, so no body that reads other files, or none, meets this at
/// `RecordedShelf<FileShelf<R>>` and `RecordedSink<OutSink<W>>` either.
pub fn recorded_run<S: Shelf, K: Sink>(
    alloc: Global,
    words: &[String],
    shelf: &mut RecordedShelf<S>,
    out: &mut RecordedSink<K>,
    advisors: &mut Vec<Box<dyn Advisor>>,
) -> Status
    ensures meets { let before = shelf_recorded shelf.old in let now = shelf_recorded shelf.new in
        let sink = sink_recorded out.old in let sink_now = sink_recorded out.new in
        RunMeets (texts words.now)
        (AreAskedBy ⟦<dyn Advisor as Advisor>⟧ (λ b. b.vtable) (λ b. state b)
        advisors.old.items advisors.new.items)
        (IsNoted (S.gave before now) (files_recorded shelf.old)
        (files_recorded shelf.new)) (S.held before) (S.faults before) (S.faults now)
        (IsNotedInPieces (K.handed sink sink_now) (pieces_recorded out.old)
        (pieces_recorded out.new)) (K.got sink) (K.got sink_now) (K.faults sink) (K.faults sink_now)
        result }
    ensures pieces { PutsByPieces ⟦<RecordedSink<K> as Sink>⟧.handed out.old out.new result }
    ensures held { (name : List ℕ) →
        S.held (shelf_recorded shelf.new) name ≡ S.held (shelf_recorded shelf.old) name }
    ensures advisors { AreCalled ⟦<dyn Advisor as Advisor>⟧ (λ b. b.vtable) (λ b. state b)
        advisors.old.items advisors.new.items }
{
    run(alloc, words, shelf, out, advisors)
}
