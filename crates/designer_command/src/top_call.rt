//! The top call.
ghost use Rattle.std.specs.Prelude.{◌≡◌, ℕ, List, MatchResult};
ghost use Rattle.form_search.specs.AdvisorsAsked.{AreCalled};
ghost use Rattle.text_lines.specs.Arguments.{texts};
ghost use Rattle.report_writer.specs.Cutting.{PutsByPieces, PutsPieces, size_of_piece};
ghost use Rattle.report_writer.specs.Reports.{IsWritten, Reports, bytes_in};
ghost use Rattle.designer_command.specs.AdvisorsAsked.{AreAskedBy};
ghost use Rattle.designer_command.specs.Runs.{RunMeets};
ghost use Rattle.designer_command.specs.Usage.{usage};

use crate::dispatch::job_report;
use command_words::{WordsStop, read_words};
use cost_base::{OutOfMemory, Shelf, Sink, Status};
use cut_advisors::Advisor;
use report_writer::{Report, Text, report_of, write_report};
use std::alloc::Global;

/// The lines that tell how the program is called, each with its LF.
const USAGE: &str = "\
usage: ospfcost design --request F [--nodes N] [--bits B] CONFIG..
       ospfcost check --request F --answer A CONFIG..
       ospfcost audit --request F [--live L] CONFIG..
       ospfcost rewrite --answer A CONFIG
       ospfcost trial --blocks T [--start S]
       ospfcost conflict --request F [--nodes N] [--bits B] CONFIG..
       ospfcost spread --request F --sets G [--nodes N] [--bits B] CONFIG..
       ospfcost total --request F [--nodes N] [--bits B] CONFIG..
       ospfcost lsas --request F CONFIG..
       ospfcost route --lsas L --from A.B.C.D --to A.B.C.D
       ospfcost change --request F [--nodes N] [--bits B] CONFIG..
       ospfcost steps --request F --answer A [--nodes N] [--by line|router] CONFIG..
       ospfcost compare --live L --request F CONFIG..
       ospfcost help [COMMAND]
       ospfcost version
";

/// The report of words that are refused.
fn usage_report() -> Report
    ensures { Reports Status.WordsRefused usage result }
{
    Report {
        status: Status::WordsRefused,
        text: Text::Fixed(USAGE),
    }
}

/// Writes a report, where memory sufficed to make it, and tells how the run ends.
fn write_made<K: Sink>(made: Result<Report, OutOfMemory>, out: &mut K) -> Status
    ensures written { MatchResult made
        (λ report. IsWritten report.status (bytes_in report.text)
        (K.handed out.old out.new) (K.faults out.old) (K.faults out.new) result)
        (λ _. (result ≡ Status.OutOfMemory) × (out.new ≡ out.old)) }
    ensures pieces { MatchResult made (λ report. PutsPieces K.handed out.old out.new
        (size_of_piece report.text) (bytes_in report.text) result) (λ _. out.new ≡ out.old) }
{
    match made {
        Ok(report) => write_report(&report, out),
        Err(OutOfMemory) => Status::OutOfMemory,
    }
}

/// Runs the program on the words after its name, and tells how it ended.
///
/// `design --request F CONFIG..` reads the request file and the configurations from the shelf and writes the text of an
/// answer to the sink: with status `Done` that of best costs, with `Impossible` that no costs are fit, and with
/// `Undecided` that the budget of `--nodes` was used up at the cap that it names. Each comes with its evidence.
///
/// `trial --blocks T` makes a network of T blocks and designs it with a budget of 100,000 entries. It writes a summary
/// line and, with `Impossible` and `Undecided`, the answer's text behind it. No file is read.
///
/// `audit --request F CONFIG..` writes a line for each wanted path, with status `Done`: at present costs, or with
/// `--live L` at those at which the area runs whose database the file L has.
///
/// `check --request F --answer A CONFIG..` reads the answer's file after the other files. It writes `accepted optimal
/// K` or `accepted impossible`, with status `Done`, where the file's bytes are the text of a valid answer; else
/// `rejected NUMBER PLACE`, with status `EvidenceRefused`.
///
/// `rewrite --answer A CONFIG` reads the configuration and then the answer's file. It writes the configuration with the
/// answer's costs of its router, with status `Done`; else `rejected NUMBER PLACE`, with status `EvidenceRefused`.
///
/// `conflict --request F CONFIG..` writes costs that are fit for all requests, or a least conflict: requests for which
/// no costs are fit, with costs for each set without one of them. Its status is `Done`, or `Undecided`.
///
/// `spread --request F --sets G CONFIG..` reads the file of sets after the other files. It writes costs under which the
/// members of each set cost the same and every other simple path of their request costs more, with status `Done`; with
/// `Impossible` that there are none, and with `Undecided` that the budget was used up, each with its evidence.
///
/// `total --request F CONFIG..` writes the best costs with the least total. Where it finds no best costs it writes what
/// `design` does; where the budget was used up below a total, it tells the total that it found,
/// with status `Undecided`.
///
/// `lsas --request F CONFIG..` writes the router-LSAs and network-LSAs of the configurations at present costs (RFC
/// 2328, A.4), with status `Done`. Each is put by itself; all other texts are put line by line.
///
/// `route --lsas L --from A.B.C.D --to A.B.C.D` reads a file of LSAs, as `lsas` writes them, and writes the least cost
/// from one router to the other and where the first edges of the cheapest paths lead, with status `Done`.
///
/// `change --request F CONFIG..` writes the cost lines that differ from the present ones, of fit costs that change as
/// few variables as any, with status `Done`; with `Impossible` that no costs are fit, and with `Undecided` what was
/// found until the budget was used up. Each comes with its evidence.
///
/// `steps --request F --answer A CONFIG..` reads a text with costs after the other files. It writes an order of their
/// lines, or of their routers, in which each path that is the only cheapest before and after stays so after each step,
/// with status `Done`; with `Impossible` that there is none, and with `Undecided` that the budget of states was used
/// up, each with what stops the next steps; else `rejected NUMBER PLACE`, with status `EvidenceRefused`.
///
/// `compare --live L --request F CONFIG..` reads the database of the running area after the other files. It writes a
/// line for each difference from the configurations, and how many interfaces are the same, with status `Done` where
/// there is no difference, and `Impossible` where there is one.
///
/// `help [COMMAND]` and `version` write a text that is always the same, with status `Done`. No file is read.
///
/// The advisors are asked where a box is cut, and told of each entry of a tree. Whatever they answer, all of this
/// holds. Some of the first may be gone after the call, since they answered out of range; every other is left in its
/// place, and stands as these calls left it. `design`, `trial`, `total` and `conflict` ask them, in the searches of the
/// problem that their files say by whose findings the text is written; where these have a fault, and by other words,
/// none is asked.
///
/// Each file is asked for once, in its turn, and only where no fault stands before it. What is written is right for
/// what came of the files, also where the shelf keeps nothing of their content.
///
/// # Status
///
/// `InputRefused` with the first fault; `ReadFault` where a file of the words failed; `WriteFault` where the sink's
/// count of faults rose, and then a part of a text that this call may write was written; `OutOfMemory`, and then
/// nothing was written, and the files that were asked for begin those of the words; `WordsRefused` off the words, with
/// the usage text.
pub fn run<S: Shelf, K: Sink>(
    alloc: Global,
    words: &[String],
    shelf: &mut S,
    out: &mut K,
    advisors: &mut Vec<Box<dyn Advisor>>,
) -> Status
    ensures meets { RunMeets (texts words.now)
        (AreAskedBy ⟦<dyn Advisor as Advisor>⟧ (λ b. b.vtable) (λ b. state b)
        advisors.old.items advisors.new.items)
        (S.gave shelf.old shelf.new) (S.held shelf.old) (S.faults shelf.old) (S.faults shelf.new)
        (K.handed out.old out.new) (K.got out.old) (K.got out.new) (K.faults out.old)
        (K.faults out.new) result }
    ensures pieces { PutsByPieces K.handed out.old out.new result }
    ensures held { (name : List ℕ) → S.held shelf.new name ≡ S.held shelf.old name }
    ensures advisors { AreCalled ⟦<dyn Advisor as Advisor>⟧ (λ b. b.vtable) (λ b. state b)
        advisors.old.items advisors.new.items }
{
    match read_words(alloc, words) {
        Ok(job) => {
            let made = job_report(alloc, &job, shelf, advisors);
            write_made(report_of(alloc, made), out)
        }
        Err(WordsStop::Refused) => write_report(&usage_report(), out),
        Err(WordsStop::OutOfMemory) => Status::OutOfMemory,
    }
}
