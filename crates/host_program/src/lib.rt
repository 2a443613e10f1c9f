//! The program over the machine it runs on: the words that it was given, the machine's files, its standard output, and
//! the lines on a terminal that tell how far a search is, and what a refusal means.
#![tactic(auto)]

ghost use Rattle.std.specs.Prelude.{◌≡◌, IfOk};
ghost use Rattle.std.specs.Process.{exit_status};
ghost use Rattle.cost_base.specs.Statuses.{status_number};
ghost use Rattle.cost_base.specs.declared.Status.{Status};

use command_words::{Job, read_words};
use cost_base::{FileShelf, OutOfMemory, OutSink, Status};
use cut_advisors::{Advisor, Progress, SmallestNumber};
use designer_command::run_to_exit;
use refusal_sentences::{FirstPiece, sentence_of};
use std::alloc::Global;
use std::env::{self, Env};
use std::io::{self, ErrorKind, IsTerminal};
use std::process::ExitCode;

/// The least number of seconds between two lines that tell how far a search is.
const PAUSE: u64 = 5;

/// The words after the program's name. Where one isn't UTF-8 there are none, so that the run tells its usage.
fn words_given(rt: &(impl Env + AllocGlobal)) -> Result<Vec<String>, OutOfMemory> {
    match env::args(rt) {
        Ok(mut words) => {
            let _program = words.next();
            words.collect(rt.alloc()).map_err(|_| OutOfMemory)
        }
        Err(error) if error.kind() == ErrorKind::InvalidData => Ok(Vec::new(rt.alloc())),
        Err(_) => Err(OutOfMemory),
    }
}

/// How many entries a job allows a tree, where it is a search whose progress is told: those of `design`, `conflict` and
/// `total`.
fn budget_in(job: &Job) -> Option<u64> {
    match job {
        Job::Design(search) => Some(search.limits.nodes),
        Job::Conflict(search) => Some(search.limits.nodes),
        Job::Total(search) => Some(search.limits.nodes),
        _ => None,
    }
}

/// How many entries the words allow a tree, where they ask for such a search.
fn budget_of(words: &[String], alloc: Global) -> Option<u64> {
    match read_words(alloc, words) {
        Ok(job) => budget_in(&job),
        Err(_) => None,
    }
}

/// The advisor that tells on standard error how far the search of these words is, where that is a terminal.
fn progress_of(rt: &HostRuntime, words: &[String]) -> Option<Progress<HostRuntime>> {
    if rt.stderr().is_terminal() {
        Progress::begin(*rt, budget_of(words, rt.alloc())?, PAUSE)
    } else {
        None
    }
}

/// Tells on standard error what the line of a refusal means, where that is a terminal and the run ended by a refusal.
fn tell_refusal(rt: &HostRuntime, status: Status, line: &[u8]) {
    if !matches!(status, Status::InputRefused | Status::EvidenceRefused)
        || !rt.stderr().is_terminal()
    {
        return;
    }
    let Ok(Some(sentence)) = sentence_of(rt.alloc(), line) else {
        return;
    };
    if let Ok(sentence) = str::from_utf8(sentence.as_bytes()) {
        let _written = eprintln!(rt; "{sentence}");
    }
}

/// Runs the words that the program was given over the machine's files and standard output, with the advisor that picks
/// the first candidate. Behind it stands the one that tells how far the search is. A refusal is then told in words.
fn run_program(rt: &HostRuntime) -> Result<ExitCode, OutOfMemory>
    ensures { IfOk result (λ code. (status : Status) × (exit_status code ≡ status_number status)) }
{
    let words = words_given(rt)?;
    let mut advisors: Vec<Box<dyn Advisor>> = Vec::new(rt.alloc());
    advisors.push(Box::new(rt.alloc(), SmallestNumber)?)?;
    if let Some(progress) = progress_of(rt, &words) {
        advisors.push(Box::new(rt.alloc(), progress)?)?;
    }
    let mut shelf = FileShelf::new(rt.alloc(), rt);
    let mut out = FirstPiece::new(rt.alloc(), OutSink::new(io::writer(rt)));
    let (status, code) = run_to_exit(rt.alloc(), &words, &mut shelf, &mut out, &mut advisors);
    tell_refusal(rt, status, out.first());
    Ok(code)
}

/// Ends as the run does. Where there is no memory to begin it, it ends as a run does that has none.
///
/// Its exit status is always that of a run: 0 to 8.
pub fn run_host(rt: &HostRuntime) -> ExitCode
    ensures { (status : Status) × (exit_status result ≡ status_number status) }
{
    match run_program(rt) {
        Ok(code) => code,
        Err(OutOfMemory) => ExitCode::from(Status::OutOfMemory.number()),
    }
}
