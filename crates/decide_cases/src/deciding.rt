//! What deciding one cap, and looking for the least one, answer.
ghost use Rattle.std.specs.Prelude.{◌<◌, ◌≤◌, length, All};
ghost use Rattle.cost_branching.specs.Pools.{IsRowPool};

use crate::advisors::Counting;
use crate::command::CaseLimits;
use crate::conditions::are_below;
use case_scripts::{Entries, Spaced};
use cost_base::{MemorySink, OutOfMemory};
use cost_branching::{Found, Pool, decide};
use cut_advisors::{Advisor, Candidate, choose};
use design_problem::{Answer, Problem, Row};
use evidence_text::put_answer;
use least_bound::least;
use std::alloc::{AllocError, Global};
use std::fmt;
use wide_fraction::{Limits, Top};

/// How many bytes the text of an answer has at most.
const ROOM: usize = 4096;

/// The budget and the width, where there are such.
fn limits_of(case_limits: CaseLimits) -> Option<Limits> {
    let top = Top::new(case_limits.bits)?;
    Limits::new(u64::from(case_limits.nodes), top)
}

/// Rows, each on a line of its own.
#[derive(Drop)]
struct Rows<'a>(&'a [Row]);

impl<'a> fmt::Display for Rows<'a> {
    fn fmt<W: fmt::Write>(&self, f: &mut fmt::Formatter<W>) -> fmt::Result {
        for row in self.0 {
            write!(f, "\n  row {}{}", row.request, Spaced(row.rival.as_slice()))?;
        }
        Ok(())
    }
}

/// What was found, over the pool's rows.
fn found_text(alloc: Global, found: &Found, rows: &[Row]) -> Result<String, OutOfMemory> {
    let (word, tree) = match found {
        Found::Costs(costs) => {
            return Ok(format!(in alloc; ": costs{}", Spaced(costs.as_slice()))?);
        }
        Found::Refuted(tree) => ("refuted", tree),
        Found::Undecided(tree) => ("undecided", tree),
    };
    let entries = Entries(tree.as_slice());
    Ok(format!(in alloc; ": {word}{}{entries}", Rows(rows))?)
}

/// What deciding a cap over this pool answers.
fn decided_in(
    problem: &Problem,
    cap: u16,
    limits: &Limits,
    pool: &mut Pool,
    advisors: &mut Vec<Box<dyn Advisor>>,
) -> Result<String, OutOfMemory>
    requires cap { All (λ low. low ≤ cap) problem.now.low }
    requires pool { IsRowPool problem.now pool.old }
{
    match decide(problem, cap, limits, pool, advisors) {
        Ok(found) => found_text(pool.alloc(), &found, pool.rows()),
        Err(OutOfMemory) => Err(OutOfMemory),
    }
}

/// What deciding a cap answers.
fn decided_text(
    alloc: Global,
    problem: &Problem,
    cap: u16,
    limits: &Limits,
    advisors: &mut Vec<Box<dyn Advisor>>,
) -> Result<String, OutOfMemory>
    requires { All (λ low. low ≤ cap) problem.now.low }
{
    let mut pool = Pool::new(alloc);
    decided_in(problem, cap, limits, &mut pool, advisors)
}

/// What deciding a cap without an advisor answers.
pub(crate) fn decide_text(
    alloc: Global,
    problem: &Problem,
    cap: u16,
    case_limits: CaseLimits,
) -> Result<String, OutOfMemory> {
    let Some(limits) = limits_of(case_limits) else {
        return Ok(String::from_str(alloc, ": no budget")?);
    };
    if !are_below(problem.low.as_slice(), cap) {
        return Ok(String::from_str(alloc, ": unfit")?);
    }
    let mut advisors: Vec<Box<dyn Advisor>> = Vec::new(alloc);
    decided_text(alloc, problem, cap, &limits, &mut advisors)
}

/// So many candidates.
fn candidates(alloc: Global, count: u32) -> Result<Vec<Candidate>, AllocError> {
    let mut candidates = Vec::new(alloc);
    for var in 0..count {
        candidates.push(Candidate {
            var,
            floor: 1,
            low: 1,
            high: 2,
        })?;
    }
    Ok(candidates)
}

/// What deciding a cap with these advisors answers, and what is chosen of these candidates then.
fn chosen_text(
    problem: &Problem,
    cap: u16,
    limits: &Limits,
    advisors: &mut Vec<Box<dyn Advisor>>,
    candidates: &[Candidate],
) -> Result<String, OutOfMemory>
    requires cap { All (λ low. low ≤ cap) problem.now.low }
    requires some { 0 < length candidates.now }
{
    let alloc = *advisors.allocator();
    let text = decided_text(alloc, problem, cap, limits, advisors)?;
    let chosen = choose(advisors, candidates);
    let left = advisors.len();
    Ok(format!(in alloc; "{text}\n  chosen {chosen}, advisors left {left}")?)
}

/// What deciding a cap with an advisor that counts answers, and what is chosen of these candidates then.
fn counted_text(
    alloc: Global,
    problem: &Problem,
    cap: u16,
    limits: &Limits,
    candidates: &[Candidate],
) -> Result<String, OutOfMemory> {
    if candidates.is_empty() || !are_below(problem.low.as_slice(), cap) {
        return Ok(String::from_str(alloc, ": unfit")?);
    }
    let mut advisors: Vec<Box<dyn Advisor>> = Vec::new(alloc);
    advisors.push(Box::new(alloc, Counting { told: 0 })?)?;
    chosen_text(problem, cap, limits, &mut advisors, candidates)
}

/// What deciding a cap with an advisor that counts answers, and what is chosen of so many candidates then.
pub(crate) fn told_text(
    alloc: Global,
    problem: &Problem,
    cap: u16,
    case_limits: CaseLimits,
    count: u32,
) -> Result<String, OutOfMemory> {
    let Some(limits) = limits_of(case_limits) else {
        return Ok(String::from_str(alloc, ": no budget")?);
    };
    let candidates = candidates(alloc, count)?;
    counted_text(alloc, problem, cap, &limits, candidates.as_slice())
}

/// An answer, where it has room.
fn answer_text(alloc: Global, answer: &Answer) -> Result<String, OutOfMemory> {
    let mut sink = MemorySink::new(alloc, ROOM, Vec::new(alloc))?;
    match put_answer(answer, &mut sink) {
        Ok(()) => text_of(alloc, sink.got()),
        Err(_) => Ok(String::from_str(alloc, ": too long")?),
    }
}

/// The text of these bytes, on lines of its own.
fn text_of(alloc: Global, bytes: &[u8]) -> Result<String, OutOfMemory> {
    let text = str::from_utf8(bytes).unwrap_or("?");
    Ok(format!(in alloc; ":\n{}", text.trim_end())?)
}

/// The text of the answer with the least cap.
pub(crate) fn least_text(
    alloc: Global,
    problem: &Problem,
    case_limits: CaseLimits,
) -> Result<String, OutOfMemory> {
    let Some(limits) = limits_of(case_limits) else {
        return Ok(String::from_str(alloc, ": no budget")?);
    };
    let mut advisors: Vec<Box<dyn Advisor>> = Vec::new(alloc);
    match least(alloc, problem, &limits, &mut advisors) {
        Ok(answer) => answer_text(alloc, &answer),
        Err(OutOfMemory) => Err(OutOfMemory),
    }
}
