//! Whole texts of answers, read and put.

use cost_base::{Fault, MemorySink, OutOfMemory, PutFailed, Refusal};
use design_problem::{Answer, Costs};
use evidence_reader::{AnswerFault, read_answer};
use evidence_text::{TreePart, put_answer, put_costs, put_rows, put_tree};
use std::alloc::{AllocError, Global};

/// The answer of a text of at most 100,000 bytes.
fn read_short(alloc: Global, text: &[u8]) -> Result<Answer, Refusal<AnswerFault>> {
    if text.len() > 100_000 {
        return Err(Refusal::OutOfMemory);
    }
    read_answer(alloc, text)
}

/// Why a text wasn't read.
fn stop_text(alloc: Global, stop: Refusal<AnswerFault>) -> Result<String, AllocError> {
    match stop {
        Refusal::Refused { fault, place } => {
            format!(in alloc; ": refused {} at line {place}", fault.number())
        }
        Refusal::OutOfMemory => Err(AllocError),
    }
}

/// Adds the costs of an answer.
fn add_costs(alloc: Global, text: &mut String, costs: &Costs) -> Result<(), AllocError> {
    text.push_str(format!(in alloc; ", costs up to {}", costs.greatest)?.as_str())?;
    for line in costs.lines.as_slice() {
        let router = line.router.as_bytes().escape_ascii();
        let interface = line.interface.as_bytes().escape_ascii();
        text.push_str(format!(in alloc; " {router}:{interface} {}", line.cost)?.as_str())?;
    }
    Ok(())
}

/// The parts of an answer, in short.
fn answer_text(alloc: Global, answer: &Answer) -> Result<String, AllocError> {
    let verdict = answer.verdict;
    let mut text = format!(in alloc; ": {verdict:?}, floor {:?}", answer.floor)?;
    if let Some(costs) = &answer.costs {
        add_costs(alloc, &mut text, costs)?;
    }
    for _ in answer.rows.as_slice() {
        text.push_str(", a rival")?;
    }
    let has_proof = answer.proof.is_some();
    let is_undecided = answer.undecided.is_some();
    format!(in alloc; "{text}, proof {has_proof}, open {is_undecided}")
}

/// Whether an answer comes back where it is put.
fn comes_back(alloc: Global, answer: &Answer, bytes: &[u8]) -> Result<bool, OutOfMemory> {
    let mut sink = MemorySink::new(alloc, 4_096, Vec::new(alloc))?;
    Ok(put_answer(answer, &mut sink).is_ok() && sink.got() == bytes)
}

/// What the answer of a text says, and whether it comes back where it is put.
fn back_text(alloc: Global, answer: &Answer, bytes: &[u8]) -> Result<String, OutOfMemory> {
    let comes_back = comes_back(alloc, answer, bytes)?;
    let text = answer_text(alloc, answer)?;
    Ok(format!(in alloc; "{text}, comes back {comes_back}")?)
}

/// `answer MORE`: what the last text says, and whether it comes back where it is put; or its first fault.
pub(crate) fn read_text(alloc: Global, bytes: &[u8]) -> Result<String, OutOfMemory> {
    match read_short(alloc, bytes) {
        Ok(answer) => back_text(alloc, &answer, bytes),
        Err(stop) => Ok(stop_text(alloc, stop)?),
    }
}

/// Puts an answer into a sink that fails at its second line and keeps four bytes of it.
fn put_failing(alloc: Global, answer: &Answer) -> Result<String, OutOfMemory> {
    let mut failing = Vec::new(alloc);
    failing.push((1u64, 4usize))?;
    let mut sink = MemorySink::new(alloc, 4_096, failing)?;
    let is_put = put_answer(answer, &mut sink).is_ok();
    Ok(format!(in alloc; ": put {is_put}, got `{}`", sink.got().escape_ascii())?)
}

/// `put`: puts the answer of the last text into a sink that fails at its second line and keeps four bytes of it.
pub(crate) fn put_text(alloc: Global, bytes: &[u8]) -> Result<String, OutOfMemory> {
    match read_short(alloc, bytes) {
        Ok(answer) => put_failing(alloc, &answer),
        Err(stop) => Ok(stop_text(alloc, stop)?),
    }
}

/// Puts the costs, the rows and the trees of an answer, each by its own call.
fn put_parts(answer: &Answer, sink: &mut MemorySink) -> Result<(), PutFailed> {
    put_costs(answer.costs.as_ref(), sink)?;
    put_rows(answer.rows.as_slice(), sink)?;
    put_tree(TreePart::Proof, answer.proof.as_ref(), sink)?;
    put_tree(TreePart::Undecided, answer.undecided.as_ref(), sink)
}

/// Whether all was put, and the lines that a sink got.
fn lines_text(alloc: Global, is_put: bool, got: &[u8]) -> Result<String, OutOfMemory> {
    let mut text = format!(in alloc; ": put {is_put}")?;
    for line in got.split(|byte| *byte == b'\n') {
        text.push_str(format!(in alloc; "\n  `{}`", line.escape_ascii())?.as_str())?;
    }
    Ok(text)
}

/// The parts of an answer, each put by its own call.
fn parts_of(alloc: Global, answer: &Answer) -> Result<String, OutOfMemory> {
    let mut sink = MemorySink::new(alloc, 4_096, Vec::new(alloc))?;
    let is_put = put_parts(answer, &mut sink).is_ok();
    lines_text(alloc, is_put, sink.got())
}

/// `parts`: the parts of the last text's answer, each put by its own call.
pub(crate) fn parts_text(alloc: Global, bytes: &[u8]) -> Result<String, OutOfMemory> {
    match read_short(alloc, bytes) {
        Ok(answer) => parts_of(alloc, &answer),
        Err(stop) => Ok(stop_text(alloc, stop)?),
    }
}
