//! Lines of a script that put pieces into sinks.

use case_scripts::next_number;
use cost_base::{MemorySink, OutSink, Sink, SureSink};
use std::alloc::{AllocError, Global};
use std::str::SplitWhitespace;

/// Puts words, each as a piece, and tells which are put.
fn puts_text<K: Sink>(
    alloc: Global,
    sink: &mut K,
    words: &mut SplitWhitespace<'_>,
) -> Result<String, AllocError> {
    let mut text = String::from_str(alloc, ":")?;
    for word in words {
        let told = if sink.put(word.as_bytes()).is_ok() {
            " put"
        } else {
            " failed"
        };
        text.push_str(told)?;
    }
    Ok(text)
}

/// A sink of so many bytes, whose call of a number fails and keeps some bytes.
pub(crate) fn failing_sink(
    alloc: Global,
    room: usize,
    call: u64,
    kept: usize,
) -> Result<MemorySink, AllocError> {
    let mut failing = Vec::new(alloc);
    failing.push((call, kept))?;
    match MemorySink::new(alloc, room, failing) {
        Ok(sink) => Ok(sink),
        Err(_) => Err(AllocError),
    }
}

/// `memory-sink ROOM CALL KEPT PIECE ..`: a sink of so many bytes, whose call of a number fails and keeps some bytes.
pub(crate) fn memory_sink_text(alloc: Global, rest: &str) -> Result<String, AllocError> {
    let mut words = rest.split_whitespace();
    let room = next_number(&mut words) as usize;
    let call = u64::from(next_number(&mut words));
    let kept = next_number(&mut words) as usize;
    let mut sink = failing_sink(alloc, room, call, kept)?;
    let told = puts_text(alloc, &mut sink, &mut words)?;
    format!(in alloc; "{told}, got `{}`", sink.got().escape_ascii())
}

/// `sure-sink ROOM PIECE ..`: a sink that never fails, and tells whether it lost a piece.
pub(crate) fn sure_sink_text(alloc: Global, rest: &str) -> Result<String, AllocError> {
    let mut words = rest.split_whitespace();
    let room = next_number(&mut words) as usize;
    let Ok(mut sink) = SureSink::new(alloc, room) else {
        return Err(AllocError);
    };
    let told = puts_text(alloc, &mut sink, &mut words)?;
    format!(in alloc;
        "{told}, got `{}`, lost {}",
        sink.got().escape_ascii(),
        sink.lost()
    )
}

/// `out-sink PIECE ..`: a sink over a writer of four bytes.
pub(crate) fn out_sink_text(alloc: Global, rest: &str) -> Result<String, AllocError> {
    let mut bytes = [b'-'; 4];
    let mut sink = OutSink::new(bytes.as_mut_slice());
    let told = puts_text(alloc, &mut sink, &mut rest.split_whitespace())?;
    drop(sink);
    format!(in alloc; "{told}, got `{}`", bytes.as_slice().escape_ascii())
}
