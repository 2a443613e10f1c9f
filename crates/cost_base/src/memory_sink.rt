//! A sink in memory that fails where it is told to.

ghost use Rattle.std.specs.Prelude.{◌≡◌, ◌<◌, ◌≤◌, ◌+◌, ◌-◌, ◌^◌, ◌++◌, [], min, length, take, IfOk, OnOk, Some, None, vec_len, vec_capacity};
ghost use Rattle.cost_base.specs.Outside.{HasCause, GotAll};
ghost use Rattle.cost_base.specs.Histories.{Hands};
ghost use Rattle.cost_base.specs.HistoryLaws.{handed_none, handed_more};
ghost use Rattle.cost_base.specs.Fakes.{SucceedsWhere, kept_at, kept_or_all};

use crate::{OutOfMemory, PutFailed, Sink};
use std::alloc::Global;

/// A sink in memory, for tests. It fails at the calls that it was told, and where a piece doesn't fit in its room.
///
/// Calls are numbered from 0. The sink tells its bytes.
#[derive(Drop)]
pub struct MemorySink {
    bytes: Vec<u8>,
    room: usize,
    fail: Vec<(u64, usize)>,
    calls: u64,
    faults: u64,
    ghost room_is_there: { vec_len bytes + room ≤ vec_capacity bytes },
}

impl MemorySink {
    /// A sink that got nothing, with room for `room` bytes and a count of faults of 0.
    ///
    /// `fail` lists pairs of a call's number and of how many bytes of its piece are kept; the first pair of
    /// a call counts.
    ///
    /// # Errors
    ///
    /// `OutOfMemory` where the room got no memory.
    pub fn new(
        alloc: Global,
        room: usize,
        fail: Vec<(u64, usize)>,
    ) -> Result<MemorySink, OutOfMemory>
        ensures got { IfOk result (λ sink. ⟦<MemorySink as Sink>⟧.got sink ≡ Some []) }
        ensures faults { IfOk result (λ sink. ⟦<MemorySink as Sink>⟧.faults sink ≡ 0) }
        ensures room { IfOk result (λ sink. sink.room ≡ room) }
        ensures fail { IfOk result (λ sink. sink.fail.items ≡ fail.items) }
        ensures calls { IfOk result (λ sink. sink.calls ≡ 0) }
    {
        let bytes = Vec::with_capacity(alloc, room)?;
        Ok(MemorySink {
            bytes,
            room,
            fail,
            calls: 0,
            faults: 0,
        })
    }

    /// The bytes that the sink got.
    pub fn got(&self) -> &[u8]
        ensures { Some result.now ≡ ⟦<MemorySink as Sink>⟧.got self.now }
    {
        self.bytes.as_slice()
    }

    /// How many bytes a failing call keeps of its piece, or None where this call isn't to fail.
    fn kept(&self, call: u64) -> Option<usize>
        ensures { result ≡ kept_at self.now.fail.items call }
    {
        for pair in &self.fail {
            if pair.0 == call {
                return Some(pair.1);
            }
        }
        None
    }
}

impl Sink for MemorySink {
    ghost got = { λ sink. Some sink.bytes.items };

    ghost faults = { λ sink. sink.faults };

    ghost handed = { λ before now bytes.
        GotAll (Some before.bytes.items) (Some now.bytes.items) bytes };

    fn put(&mut self, piece: &[u8]) -> Result<(), PutFailed>
        // A piece is kept whole, or its first bytes, and a refusal is counted.
        ensures whole { OnOk result (self.new.bytes.items ≡ self.old.bytes.items ++ piece.now) }
        ensures cause { HasCause self.old.faults self.new.faults result }

        // It refuses a piece where it was told to, or where there is no room for it.
        ensures succeeds { SucceedsWhere ((kept_at self.old.fail.items self.old.calls ≡ None) ×
            (length piece.now ≤ self.old.room)) result }
        ensures kept { self.new.bytes.items ≡ self.old.bytes.items ++
            take
            (min self.old.room (kept_or_all (kept_at self.old.fail.items self.old.calls) piece.now))
            piece.now }
        ensures counted { OnOk result (self.new.faults ≡ self.old.faults) }

        // The call is counted, and what is kept takes room.
        ensures next { self.new.calls ≡ min (self.old.calls + 1) (2 ^ 64 - 1) }
        ensures fail { self.new.fail.items ≡ self.old.fail.items }
        ensures room { vec_len self.new.bytes + self.new.room ≡ vec_len self.old.bytes +
            self.old.room }
    {
        let told = self.kept(self.calls);
        self.calls = self.calls.saturating_add(1);
        let size = told.unwrap_or(piece.len()).min(piece.len()).min(self.room);
        let _ = self.bytes.extend_from_slice(&piece[..size]);
        self.room -= size;
        if told.is_none() && size == piece.len() {
            return Ok(());
        }
        self.faults = self.faults.saturating_add(1);
        Err(PutFailed)
    }

    ghost handed_none = { λ a. handed_none (Some a.bytes.items) };

    ghost handed_more = { λ a b c first later.
        handed_more (Some a.bytes.items) (Some b.bytes.items) (Some c.bytes.items) first later };

    ghost handed_got = { λ a b bytes handed. handed };
}
