//! A sink in memory that never fails.

ghost use Rattle.std.specs.Prelude.{◌≡◌, ◌<◌, ◌≤◌, ◌+◌, ◌++◌, [], length, true, false, IfOk, IsOk, Some, None, if◌then◌else◌, vec_len, vec_capacity};
ghost use Rattle.cost_base.specs.Outside.{GotAll};
ghost use Rattle.cost_base.specs.Histories.{Hands};
ghost use Rattle.cost_base.specs.HistoryLaws.{handed_none, handed_more};
ghost use Rattle.cost_base.specs.Fakes.{unless_lost};

use crate::{OutOfMemory, PutFailed, Sink};
use std::alloc::Global;

/// A sink in memory that never fails. A piece that doesn't fit in its room is dropped, which `lost` tells from then on.
///
/// The sink tells its bytes as long as nothing was lost.
#[derive(Drop)]
pub struct SureSink {
    bytes: Vec<u8>,
    room: usize,
    lost: bool,
    ghost room_is_there: { vec_len bytes + room ≤ vec_capacity bytes },
}

impl SureSink {
    /// A sink that got nothing and lost nothing, with room for `room` bytes. Its count of faults is 0, now and later.
    ///
    /// # Errors
    ///
    /// `OutOfMemory` where the room got no memory.
    pub fn new(alloc: Global, room: usize) -> Result<SureSink, OutOfMemory>
        ensures got { IfOk result (λ sink. ⟦<SureSink as Sink>⟧.got sink ≡ Some []) }
        ensures faults { IfOk result (λ sink. ⟦<SureSink as Sink>⟧.faults sink ≡ 0) }
        ensures room { IfOk result (λ sink. sink.room ≡ room) }
        ensures lost { IfOk result (λ sink. sink.lost ≡ false) }
    {
        let bytes = Vec::with_capacity(alloc, room)?;
        Ok(SureSink {
            bytes,
            room,
            lost: false,
        })
    }

    /// The bytes of the pieces that fitted, in order.
    pub fn got(&self) -> &[u8]
        ensures bytes { result.now ≡ self.now.bytes.items }
        ensures told { self.now.lost ≡ false → ⟦<SureSink as Sink>⟧.got self.now ≡ Some result.now }
    {
        self.bytes.as_slice()
    }

    /// Whether a piece was dropped.
    pub fn lost(&self) -> bool
        ensures lost { result ≡ self.now.lost }
        ensures told { result ≡ false → ⟦<SureSink as Sink>⟧.got self.now ≡
            Some self.now.bytes.items }
    {
        self.lost
    }
}

impl Sink for SureSink {
    ghost got = { λ sink. unless_lost sink.lost sink.bytes.items };

    ghost faults = { λ sink. 0 };

    ghost handed = { λ before now bytes.
        GotAll (unless_lost before.lost before.bytes.items)
        (unless_lost now.lost now.bytes.items) bytes };

    fn put(&mut self, piece: &[u8]) -> Result<(), PutFailed>
        ensures sure { IsOk result }
        ensures taken { length piece.now ≤ self.old.room →
            (self.new.bytes.items ≡ self.old.bytes.items ++ piece.now) ×
            (self.new.lost ≡ self.old.lost) }
        ensures dropped { self.old.room < length piece.now →
            (self.new.bytes.items ≡ self.old.bytes.items) × (self.new.lost ≡ true) }
        ensures room { vec_len self.new.bytes + self.new.room ≡ vec_len self.old.bytes +
            self.old.room }
    {
        if piece.len() <= self.room {
            let _ = self.bytes.extend_from_slice(piece);
            self.room -= piece.len();
        } else {
            self.lost = true;
        }
        Ok(())
    }

    ghost handed_none = { λ a. handed_none (unless_lost a.lost a.bytes.items) };

    ghost handed_more = { λ a b c first later.
        handed_more (unless_lost a.lost a.bytes.items) (unless_lost b.lost b.bytes.items)
        (unless_lost c.lost c.bytes.items) first later };

    ghost handed_got = { λ a b bytes handed. handed };
}
