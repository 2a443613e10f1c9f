//! A sink that keeps what it gets, so that a text is made whole before any of it is put.
ghost use Rattle.std.specs.Prelude.{◌≡◌, Some, IsOk, IfOk, OnOk};
ghost use Rattle.cost_base.specs.Outside.{GotAll};
ghost use Rattle.cost_base.specs.HistoryLaws.{handed_none, handed_more};

use cost_base::{OutOfMemory, PutFailed, Sink};

/// The bytes that were put. A growth that is refused is a fault, and the only one.
#[derive(Drop)]
pub(crate) struct TextBuffer {
    pub(crate) bytes: Vec<u8>,
    pub(crate) faults: u64,
}

impl Sink for TextBuffer {
    ghost got = { λ sink. Some sink.bytes.items };

    ghost faults = { λ sink. sink.faults };

    ghost handed = { λ before now bytes.
        GotAll (Some before.bytes.items) (Some now.bytes.items) bytes };

    fn put(&mut self, piece: &[u8]) -> Result<(), PutFailed> {
        match self.bytes.extend_from_slice(piece) {
            Ok(()) => Ok(()),
            Err(_) => {
                self.faults = self.faults.saturating_add(1);
                Err(PutFailed)
            }
        }
    }

    ghost handed_none = { λ a. handed_none (Some a.bytes.items) };

    ghost handed_more = { λ a b c first later.
        handed_more (Some a.bytes.items) (Some b.bytes.items) (Some c.bytes.items) first later };

    ghost handed_got = { λ a b bytes handed. handed };
}

impl TextBuffer {
    /// A sink that these bytes were put into.
    pub(crate) fn from_bytes(bytes: Vec<u8>) -> TextBuffer
        ensures { result.bytes ≡ bytes }
    {
        TextBuffer { bytes, faults: 0 }
    }

    /// The bytes, of which the last ones were put, unless a growth was refused.
    pub(crate) fn whole(self, put: Result<(), PutFailed>) -> Result<Vec<u8>, OutOfMemory>
        ensures put { OnOk result (IsOk put) }
        ensures bytes { IfOk result (λ bytes. bytes ≡ self.bytes) }
    {
        match put {
            Ok(()) => Ok(self.bytes),
            Err(PutFailed) => Err(OutOfMemory),
        }
    }
}
