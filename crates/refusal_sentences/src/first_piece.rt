//! A sink that keeps what was put first.

ghost use Rattle.std.specs.Prelude.{◌≡◌, OnErr, OnOk};
ghost use Rattle.cost_base.specs.Histories.{Hands};
ghost use Rattle.cost_base.specs.Outside.{GotAll, GotPart, HasCause};
ghost use Rattle.refusal_sentences.specs.Pieces.{IsUnused, KeepsFirst, kept};

use cost_base::{PutFailed, Sink};
use std::alloc::Global;

/// The greatest length of a piece that is kept.
const LONGEST: usize = 4096;

/// A sink that answers as the one in it does, and keeps the first piece that was put, where that isn't long and memory
/// suffices.
#[derive(Drop)]
pub struct FirstPiece<K> {
    sink: K,
    first: Vec<u8>,
    begun: bool,
}

impl<K: Sink> FirstPiece<K> {
    /// A sink over this one, into which nothing was put.
    pub fn new(alloc: Global, sink: K) -> FirstPiece<K>
        ensures sink { result.sink ≡ sink }
        ensures unused { IsUnused result }
    {
        FirstPiece {
            sink,
            first: Vec::new(alloc),
            begun: false,
        }
    }

    /// The first piece that was put; nothing where there was none, or it wasn't kept.
    pub fn first(&self) -> &[u8]
        ensures { result.now ≡ kept self.now }
    {
        self.first.as_slice()
    }

    /// Keeps a piece, where it is the first.
    fn keep(&mut self, piece: &[u8])
        ensures sink { self.new.sink ≡ self.old.sink }
        ensures kept { KeepsFirst self.old self.new piece.now }
    {
        if !self.begun && piece.len() <= LONGEST {
            let _kept = self.first.extend_from_slice(piece);
        }
        self.begun = true;
    }
}

impl<K: Sink> Sink for FirstPiece<K> {
    ghost got = { λ sink. K.got sink.sink };

    ghost faults = { λ sink. K.faults sink.sink };

    ghost handed = { λ before now bytes. K.handed before.sink now.sink bytes };

    fn put(&mut self, piece: &[u8]) -> Result<(), PutFailed>
        ensures whole { OnOk result (GotAll (K.got self.old.sink) (K.got self.new.sink) piece.now) }
        ensures part { OnErr result (GotPart (K.got self.old.sink) (K.got self.new.sink)
            piece.now) }
        ensures cause { HasCause (K.faults self.old.sink) (K.faults self.new.sink) result }
        ensures handed { Hands (K.handed self.old.sink self.new.sink) piece.now result }
        ensures kept { KeepsFirst self.old self.new piece.now }
    {
        self.keep(piece);
        self.sink.put(piece)
    }

    ghost handed_none = { λ a. K.handed_none a.sink };

    ghost handed_more = { λ a b c first later. K.handed_more a.sink b.sink c.sink first later };

    ghost handed_got = { λ a b bytes handed. K.handed_got a.sink b.sink bytes handed };
}
