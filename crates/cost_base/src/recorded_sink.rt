//! A sink that records what is put into another one.

ghost use Rattle.std.specs.Prelude.{◌≡◌, [], ◌∷◌, IfOk, false};
ghost use Rattle.cost_base.specs.Outside.{GotAll};
ghost use Rattle.cost_base.specs.Records.{PutPiece, IsNotedInPieces, unless_lacking};
ghost use Rattle.cost_base.specs.RecordLaws.{pieces_none, pieces_more};

use crate::{Name, OutOfMemory, PutFailed, Sink};
use std::alloc::Global;
use std::marker::Model;

/// A piece that was put, and whether the sink took it whole.
#[derive(Drop)]
struct Piece {
    bytes: Name,
    whole: bool,
}

impl Model for Piece {
    ghost Value = { PutPiece };

    ghost view = { λ piece. record { piece = piece.bytes; whole = piece.whole } };
}

impl Piece {
    /// A piece that was put.
    fn of_call(alloc: Global, bytes: &[u8], whole: bool) -> Result<Piece, OutOfMemory>
        ensures { IfOk result (λ piece. piece ≡ record { piece = bytes.now; whole = whole }) }
    {
        let bytes = Name::from_bytes(alloc, bytes)?;
        Ok(Piece { bytes, whole })
    }
}

/// A sink that answers as the one in it does, and records each piece that was put.
///
/// The record keeps all bytes. Where it got no memory for a piece it tells nothing from then on.
#[derive(Drop)]
pub struct RecordedSink<K> {
    sink: K,
    pieces: Vec<Piece>,
    lacking: bool,
}

impl<K: Sink> RecordedSink<K> {
    /// A sink with an empty record, over this one.
    pub fn new(alloc: Global, sink: K) -> RecordedSink<K>
        ensures sink { result.sink ≡ sink }
        ensures pieces { result.pieces.items ≡ [] }
        ensures lacking { result.lacking ≡ false }
    {
        RecordedSink {
            sink,
            pieces: Vec::new(alloc),
            lacking: false,
        }
    }

    /// Whether memory for the record was wanting, so that it tells nothing.
    pub fn is_lacking(&self) -> bool
        ensures { result ≡ self.now.lacking }
    {
        self.lacking
    }

    /// Puts a piece at the end of the record, where memory suffices.
    #[tactic(auto, using(crate::proofs::RecordSteps::grew_one))]
    fn note(&mut self, piece: &[u8], whole: bool)
        ensures sink { self.new.sink ≡ self.old.sink }
        ensures noted { GotAll
            (unless_lacking self.old.lacking self.old.pieces.items)
            (unless_lacking self.new.lacking self.new.pieces.items)
            (record { piece = piece.now; whole = whole } ∷ []) }
    {
        match Piece::of_call(*self.pieces.allocator(), piece, whole) {
            Ok(noted) => {
                if self.pieces.push(noted).is_err() {
                    self.lacking = true;
                }
            }
            Err(OutOfMemory) => self.lacking = true,
        }
    }
}

impl<K: Sink> Sink for RecordedSink<K> {
    ghost got = { λ sink. K.got sink.sink };

    ghost faults = { λ sink. K.faults sink.sink };

    ghost handed = { λ before now bytes. IsNotedInPieces (K.handed before.sink now.sink)
        (unless_lacking before.lacking before.pieces.items)
        (unless_lacking now.lacking now.pieces.items) bytes };

    fn put(&mut self, piece: &[u8]) -> Result<(), PutFailed> {
        let answer = self.sink.put(piece);
        self.note(piece, answer.is_ok());
        answer
    }

    ghost handed_none = { λ a. pieces_none (K.handed a.sink a.sink)
        (unless_lacking a.lacking a.pieces.items) (K.handed_none a.sink) };

    ghost handed_more = { λ a b c first later.
        pieces_more (K.handed a.sink b.sink) (K.handed b.sink c.sink) (K.handed a.sink c.sink)
        (unless_lacking a.lacking a.pieces.items) (unless_lacking b.lacking b.pieces.items)
        (unless_lacking c.lacking c.pieces.items) first later
        (K.handed_more a.sink b.sink c.sink first later) };

    ghost handed_got = { λ a b bytes noted. K.handed_got a.sink b.sink bytes noted.given };
}
