//! The output of the machine.

ghost use Rattle.std.specs.Prelude.{◌≡◌, ℕ, ◌<◌, ◌≤◌, ◌+◌, [], length, take, IfOk, OnOk, OnErr, Option, None};
ghost use Rattle.std.specs.Io.KnownBytes.{Appends};
ghost use Rattle.cost_base.specs.Outside.{HasCause};
ghost use Rattle.cost_base.specs.Histories.{Hands};
ghost use Rattle.std.proofs.KnownBytes.{Appends-nil, Appends-trans};

use crate::{PutFailed, Sink};
use std::io::{ErrorKind, Write};

/// A sink over a writer that keeps nothing back, such as standard output. It tells nothing of content.
///
/// Its count of faults is how many of its calls failed, and stands still at `u64::MAX`.
#[derive(Drop)]
pub struct OutSink<W> {
    output: W,
    faults: u64,
}

impl<W: Write> OutSink<W> {
    /// A sink that writes to `output`, with a count of faults of 0.
    pub fn new(output: W) -> OutSink<W>
        ensures output { result.output ≡ output }
        ensures faults { ⟦<OutSink<W> as Sink>⟧.faults result ≡ 0 }
    {
        OutSink { output, faults: 0 }
    }
}

impl<W: Write> Sink for OutSink<W> {
    ghost got = { λ sink. None };

    ghost faults = { λ sink. sink.faults };

    ghost handed = { λ before now bytes.
        Appends (W.contents before.output) (W.contents now.output) bytes };

    fn put(&mut self, piece: &[u8]) -> Result<(), PutFailed>
        ensures cause { HasCause self.old.faults self.new.faults result }
        ensures written { OnOk result (Appends (W.contents self.old.output)
            (W.contents self.new.output) piece.now) }
        ensures cut { OnErr result ((n : ℕ) × Appends (W.contents self.old.output)
            (W.contents self.new.output) (take n piece.now)) }
        ensures counted { OnOk result (self.new.faults ≡ self.old.faults) }
    {
        let result = write_whole(&mut self.output, piece);
        if result.is_err() {
            self.faults = self.faults.saturating_add(1);
        }
        result
    }

    ghost handed_none = { λ a. Appends-nil (W.contents a.output) };

    ghost handed_more = { λ a b c first later.
        Appends-trans (W.contents a.output) (W.contents b.output) (W.contents c.output)
        first later };

    ghost handed_got = { λ a b bytes handed. tt };
}

/// Writes the whole piece, however many writes it takes.
fn write_whole<W: Write>(output: &mut W, piece: &[u8]) -> Result<(), PutFailed>
    ensures whole { OnOk result (Appends (W.contents output.old) (W.contents output.new)
        piece.now) }
    ensures part { OnErr result ((n : ℕ) × Appends (W.contents output.old) (W.contents output.new)
        (take n piece.now)) }
{
    let mut written = 0;
    for _ in 0..u64::MAX {
        if written == piece.len() {
            return Ok(());
        }
        written += write_some(output, &piece[written..])?;
    }
    Err(PutFailed)
}

/// Writes some bytes of a piece, and tells how many: 0 where the write was interrupted. A write that takes
/// nothing has failed.
fn write_some<W: Write>(output: &mut W, piece: &[u8]) -> Result<usize, PutFailed>
    ensures within { IfOk result (λ count. count ≤ length piece.now) }
    ensures some { IfOk result (λ count. Appends (W.contents output.old) (W.contents output.new)
        (take count piece.now)) }
    ensures none { OnErr result (Appends (W.contents output.old) (W.contents output.new) []) }
{
    match output.write(piece) {
        Ok(0) => Err(PutFailed),
        Ok(count) => Ok(count),
        Err(error) if error.kind() == ErrorKind::Interrupted => Ok(0),
        Err(_) => Err(PutFailed),
    }
}
