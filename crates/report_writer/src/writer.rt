//! The one writer of reports.
ghost use Rattle.std.specs.Prelude.{◌≡◌, ◌<◌, ◌≤◌, ◌+◌, ◌*◌, ◌==◌, length, slice_index, IfSome};
ghost use Rattle.std.specs.List.{position};
ghost use Rattle.report_writer.specs.Cutting.{IsPutInPieces, PutsPieces, line_size, lsa_size, piece_size, size_of_piece};
ghost use Rattle.report_writer.specs.Reports.{IsHanded, IsWritten, bytes_in};

use crate::report::{Pieces, Report};
use cost_base::{OutOfMemory, PutFailed, Sink, Status};

/// The length of an LSA's header in bytes (RFC 2328, A.4.1).
const LSA_HEADER: usize = 20;

/// The place of the first LF of a text.
fn first_line_feed(text: &[u8]) -> Option<usize>
    ensures place { result ≡ position (λ byte. byte == 10) text.now }
    ensures within { IfSome result (λ place. place < length text.now) }
{
    text.iter().position(|byte| *byte == b'\n')
}

/// The length of a text's first line with its LF, or of the whole text where it has none.
fn first_line_length(text: &[u8]) -> usize
    requires { 0 < length text.now }
    ensures some { 0 < result }
    ensures within { result ≤ length text.now }
    ensures size { result ≡ line_size text.now }
{
    match first_line_feed(text) {
        Some(place) => place + 1,
        None => text.len(),
    }
}

/// The length that the header of the first of some LSAs tells (RFC 2328, A.4.1).
fn told_length(bytes: &[u8]) -> usize
    requires { 20 ≤ length bytes.now }
    ensures { result ≡ 256 * slice_index bytes.now 18 + slice_index bytes.now 19 }
{
    usize::from(u16::from_be_bytes([bytes[18], bytes[19]]))
}

/// The length of the first of some LSAs by its header, or of all the bytes where they are fewer.
fn first_lsa_length(bytes: &[u8]) -> usize
    requires { 0 < length bytes.now }
    ensures some { 0 < result }
    ensures within { result ≤ length bytes.now }
    ensures size { result ≡ lsa_size bytes.now }
{
    if bytes.len() < LSA_HEADER {
        return bytes.len();
    }
    told_length(bytes).clamp(LSA_HEADER, bytes.len())
}

/// The length of the first piece of a text.
fn first_piece_length(pieces: Pieces, text: &[u8]) -> usize
    requires { 0 < length text.now }
    ensures some { 0 < result }
    ensures within { result ≤ length text.now }
    ensures size { result ≡ piece_size pieces text.now }
{
    match pieces {
        Pieces::Lines => first_line_length(text),
        Pieces::Lsas => first_lsa_length(text),
    }
}

/// Puts a text piece by piece. Of lines each has its LF, and a last one without an LF is put as it is.
fn put_text<K: Sink>(pieces: Pieces, text: &[u8], out: &mut K) -> Result<(), PutFailed>
    ensures handed { IsHanded (K.handed out.old out.new) (K.faults out.old) (K.faults out.new)
        text.now result }
    ensures pieces { IsPutInPieces K.handed out.old out.new (piece_size pieces) text.now result }
{
    let mut left = text;
    while !left.is_empty() {
        let (piece, rest) = left.split_at(first_piece_length(pieces, left));
        out.put(piece)?;
        left = rest;
    }
    Ok(())
}

/// Writes a report, and tells how the run ends by it. Each line is put by itself, and each LSA.
pub fn write_report<K: Sink>(report: &Report, out: &mut K) -> Status
    ensures written { IsWritten report.now.status (bytes_in report.now.text)
        (K.handed out.old out.new) (K.faults out.old) (K.faults out.new) result }
    ensures pieces { PutsPieces K.handed out.old out.new (size_of_piece report.now.text)
        (bytes_in report.now.text) result }
{
    match put_text(report.text.pieces(), report.text.as_bytes(), out) {
        Ok(()) => report.status,
        Err(PutFailed) => Status::WriteFault,
    }
}
