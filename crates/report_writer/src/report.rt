//! What a command reports: a status, and the text that goes with it.
ghost use Rattle.std.specs.Prelude.{◌≡◌, IfOk};
ghost use Rattle.cost_base.specs.declared.Status.TheVariants.{EvidenceRefused};
ghost use Rattle.report_writer.specs.Cutting.{piece_size, size_of_piece};
ghost use Rattle.report_writer.specs.Reports.{Reports, ReportsAny, ReportsStop, bytes_in};
ghost use Rattle.report_writer.specs.Texts.{rejected_line};

use crate::lines::{read_fault_line_of, refused_line_of};
use crate::rejection::{Rejection, rejected_line_of};
use cost_base::{OutOfMemory, Status};
use input_files::Stop;
use std::alloc::Global;

/// A text that was made, or one that is always the same.
#[derive(Drop)]
pub enum Text {
    /// A text that was made.
    Made(Vec<u8>),
    /// A text that takes no memory.
    Fixed(&'static str),
    /// Link state advertisements one after another, which were made (RFC 2328, A.4).
    Lsas(Vec<u8>),
}

/// The pieces of a text, each of which is put by itself.
#[derive(Clone, Copy)]
pub(crate) enum Pieces {
    /// Lines, each with its LF.
    Lines,
    /// Link state advertisements.
    Lsas,
}

impl Text {
    /// The bytes of the text.
    pub fn as_bytes(&self) -> &[u8]
        ensures { result.now ≡ bytes_in self.now }
    {
        match self {
            Text::Made(bytes) => bytes.as_slice(),
            Text::Fixed(text) => text.as_bytes(),
            Text::Lsas(bytes) => bytes.as_slice(),
        }
    }

    /// What pieces the text is put in.
    pub(crate) fn pieces(&self) -> Pieces
        ensures { piece_size result ≡ size_of_piece self.now }
    {
        match self {
            Text::Made(_) => Pieces::Lines,
            Text::Fixed(_) => Pieces::Lines,
            Text::Lsas(_) => Pieces::Lsas,
        }
    }
}

/// The status that a run ends with where its whole text is written, and the text.
#[derive(Drop)]
pub struct Report {
    /// The status where the whole text is written.
    pub status: Status,
    /// What is to be written.
    pub text: Text,
}

impl Report {
    /// The report of a text that was made.
    pub fn made(status: Status, text: Vec<u8>) -> Report
        ensures { Reports status text.items result }
    {
        Report {
            status,
            text: Text::Made(text),
        }
    }

    /// The report of link state advertisements that were made.
    pub fn lsas(status: Status, bytes: Vec<u8>) -> Report
        ensures { Reports status bytes.items result }
    {
        Report {
            status,
            text: Text::Lsas(bytes),
        }
    }

    /// The report of a file with costs or evidence that is rejected.
    ///
    /// # Errors
    ///
    /// `OutOfMemory`.
    pub fn rejected(alloc: Global, rejection: Rejection) -> Result<Report, OutOfMemory>
        ensures { IfOk result (Reports EvidenceRefused (rejected_line rejection)) }
    {
        let text = rejected_line_of(alloc, rejection)?;
        Ok(Report::made(Status::EvidenceRefused, text))
    }
}

/// The report of what stopped a command before its own work.
fn report_of_stop(alloc: Global, stop: Stop<'_>) -> Result<Report, OutOfMemory>
    ensures { ReportsStop stop.entry result }
{
    match stop {
        Stop::Refused { number, file, line } => {
            let text = refused_line_of(alloc, number, file, line)?;
            Ok(Report::made(Status::InputRefused, text))
        }
        Stop::ReadFault { file } => {
            let text = read_fault_line_of(alloc, file)?;
            Ok(Report::made(Status::ReadFault, text))
        }
        Stop::OutOfMemory => Err(OutOfMemory),
    }
}

/// A command's report, or that of what stopped it.
///
/// # Errors
///
/// `OutOfMemory`.
pub fn report_of(alloc: Global, made: Result<Report, Stop<'_>>) -> Result<Report, OutOfMemory>
    ensures { ReportsAny made.entry result }
{
    match made {
        Ok(report) => Ok(report),
        Err(stop) => report_of_stop(alloc, stop),
    }
}
