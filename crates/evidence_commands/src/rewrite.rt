//! `rewrite`: a configuration with the costs of a text: an answer's, or what `total`, `spread` or `change` writes.
ghost use Rattle.std.specs.Prelude.{◌≡◌, ◌-◌, ◌^◌, ◌<◌, ◌≤◌, ℕ, List, All, Some, IfOk, length};
ghost use Rattle.design_problem.specs.declared.answer.CostLine.{CostLine};
ghost use Rattle.design_problem.specs.Text.{FitsCostLine};
ghost use Rattle.config_writer.specs.Rewriting.{TellsMissing, first_missing};
ghost use Rattle.input_files.specs.Readings.{Gave};
ghost use Rattle.input_files.specs.Outcomes.{longest_answer};
ghost use Rattle.input_files.specs.Stops.{IsReadAs};
ghost use Rattle.sections_reader.specs.Texts.{FitLines, SaysCosts};
ghost use Rattle.report_writer.specs.Reports.{bytes_in};
ghost use Rattle.evidence_commands.specs.Rewrites.{HasFewLines, IsRevised, MayRewrite, ReportsRevised, Revision, new_costs, revision_read, revision_with};

use crate::own_lines::last_lines;
use config_writer::{RewriteStop, rewrite};
use cost_base::{Listed, OutOfMemory, Shelf, Status};
use design_problem::CostLine;
use input_files::{ConfigText, Stop, read_answer_file, read_config_text};
use report_writer::{Rejection, Report, rejection_of};
use sections_reader::{CostsFault, read_costs};
use std::alloc::Global;

/// What a rewrite of a configuration comes to.
#[derive(Drop)]
pub(crate) enum Revised {
    /// The configuration with the new costs.
    Written(Vec<u8>),
    /// The text is off the grammar, or it gives the configuration no costs.
    Rejected(Rejection),
}

/// What a configuration that wasn't rewritten comes to.
fn unwritten(stop: RewriteStop) -> Result<Revised, OutOfMemory>
    ensures { (r : Revision) (costs : List CostLine) → SaysCosts r.bytes (Some costs) →
        TellsMissing (first_missing (new_costs r.config costs) r.config.bytes) stop →
        IfOk result (IsRevised r) }
{
    match stop {
        RewriteStop::NoInterface(_) => Ok(Revised::Rejected(Rejection::at(
            0,
            CostsFault::NoInterface,
        ))),
        RewriteStop::OutOfMemory => Err(OutOfMemory),
    }
}

/// What a rewrite with the cost lines of a text comes to.
fn revised_by_lines(
    alloc: Global,
    config: &ConfigText<'_>,
    lines: &[CostLine],
) -> Result<Revised, OutOfMemory>
    requires few { length lines.now < 2 ^ 32 - 1 }
    requires fit { All FitsCostLine lines.now }
    ensures { (bytes : List ℕ) → SaysCosts bytes (Some lines.now) →
        IfOk result (IsRevised (record { config = config.now; bytes = bytes })) }
{
    let own = last_lines(alloc, &config.said().name, lines)?;
    match rewrite(alloc, config.name, &config.bytes, &own) {
        Ok(text) => Ok(Revised::Written(text)),
        Err(stop) => unwritten(stop),
    }
}

/// What a rewrite with what a text says of costs comes to.
fn revised_by_costs(
    alloc: Global,
    config: &ConfigText<'_>,
    costs: Option<Listed<CostLine>>,
) -> Result<Revised, OutOfMemory>
    requires few { HasFewLines costs }
    requires fit { FitLines costs }
    ensures { (bytes : List ℕ) → SaysCosts bytes costs → IfOk result
        (IsRevised (record { config = config.now; bytes = bytes })) }
{
    match costs {
        Some(lines) => revised_by_lines(alloc, config, lines.as_slice()),
        None => Ok(Revised::Rejected(Rejection::at(0, CostsFault::NoCosts))),
    }
}

/// What a rewrite with a text comes to.
fn revised_by_text(
    alloc: Global,
    config: &ConfigText<'_>,
    bytes: &[u8],
) -> Result<Revised, OutOfMemory>
    requires { length bytes.now ≤ longest_answer }
    ensures { IfOk result (IsRevised (record { config = config.now; bytes = bytes.now })) }
{
    match read_costs(alloc, bytes) {
        Ok(costs) => revised_by_costs(alloc, config, costs),
        Err(stop) => Ok(Revised::Rejected(rejection_of(stop)?)),
    }
}

/// What a rewrite of a configuration that was read comes to, with a file of costs.
fn rewrite_by_file<'a, S: Shelf>(
    alloc: Global,
    config: &ConfigText<'_>,
    answer: &'a str,
    shelf: &mut S,
) -> Result<Revised, Stop<'a>>
    ensures { Gave (S.gave shelf.old shelf.new) (λ came. IsReadAs
        (revision_with config.now answer.now) came (λ revised revision. IsRevised revision revised)
        result) }
{
    let bytes = read_answer_file(alloc, shelf, answer)?;
    Ok(revised_by_text(alloc, config, &bytes)?)
}

/// What a rewrite of a configuration with a file of costs comes to.
fn rewrite_files<'a, S: Shelf>(
    alloc: Global,
    answer: &'a str,
    config: &'a str,
    shelf: &mut S,
) -> Result<Revised, Stop<'a>>
    ensures { Gave (S.gave shelf.old shelf.new) (λ came. IsReadAs
        (revision_read config.now answer.now) came (λ revised revision. IsRevised revision revised)
        result) }
{
    let text = read_config_text(alloc, shelf, config)?;
    rewrite_by_file(alloc, &text, answer, shelf)
}

/// The report of what a rewrite came to.
fn report_of_revised(alloc: Global, revised: Revised) -> Result<Report, OutOfMemory>
    ensures { IfOk result (ReportsRevised revised) }
{
    match revised {
        Revised::Written(text) => Ok(Report::made(Status::Done, text)),
        Revised::Rejected(rejection) => Report::rejected(alloc, rejection),
    }
}

/// The report of a rewrite of a configuration with the costs of a file, which is an answer's, or holds what `total`,
/// `spread` or `change` wrote: the configuration's new text, or why it has none.
///
/// # Errors
///
/// `Stop`: a file failed or is too long, or the configuration has a fault; want of memory.
pub fn rewrite_report<'a, S: Shelf>(
    alloc: Global,
    answer: &'a str,
    config: &'a str,
    shelf: &mut S,
) -> Result<Report, Stop<'a>>
    ensures { Gave (S.gave shelf.old shelf.new) (λ came. IsReadAs
        (revision_read config.now answer.now) came (λ report revision.
        MayRewrite revision report.status (bytes_in report.text)) result) }
{
    let revised = rewrite_files(alloc, answer, config, shelf)?;
    Ok(report_of_revised(alloc, revised)?)
}
