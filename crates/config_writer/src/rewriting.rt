//! Rewriting a whole configuration.
ghost use Rattle.std.specs.Prelude.{◌≡◌, ◌↔◌, ◌-◌, ◌^◌, ◌<◌, ◌≤◌, [], None, not, position, length, All, IfOk, IfErr, IsNone, IfSome};
ghost use Rattle.std.specs.List.{list_any};
ghost use Rattle.cost_base.specs.Lists.{same_bytes};
ghost use Rattle.text_lines.specs.Lines as text;
ghost use Rattle.text_lines.specs.Reading.{IsLineRead};
ghost use Rattle.config_reader.specs.Configs.{config_of};
ghost use Rattle.config_reader.specs.FaultList.{config_fault};
ghost use Rattle.config_writer.specs.Rewriting.{AreNewCosts, costs_of, rewritten, headed, first_missing, TellsMissing, ReadsBack};

use crate::RewriteStop;
use crate::new_costs::NewCosts;
use crate::writer::Writer;
use cost_base::OutOfMemory;
use design_problem::CostLine;
use std::alloc::Global;
use text_lines::{Line, Lines, Names};

/// The configuration of a router with the costs of `lines`: for each named interface every `ip ospf cost` line in its
/// blocks is taken out, and the line ` ip ospf cost N` stands right after its first head. All other bytes stay in their
/// order. A first head that ends the file without an LF gets one.
///
/// `read_config` takes the file, whose router every line names; no interface comes twice.
///
/// # Errors
///
/// `NoInterface` with the first line whose interface has no head in the file. `OutOfMemory` where a list got no memory.
pub fn rewrite(
    alloc: Global,
    file_name: &str,
    bytes: &[u8],
    lines: &[CostLine],
) -> Result<Vec<u8>, RewriteStop>
    // The file is a configuration, and the lines have costs of interfaces of its router.
    requires few { length bytes.now < 2 ^ 32 - 1 }
    requires numbered { length lines.now < 2 ^ 32 }
    requires accepted { config_fault file_name.now bytes.now ≡ None }
    requires lines { AreNewCosts (config_of file_name.now bytes.now).name lines.now }

    // The file has the new costs, and says what it said else.
    ensures written { IfOk result (λ out. out.items ≡ rewritten (costs_of lines.now) bytes.now) }
    ensures headed { IfOk result (λ out. first_missing (costs_of lines.now) bytes.now ≡ None) }
    ensures read_back { IfOk result (λ out. ReadsBack file_name.now (costs_of lines.now) bytes.now
        out.items) }

    // Only an interface without a head is refused: the first one.
    ensures missing { IfErr result (TellsMissing (first_missing (costs_of lines.now) bytes.now)) }
{
    rewrite_lines(alloc, bytes, lines)
}

/// The text with the new costs, whether or not it is a configuration that is read.
pub(crate) fn rewrite_lines(
    alloc: Global,
    bytes: &[u8],
    lines: &[CostLine],
) -> Result<Vec<u8>, RewriteStop>
    // Lines of the file and costs can be counted.
    requires few { length bytes.now < 2 ^ 32 - 1 }
    requires numbered { length lines.now < 2 ^ 32 }

    // The file has the new costs.
    ensures written { IfOk result (λ out. out.items ≡ rewritten (costs_of lines.now) bytes.now) }
    ensures headed { IfOk result (λ out. first_missing (costs_of lines.now) bytes.now ≡ None) }
    ensures within { IfOk result (λ out. All (λ line. line.cost ≤ 65535) lines.now) }

    // Only an interface without a head is refused: the first one.
    ensures missing { IfErr result (TellsMissing (first_missing (costs_of lines.now) bytes.now)) }
{
    let writer = write_lines(alloc, bytes, lines)?;
    match first_without_head(&writer.heads, lines) {
        Some(line) => Err(RewriteStop::NoInterface(line as u32)),
        None => Ok(writer.out),
    }
}

/// Goes over the lines of a configuration.
fn write_lines<'a>(
    alloc: Global,
    bytes: &'a [u8],
    lines: &'a [CostLine],
) -> Result<Writer<'a>, OutOfMemory>
    requires { length bytes.now < 2 ^ 32 - 1 }
    ensures out { IfOk result (λ writer. writer.out.items ≡ rewritten (costs_of lines.now)
        bytes.now) }
    ensures heads { IfOk result (λ writer. writer.heads ≡ headed (text.lines bytes.now)) }
    ensures within { IfOk result (λ writer. All (λ line. line.cost ≤ 65535) lines.now) }
{
    let costs = NewCosts::of_lines(alloc, lines)?;
    let mut writer = Writer::new(alloc, costs);
    let mut left = Lines::new(bytes, bytes.len());
    while let Some(line) = next_line(&mut left) {
        writer.write_line(alloc, line.text, left.ended())?;
    }
    Ok(writer)
}

/// The next line of a text; none is longer than the text.
fn next_line<'a>(left: &mut Lines<'a>) -> Option<Line<'a>>
    requires { length left.old.bytes ≤ left.old.longest }
    ensures end { IsNone result ↔ (left.old.bytes ≡ []) }
    ensures line { IfSome result (IsLineRead left.old left.new) }
{
    match left.next_line()? {
        Ok(line) => Some(line),
        Err(_) => None,
    }
}

/// The place of the first line whose interface has no head.
fn first_without_head<'a>(heads: &Names<'a>, lines: &'a [CostLine]) -> Option<usize>
    ensures { result ≡ position (λ line. not (list_any (same_bytes line.interface) heads.now))
        lines.now }
{
    lines
        .iter()
        .position(|line| heads.place(line.interface.as_bytes()).is_none())
}
