//! The text of the request file.
ghost use Rattle.std.specs.Prelude.{◌≡◌, ◌^◌, ◌≤◌, ◌<◌, ◌∷◌, ◌++◌, codes, IfOk, OnOk};
ghost use Rattle.cost_base.specs.Decimal.{decimal};
ghost use Rattle.trial_maker.specs.TrialTexts.{is_even_high, hop, hops_over, path_end, path_over};
ghost use Rattle.trial_maker.specs.TrialTexts as cases;

use crate::configs::onward_of;
use crate::pieces::push_name;
use cost_base::{Name, OutOfMemory};
use line_builder::LineBuilder;
use std::alloc::Global;
use text_lines::push_bytes;

/// The next number of the generator that chooses the sides.
fn next_number(number: u64) -> u64
    requires { number < 2 ^ 31 }
    ensures next { result ≡ cases.next_number number }
    ensures small { result < 2 ^ 31 }
{
    (number * 1_103_515_245 + 12_345) % 2_147_483_648
}

/// Adds a hop to the line of a path: a router, and the number of its interface.
fn push_hop(
    alloc: Global,
    line: &mut LineBuilder,
    letter: u8,
    number: u32,
    interface: u32,
) -> Result<(), OutOfMemory>
    ensures { OnOk result (line.new ≡ line.old ++ codes " " ++ hop (letter ∷ decimal number)
        interface) }
{
    let mut hop = Vec::new(alloc);
    push_name(&mut hop, letter, number)?;
    push_bytes(&mut hop, b":")?;
    push_name(&mut hop, b'e', interface)?;
    line.word(&hop)
}

/// Adds the two hops of a block over a side.
fn push_hops(
    alloc: Global,
    line: &mut LineBuilder,
    is_upper: bool,
    block: u32,
) -> Result<(), OutOfMemory>
    ensures { OnOk result (line.new ≡ line.old ++ hops_over is_upper block) }
{
    let upper = onward_of(block);
    let onward = if is_upper { upper } else { upper + 1 };
    let side = if is_upper { b'u' } else { b'l' };
    push_hop(alloc, line, b'j', block, onward)?;
    push_hop(alloc, line, side, block, 1)
}

/// Ends the line of a path at the router before a block, and adds it to a text.
fn end_path(
    alloc: Global,
    text: &mut Vec<u8>,
    mut line: LineBuilder,
    block: u32,
) -> Result<(), OutOfMemory>
    ensures { OnOk result (text.new.items ≡ text.old.items ++ line ++ path_end block) }
{
    let mut router = Vec::new(alloc);
    push_name(&mut router, b'j', block)?;
    line.word(&router)?;
    line.end_in(text)
}

/// Adds the line of the wanted path over a block.
fn push_path(
    alloc: Global,
    text: &mut Vec<u8>,
    is_upper: bool,
    block: u32,
) -> Result<(), OutOfMemory>
    requires { block < 125 }
    ensures { OnOk result (text.new.items ≡ text.old.items ++ path_over is_upper block) }
{
    let mut line = LineBuilder::new(alloc, b"path")?;
    push_hops(alloc, &mut line, is_upper, block)?;
    end_path(alloc, text, line, block + 1)
}

/// The text of the request file.
#[tactic(auto, using(crate::proofs::Blocks::block_steps))]
pub(crate) fn request_text(alloc: Global, blocks: u32, start: u32) -> Result<Name, OutOfMemory>
    requires most { blocks ≤ 125 }
    requires start { start < 2 ^ 31 }
    ensures { IfOk result (λ text. text ≡ cases.request start blocks) }
{
    let mut text = Vec::new(alloc);
    push_bytes(&mut text, b"ospfcost request 1\narea 0\nfree all 1 65535\n")?;
    let mut whole = LineBuilder::new(alloc, b"path")?;
    let mut number = u64::from(start);
    for block in 0..blocks {
        number = next_number(number);
        let is_upper = number / 65_536 % 2 == 0;
        push_path(alloc, &mut text, is_upper, block)?;
        push_hops(alloc, &mut whole, is_upper, block)?;
    }
    end_path(alloc, &mut text, whole, blocks)?;
    Name::from_bytes(alloc, &text)
}
