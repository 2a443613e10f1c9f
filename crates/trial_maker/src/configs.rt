//! The names and texts of the configuration files.
ghost use Rattle.std.specs.Prelude.{◌≡◌, ◌+◌, ◌*◌, ◌≤◌, ◌<◌, ◌∷◌, [], ◌++◌, codes, IfOk, OnOk};
ghost use Rattle.cost_base.specs.Decimal.{decimal};
ghost use Rattle.trial_maker.specs.TrialTexts.{file_name, first_end, second_end, side_config, onward, begins_block, ends_block, joint_config};
ghost use Rattle.trial_maker.specs.TrialTexts as cases;

use crate::pieces::{push_interface, push_name};
use cost_base::{Name, OutOfMemory};
use std::alloc::Global;
use text_lines::push_bytes;

/// The name of the file of a router.
fn file_name_of(alloc: Global, letter: u8, number: u32) -> Result<Name, OutOfMemory>
    ensures { IfOk result (λ name. name ≡ file_name (letter ∷ decimal number)) }
{
    let mut name = Vec::new(alloc);
    push_name(&mut name, letter, number)?;
    push_bytes(&mut name, b".conf")?;
    Name::from_bytes(alloc, &name)
}

/// The names of the files, in the order of the routers.
#[tactic(auto, using(crate::proofs::Blocks::block_steps))]
pub(crate) fn file_names(alloc: Global, blocks: u32) -> Result<Vec<Name>, OutOfMemory>
    requires { blocks ≤ 125 }
    ensures { IfOk result (λ names. names.items ≡ cases.file_names blocks) }
{
    let mut names = Vec::new(alloc);
    names.push(file_name_of(alloc, b'j', 0)?)?;
    for block in 0..blocks {
        push_block_files(alloc, block, &mut names)?;
    }
    Ok(names)
}

/// Adds the names of the files of a block's routers.
fn push_block_files(alloc: Global, block: u32, names: &mut Vec<Name>) -> Result<(), OutOfMemory>
    requires { block < 125 }
    ensures { OnOk result (names.new.items ≡ names.old.items ++ cases.block_files block) }
{
    let upper = file_name_of(alloc, b'u', block)?;
    let lower = file_name_of(alloc, b'l', block)?;
    let joint = file_name_of(alloc, b'j', block + 1)?;
    push_three(names, upper, lower, joint)
}

/// The address of the first router of a link.
fn first_end_of(link: u32) -> u32
    requires { link < 1000 }
    ensures { result ≡ first_end link }
{
    167_772_160 + 2 * link
}

/// The address of the second router of a link.
fn second_end_of(link: u32) -> u32
    requires { link < 1000 }
    ensures { result ≡ second_end link }
{
    167_772_161 + 2 * link
}

/// The number of the interface of the router before a block that leads to the block's upper side.
pub(crate) fn onward_of(block: u32) -> u32
    ensures number { result ≡ onward block }
    ensures small { result ≤ 2 }
{
    if block == 0 { 0 } else { 2 }
}

/// The configuration of the router of a side, whose first link has this number.
fn side_text(alloc: Global, link: u32) -> Result<Name, OutOfMemory>
    requires { link < 500 }
    ensures { IfOk result (λ text. text ≡ side_config link) }
{
    let mut text = Vec::new(alloc);
    push_interface(&mut text, 0, second_end_of(link))?;
    push_interface(&mut text, 1, first_end_of(link + 1))?;
    Name::from_bytes(alloc, &text)
}

/// Adds the interfaces that lead into a block.
fn push_begins(text: &mut Vec<u8>, block: u32) -> Result<(), OutOfMemory>
    requires { block < 125 }
    ensures { OnOk result (text.new.items ≡ text.old.items ++ begins_block block) }
{
    let number = onward_of(block);
    push_interface(text, number, first_end_of(4 * block))?;
    push_interface(text, number + 1, first_end_of(4 * block + 2))
}

/// Adds the interfaces on the last links of a block.
fn push_ends(text: &mut Vec<u8>, block: u32) -> Result<(), OutOfMemory>
    requires { block < 125 }
    ensures { OnOk result (text.new.items ≡ text.old.items ++ ends_block block) }
{
    push_interface(text, 0, second_end_of(4 * block + 1))?;
    push_interface(text, 1, second_end_of(4 * block + 3))
}

/// The configuration of the first router.
fn first_text(alloc: Global) -> Result<Name, OutOfMemory>
    ensures { IfOk result (λ text. text ≡ begins_block 0) }
{
    let mut text = Vec::new(alloc);
    push_begins(&mut text, 0)?;
    Name::from_bytes(alloc, &text)
}

/// The configuration of the router behind a block.
fn joint_text(alloc: Global, blocks: u32, block: u32) -> Result<Name, OutOfMemory>
    requires block { block < blocks }
    requires most { blocks ≤ 125 }
    ensures { IfOk result (λ text. text ≡ joint_config blocks block) }
{
    let mut text = Vec::new(alloc);
    push_ends(&mut text, block)?;
    if block + 1 != blocks {
        push_begins(&mut text, block + 1)?;
    }
    Name::from_bytes(alloc, &text)
}

/// The texts of the files, in the order of the routers.
#[tactic(auto, using(crate::proofs::Blocks::block_steps))]
pub(crate) fn config_texts(alloc: Global, blocks: u32) -> Result<Vec<Name>, OutOfMemory>
    requires { blocks ≤ 125 }
    ensures { IfOk result (λ texts. texts.items ≡ cases.trial_configs blocks) }
{
    let mut texts = Vec::new(alloc);
    texts.push(first_text(alloc)?)?;
    for block in 0..blocks {
        push_block_texts(alloc, blocks, block, &mut texts)?;
    }
    Ok(texts)
}

/// Adds the configurations of a block's routers.
fn push_block_texts(
    alloc: Global,
    blocks: u32,
    block: u32,
    texts: &mut Vec<Name>,
) -> Result<(), OutOfMemory>
    requires block { block < blocks }
    requires most { blocks ≤ 125 }
    ensures { OnOk result (texts.new.items ≡ texts.old.items ++ cases.block_configs blocks block) }
{
    let upper = side_text(alloc, 4 * block)?;
    let lower = side_text(alloc, 4 * block + 2)?;
    let joint = joint_text(alloc, blocks, block)?;
    push_three(texts, upper, lower, joint)
}

/// Adds what the three routers of a block have.
fn push_three(all: &mut Vec<Name>, upper: Name, lower: Name, joint: Name) -> Result<(), OutOfMemory>
    ensures { OnOk result (all.new.items ≡ all.old.items ++ upper ∷ lower ∷ joint ∷ []) }
{
    all.push(upper)?;
    all.push(lower)?;
    all.push(joint)?;
    Ok(())
}
