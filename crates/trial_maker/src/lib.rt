//! Trials, made from a number: networks of blocks with two sides, and wanted paths that take one side of each block.
#![tactic(auto)]

ghost use Rattle.std.specs.Prelude.{◌≡◌, ◌≤◌, ◌<◌, ◌^◌, IfOk};
ghost use Rattle.trial_maker.specs.TrialTexts.{made_trial};

use cost_base::{Listed, Name, OutOfMemory};
use std::alloc::Global;

mod configs;
mod pieces;
mod request;

/// A made trial: the names of its configuration files, their texts in the same order, and the text of its request file.
#[derive(Drop)]
pub struct TrialTexts {
    /// The names of the configuration files, such as `j0.conf`.
    pub names: Listed<Name>,
    /// The texts of the configuration files, in the order of their names.
    pub configs: Listed<Name>,
    /// The text of the request file.
    pub request: Name,
}

/// The trial with so many blocks, 1 to 125, whose sides are chosen by numbers from `start` on, which is below 2^31.
///
/// It has `3 * blocks + 1` routers, `8 * blocks` interfaces and `blocks + 1` requests.
///
/// # Errors
///
/// `OutOfMemory` where a growth was refused.
pub fn make_trial(alloc: Global, blocks: u32, start: u32) -> Result<TrialTexts, OutOfMemory>
    requires some { 1 ≤ blocks }
    requires most { blocks ≤ 125 }
    requires start { start < 2 ^ 31 }
    ensures { IfOk result (λ trial. trial ≡ made_trial blocks start) }
{
    let names = configs::file_names(alloc, blocks)?;
    let texts = configs::config_texts(alloc, blocks)?;
    let request = request::request_text(alloc, blocks, start)?;
    Ok(TrialTexts {
        names: Listed::from_items(names),
        configs: Listed::from_items(texts),
        request,
    })
}
