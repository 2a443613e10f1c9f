//! The box of a set searched.
ghost use Rattle.std.specs.Prelude.{IfOk};
ghost use Rattle.cost_branching.specs.Pools.{IsRowPool, MoreRows};
ghost use Rattle.least_change.specs.Present.{AreKeepable};
ghost use Rattle.least_change.specs.SoFar.{IsFoundInBox};

use crate::boxes::kept_box;
use crate::question::Question;
use cost_base::OutOfMemory;
use cost_branching::{Found, Pool, decide_within};
use std::alloc::Global;

/// Searches the box of a set. No advisor is asked: the first candidate for a split is taken.
pub(crate) fn search_box(
    alloc: Global,
    question: &Question,
    pool: &mut Pool,
    kept: &[u32],
) -> Result<Found, OutOfMemory>
    requires keepable { AreKeepable question.now.present kept.now }
    requires pool { IsRowPool question.now.problem pool.old }
    ensures found { IfOk result (IsFoundInBox question.now pool.new.forms kept.now) }
    ensures pool { IsRowPool question.now.problem pool.new }
    ensures more { MoreRows pool.old pool.new }
{
    question.keeps_conditions();
    let costs = kept_box(alloc, question, kept)?;
    let mut advisors = Vec::new(alloc);
    decide_within(
        question.problem(),
        &costs,
        question.limits(),
        pool,
        &mut advisors,
    )
}
