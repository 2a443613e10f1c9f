//! What a search of the box answers.
ghost use Rattle.std.specs.Prelude.{◌≡◌, ◌≤◌, [], All, IsTrue};
ghost use Rattle.design_problem.specs.Boxes.{IsBox};

use crate::advisors::advisor_of;
use crate::scene::Scene;
use crate::source::FormList;
use crate::words::Forms;
use case_scripts::{Entries, Spaced};
use cut_advisors::Advisor;
use design_problem::CostBox;
use form_search::{FormPool, FormSource, Found, search};
use fraction_table::is_box;
use std::alloc::{AllocError, Global};
use wide_fraction::Limits;

/// Whether the ranges are a box of costs in so many variables.
fn is_searchable(costs: &CostBox, variables: u32) -> bool
    ensures { IsTrue result → IsBox variables costs.now × All (λ low. 1 ≤ low) costs.now.low }
{
    let low = costs.low.as_slice();
    if low.len() != variables as usize || !is_box(costs) {
        return false;
    }
    low.iter().all(|bound| *bound >= 1)
}

/// What was found.
fn found_text(alloc: Global, found: &Found, pool: &FormPool) -> Result<String, AllocError> {
    let (word, tree) = match found {
        Found::Costs(costs) => {
            return format!(in alloc; ": costs{}", Spaced(costs.as_slice()));
        }
        Found::Refuted(tree) => ("refuted", tree),
        Found::Undecided(tree) => ("undecided", tree),
    };
    format!(in alloc;
        ": {word}{}{}",
        Entries(tree.as_slice()),
        Forms(pool.as_slice())
    )
}

/// What was found, and how many advisors are left where some were given.
fn left_text(
    alloc: Global,
    found: &Found,
    pool: &FormPool,
    given: usize,
    left: usize,
) -> Result<String, AllocError> {
    if given == 0 {
        return found_text(alloc, found, pool);
    }
    let text = found_text(alloc, found, pool)?;
    format!(in alloc; "{text}\n  advisors left {left}")
}

/// What a search with this pool and these advisors answers.
fn searched_in(
    rows: &mut FormList,
    costs: &CostBox,
    limits: &Limits,
    pool: &mut FormPool,
    advisors: &mut Vec<Box<dyn Advisor>>,
) -> Result<String, AllocError>
    requires pool { pool.old ≡ [] }
    requires ranges { IsBox rows.old.variables costs.now }
    requires lows { All (λ low. 1 ≤ low) costs.now.low }
{
    let given = advisors.len();
    match search(rows, costs, limits, pool, advisors) {
        Ok(found) => left_text(pool.alloc(), &found, pool, given, advisors.len()),
        Err(_) => Err(AllocError),
    }
}

/// What a search with these advisors answers.
fn searched(
    alloc: Global,
    rows: &mut FormList,
    costs: &CostBox,
    limits: &Limits,
    advisors: &mut Vec<Box<dyn Advisor>>,
) -> Result<String, AllocError>
    requires ranges { IsBox rows.old.variables costs.now }
    requires lows { All (λ low. 1 ≤ low) costs.now.low }
{
    let mut pool = FormPool::new(alloc);
    searched_in(rows, costs, limits, &mut pool, advisors)
}

/// What a search of the box for costs at which each row is at least 0 answers.
pub(crate) fn search_text(
    alloc: Global,
    scene: &mut Scene,
    nodes: u64,
    picks: &[i64],
) -> Result<String, AllocError> {
    let Some(limits) = Limits::new(nodes, scene.top) else {
        return String::from_str(alloc, ": no budget");
    };
    if !scene.is_searched || !is_searchable(&scene.costs, scene.rows.variables()) {
        return String::from_str(alloc, ": not searched");
    }
    let mut advisors: Vec<Box<dyn Advisor>> = Vec::new(alloc);
    for number in picks {
        advisors.push(Box::new(alloc, advisor_of(*number))?)?;
    }
    searched(alloc, &mut scene.rows, &scene.costs, &limits, &mut advisors)
}
