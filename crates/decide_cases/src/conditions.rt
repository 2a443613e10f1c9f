//! What a problem has to keep, and what calls require of it.
ghost use Rattle.std.specs.Prelude.{◌≡◌, ℕ, ◌<◌, ◌≤◌, length, slice_index, All, Any, IsTrue};
ghost use Rattle.std.specs.List.Sorted.{IsStrictlyIncreasing};
ghost use Rattle.cost_base.specs.Words.{IsWord, ends_a_word};
ghost use Rattle.area_graph.specs.Area.{Area};
ghost use Rattle.area_graph.specs.Costs.{IsPriced};
ghost use Rattle.area_graph.specs.Paths.{IsPathOf};
ghost use Rattle.design_problem.specs.Problems.{IsProblem, MayBeExcluded, request_ends};

use area_graph::{Graph, Price, is_path_of};
use cost_base::Listed;
use design_problem::{Request, VarName};

/// Whether numbers rise strictly and are below a count.
pub(crate) fn are_members(numbers: &[u32], count: usize) -> bool
    ensures { IsTrue result → IsStrictlyIncreasing numbers.now × All (λ n. n < count) numbers.now }
{
    rise(numbers) && numbers.iter().all(|number| (*number as usize) < count)
}

/// Whether numbers rise strictly.
fn rise(numbers: &[u32]) -> bool
    ensures { IsTrue result → IsStrictlyIncreasing numbers.now }
{
    for place in 1..numbers.len() {
        if numbers[place] <= numbers[place - 1] {
            return false;
        }
    }
    true
}

/// Whether a byte ends a word.
fn ends_a_word(byte: u8) -> bool
    ensures { result ≡ ends_a_word byte }
{
    byte == 32 || byte == 9 || byte == 13 || byte == 10
}

/// Whether the bytes are one word of at most 4,096 bytes.
fn is_word(bytes: &[u8]) -> bool
    ensures { IsTrue result → IsWord bytes.now }
{
    !bytes.is_empty() && bytes.len() <= 4096 && bytes.iter().all(|byte| !ends_a_word(*byte))
}

/// Whether the names of a free interface are words.
fn has_words(name: &VarName) -> bool
    ensures { IsTrue result → IsWord name.now.router × IsWord name.now.interface }
{
    is_word(name.router.as_bytes()) && is_word(name.interface.as_bytes())
}

/// Whether each free interface is of a variable below the count.
fn are_known(vars: &[VarName], count: usize) -> bool
    ensures { IsTrue result → All (λ name. name.var < count) vars.now }
{
    vars.iter().all(|name| (name.var as usize) < count)
}

/// Whether some free interface has this variable.
fn is_named(vars: &[VarName], var: usize) -> bool
    ensures { IsTrue result → Any (λ name. name.var ≡ var) vars.now }
{
    vars.iter().any(|name| name.var as usize == var)
}

/// Whether each variable below the count has a free interface.
fn are_named(vars: &[VarName], count: usize) -> bool
    ensures { IsTrue result → (k : ℕ) → k < count → Any (λ name. name.var ≡ k) vars.now }
{
    for var in 0..count {
        if !is_named(vars, var) {
            return false;
        }
    }
    true
}

/// Whether the names of each free interface are words.
fn have_words(vars: &[VarName]) -> bool
    ensures { IsTrue result → All (λ name. IsWord name.router × IsWord name.interface) vars.now }
{
    vars.iter().all(|name| has_words(name))
}

/// Whether each lower bound is from 1 to the upper bound.
fn are_ranges(low: &[u16], high: &[u16]) -> bool
    requires { length low.now ≡ length high.now }
    ensures { IsTrue result → (k : ℕ) → k < length low.now → (1 ≤ slice_index low.now k) ×
        (slice_index low.now k ≤ slice_index high.now k) }
{
    for place in 0..low.len() {
        if low[place] < 1 || high[place] < low[place] {
            return false;
        }
    }
    true
}

/// Whether a price is none of a variable past the count.
fn is_priced(price: Price, count: usize) -> bool
    ensures { IsTrue result → IsPriced count price }
{
    match price {
        Price::Var(number) => (number as usize) < count,
        Price::Fixed(_) | Price::Zero => true,
    }
}

/// Whether a wanted path is a simple path of its request, which excludes edges of the graph.
fn is_request(graph: &Graph, request: &Request) -> bool
    ensures { IsTrue result → IsPathOf graph.now (request_ends request.now) request.now.path.edges ×
        MayBeExcluded graph.now request.now.excluded }
{
    let excluded = request.excluded.as_slice();
    is_path_of(graph, &request.path, request.end, excluded)
        && are_members(excluded, graph.edges().len())
}

/// Whether each edge has a price of a variable below the count, or none of a variable.
fn are_priced(graph: &Graph, count: usize) -> bool
    ensures { IsTrue result → All (λ edge. IsPriced count edge.price) graph.now.edges }
{
    graph
        .edges()
        .iter()
        .all(|edge| is_priced(edge.price, count))
}

/// Whether there are at most 10,000 wanted paths, each one of its request.
fn are_requests(graph: &Graph, requests: &[Request]) -> bool
    ensures few { IsTrue result → length requests.now ≤ 10000 }
    ensures each { IsTrue result → All (λ r. IsPathOf graph.now (request_ends r) r.path.edges ×
        MayBeExcluded graph.now r.excluded) requests.now }
{
    requests.len() <= 10_000 && requests.iter().all(|request| is_request(graph, request))
}

/// Whether there are so many lower bounds as upper ones, at most 1,000, each from 1 to its upper bound.
fn are_bounds(low: &[u16], high: &[u16]) -> bool
    ensures count { IsTrue result → length low.now ≡ length high.now }
    ensures few { IsTrue result → length low.now ≤ 1000 }
    ensures ordered { IsTrue result → (k : ℕ) → k < length low.now →
        (1 ≤ slice_index low.now k) × (slice_index low.now k ≤ slice_index high.now k) }
{
    if low.len() != high.len() || low.len() > 1000 {
        return false;
    }
    are_ranges(low, high)
}

/// Whether these free interfaces are those of so many variables.
fn are_free(vars: &[VarName], count: usize) -> bool
    ensures named { IsTrue result → All (λ name. name.var < count) vars.now }
    ensures each { IsTrue result → (k : ℕ) → k < count → Any (λ name. name.var ≡ k) vars.now }
    ensures words { IsTrue result → All (λ name. IsWord name.router × IsWord name.interface)
        vars.now }
{
    are_known(vars, count) && are_named(vars, count) && have_words(vars)
}

/// Whether these are the parts of a problem.
fn are_parts(
    graph: &Graph,
    vars: &[VarName],
    low: &[u16],
    high: &[u16],
    requests: &[Request],
) -> bool
    ensures { IsTrue result →
        IsProblem (record {
          graph = graph.now;
          vars = vars.now;
          low = low.now;
          high = high.now;
          requests = requests.now;
        }) }
{
    if !are_bounds(low, high) {
        return false;
    }
    if !are_free(vars, low.len()) {
        return false;
    }
    if !are_priced(graph, low.len()) {
        return false;
    }
    are_requests(graph, requests)
}

/// Whether these are the parts of a problem.
pub(crate) fn is_problem(
    graph: &Graph,
    vars: &Listed<VarName>,
    low: &Listed<u16>,
    high: &Listed<u16>,
    requests: &Listed<Request>,
) -> bool
    ensures { IsTrue result →
        IsProblem (record {
          graph = graph.now;
          vars = vars.now;
          low = low.now;
          high = high.now;
          requests = requests.now;
        }) }
{
    are_parts(
        graph,
        vars.as_slice(),
        low.as_slice(),
        high.as_slice(),
        requests.as_slice(),
    )
}

/// Whether each lower bound is at most a cap.
pub(crate) fn are_below(low: &[u16], cap: u16) -> bool
    ensures { IsTrue result → All (λ bound. bound ≤ cap) low.now }
{
    low.iter().all(|bound| *bound <= cap)
}
