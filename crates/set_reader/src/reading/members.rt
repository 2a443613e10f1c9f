//! The members of a set.
ghost use Rattle.std.specs.Prelude.{◌≡◌, ◌↔◌, ◌^◌, ◌<◌, ℕ, List, ◌++◌, ◌∷◌, ◌||◌, [], not, true, false, length, map, All, IsTrue};
ghost use Rattle.std.specs.Prelude.{IfOk, IfErr, IfSome, MatchOption, slice_index_or};
ghost use Rattle.std.specs.List.{list_any};
ghost use Rattle.cost_base.specs.Lists.{same_bytes};
ghost use Rattle.area_graph.specs.Distances.{AreEdgeMarks};
ghost use Rattle.design_problem.specs.Problems.{request_at};
ghost use Rattle.text_lines.specs.LineFaults.{TellsFault, fault_in_line};
ghost use Rattle.set_reader.specs.Reading.{same_ends, has_other_ends, excludes_edges, is_wrong_set, wrong_if, IsInOrder};
ghost use Rattle.set_reader.specs.ReadingSteps.{is_out_of_place};

use crate::SetFault;
use cost_base::{OutOfMemory, Refusal, mark_all, push_last};
use design_problem::Request;
use indexmap::IndexSet;
use std::alloc::Global;

/// Whether the paths of two requests lead between the same ends.
fn same_ends(first: &Request, other: &Request) -> bool
    ensures { result ≡ same_ends first.now other.now }
{
    first.path.start == other.path.start && first.end == other.end
}

/// Whether a request excludes an edge.
fn excludes_edges(request: &Request) -> bool
    ensures { result ≡ excludes_edges request.now }
{
    !request.excluded.as_slice().is_empty()
}

/// Whether a request's path has other ends than that of the first member.
fn has_other_ends(requests: &[Request], members: &[u32], request: &Request) -> bool
    requires { All (λ member. member < length requests.now) members.now }
    ensures { result ≡ has_other_ends requests.now members.now request.now }
{
    match members.first() {
        Some(first) => !same_ends(&requests[*first as usize], request),
        None => false,
    }
}

/// The request of a number, if it may stand in a set with these members: there is such a request, no set has it, it
/// excludes nothing, and its path has the ends of the first member's. `taken` marks the requests of earlier sets.
fn find_member<'a>(
    requests: &'a [Request],
    taken: &[bool],
    members: &[u32],
    number: u64,
) -> Option<&'a Request>
    requires count { length taken.now ≡ length requests.now }
    requires members { All (λ member. member < length requests.now) members.now }
    ensures found { MatchOption result (is_out_of_place requests.now taken.now members.now number ≡
        true) (λ request. (request.now ≡ request_at requests.now number) ×
        (is_out_of_place requests.now taken.now members.now number ≡ false)) }
    ensures known { IfSome result (λ request. number < length requests.now) }
{
    let place = number as usize;
    let request = requests.get(place)?;
    if taken[place] || excludes_edges(request) || has_other_ends(requests, members, request) {
        None
    } else {
        Some(request)
    }
}

/// Adds the edges of a member's path to those seen; tells whether they are new.
fn see<'a>(seen: &mut IndexSet<&'a [u32]>, member: &'a Request) -> Result<bool, OutOfMemory>
    ensures new { IfOk result
        (λ new. new ≡ not (list_any (same_bytes member.now.path.edges)
        (map (λ edges. edges.now) seen.old.keys))) }
    ensures added { IfOk result (λ new. IsTrue new → map (λ edges. edges.now) seen.new.keys ≡
        map (λ edges. edges.now) seen.old.keys ++ member.now.path.edges ∷ []) }
{
    Ok(seen.insert(member.path.edges.as_slice())?)
}

/// The numbers of the `set` line of this number, in rising order, unless they are no set behind the earlier ones, whose
/// requests are marked in `taken`.
pub(crate) fn read_members(
    alloc: Global,
    requests: &[Request],
    taken: &[bool],
    line: u32,
    numbers: &[u64],
) -> Result<Vec<u32>, Refusal<SetFault>>
    // Each request is marked where an earlier set has it.
    requires few { length requests.now < 2 ^ 32 }
    requires count { length taken.now ≡ length requests.now }

    // The numbers are those of requests, in rising order, and are a set.
    ensures made { IfOk result (λ members. IsInOrder numbers.now members.items) }
    ensures known { IfOk result (λ members. All (λ member. member < length requests.now)
        members.items) }
    ensures lawful { IfOk result (λ members. (earlier : List ℕ) → AreEdgeMarks earlier taken.now →
        is_wrong_set requests.now earlier numbers.now ≡ false) }

    // Only what is no set behind the earlier ones is refused.
    ensures refused { IfErr result (λ refusal. (earlier : List ℕ) → AreEdgeMarks earlier taken.now →
        TellsFault (fault_in_line line (wrong_if (is_wrong_set requests.now earlier numbers.now)))
        refusal) }
{
    let mut members = Vec::new(alloc);
    let mut seen = IndexSet::new(alloc);
    for number in numbers {
        let Some(request) = find_member(requests, taken, members.as_slice(), *number) else {
            return Err(Refusal::at(line, SetFault::WrongSet));
        };
        if !see(&mut seen, request)? {
            return Err(Refusal::at(line, SetFault::WrongSet));
        }
        push_last(&mut members, *number as u32)?;
    }
    members.sort_unstable();
    Ok(members)
}

/// Marks the members of a set, beside what is marked.
pub(crate) fn mark_members(taken: &mut Vec<bool>, members: &[u32])
    requires { All (λ member. member < length taken.old.items) members.now }
    ensures marks { (earlier : List ℕ) → AreEdgeMarks earlier taken.old.items →
        AreEdgeMarks (earlier ++ members.now) taken.new.items }
    ensures count { length taken.new.items ≡ length taken.old.items }
{
    mark_all(taken, members);
}
