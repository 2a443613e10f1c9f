//! The sets of a problem: those of the lines, and each path in no line by itself.
ghost use Rattle.std.specs.Prelude.{◌≡◌, ◌+◌, ◌<◌, ◌≤◌, ◌++◌, ◌∷◌, [], map, filter, length, cond, slice_index_or, All, IfOk, OnOk};
ghost use Rattle.cost_base.specs.Lists.{numbers_from};
ghost use Rattle.design_problem.specs.Problems.{request_at};
ghost use Rattle.set_separation.specs.PrefixTrees.{IsGrown};
ghost use Rattle.spread_sets.specs.Spreads.{name_of_set, is_first, paths_of, set_of};
ghost use Rattle.spread_sets.specs.MemberSets.{HasTree, IsMemberSet, line_with_path, sets_in};

use crate::line_numbers::line_numbers;
use cost_base::{Listed, OutOfMemory};
use design_problem::{Problem, Request};
use set_separation::PrefixTree;
use std::alloc::Global;

/// A set of wanted paths that are to tie: their numbers in rising order, and the tree of the paths' common prefixes.
#[derive(Drop)]
pub(crate) struct MemberSet {
    pub(crate) members: Listed<u32>,
    pub(crate) tree: PrefixTree,
}

/// The number by which a set is named.
pub(crate) fn first_of(set: &[u32]) -> u32
    ensures { result ≡ name_of_set set.now }
{
    match set.first() {
        Some(first) => *first,
        None => 0,
    }
}

/// The members of a line.
fn line_at(lines: &[Listed<u32>], number: usize) -> &[u32]
    requires { number < length lines.now }
    ensures { result.now ≡ slice_index_or lines.now number [] }
{
    lines[number].as_slice()
}

/// Whether a path is the first member of its set, where its line has that number.
fn is_first(lines: &[Listed<u32>], line: Option<usize>, path: u32) -> bool
    requires { line ≡ line_with_path 0 lines.now path }
    ensures { result ≡ is_first lines.now path }
{
    match line {
        Some(number) => first_of(line_at(lines, number)) == path,
        None => true,
    }
}

/// The set in which a path stands, where its line has that number.
fn set_of(
    alloc: Global,
    lines: &[Listed<u32>],
    line: Option<usize>,
    path: u32,
) -> Result<Listed<u32>, OutOfMemory>
    requires { line ≡ line_with_path 0 lines.now path }
    ensures { IfOk result (λ set. set ≡ set_of lines.now path) }
{
    match line {
        Some(number) => Listed::from_slice(alloc, line_at(lines, number)),
        None => Listed::from_slice(alloc, &[path]),
    }
}

/// Puts the set of a path behind the others, if the path is its first member.
fn push_first(
    alloc: Global,
    lines: &[Listed<u32>],
    line: Option<usize>,
    path: u32,
    sets: &mut Vec<Listed<u32>>,
) -> Result<(), OutOfMemory>
    requires { line ≡ line_with_path 0 lines.now path }
    ensures { OnOk result (sets.new.items ≡ cond (is_first lines.now path)
        (sets.old.items ++ set_of lines.now path ∷ []) sets.old.items) }
{
    if is_first(lines, line, path) {
        let set = set_of(alloc, lines, line, path)?;
        sets.push(set)?;
    }
    Ok(())
}

/// The sets of so many paths, in rising order of their first members.
pub(crate) fn all_sets(
    alloc: Global,
    lines: &[Listed<u32>],
    paths: u32,
) -> Result<Vec<Listed<u32>>, OutOfMemory>
    ensures { IfOk result (λ sets. sets.items ≡ map (set_of lines.now)
        (filter (is_first lines.now) (numbers_from 0 paths))) }
{
    let numbers = line_numbers(alloc, lines, paths)?;
    let mut sets = Vec::new(alloc);
    for path in 0..paths {
        let line = numbers[path as usize];
        push_first(alloc, lines, line, path, &mut sets)?;
    }
    Ok(sets)
}

/// The request of a number.
pub(crate) fn request_of(problem: &Problem, path: u32) -> &Request
    requires { path < length problem.now.requests }
    ensures { result.now ≡ request_at problem.now.requests path }
{
    &problem.requests.as_slice()[path as usize]
}

/// The tree of the common prefixes of the members' paths.
fn tree_of(alloc: Global, problem: &Problem, members: &[u32]) -> Result<PrefixTree, OutOfMemory>
    requires { IsMemberSet problem.now members.now }
    ensures { IfOk result (IsGrown (paths_of problem.now members.now)
        (paths_of problem.now members.now)) }
{
    let mut tree = PrefixTree::new(alloc);
    for member in members {
        let request = request_of(problem, *member);
        tree.insert(request.path.edges.as_slice())?;
    }
    Ok(tree)
}

/// The sets with their trees.
pub(crate) fn with_trees(
    alloc: Global,
    problem: &Problem,
    sets: Vec<Listed<u32>>,
) -> Result<Vec<MemberSet>, OutOfMemory>
    requires { All (IsMemberSet problem.now) sets.items }
    ensures sets { IfOk result (λ grown. sets_in grown.items ≡ sets.items) }
    ensures trees { IfOk result (λ grown. All (HasTree problem.now) grown.items) }
{
    let mut grown = Vec::new(alloc);
    for members in sets {
        let tree = tree_of(alloc, problem, members.as_slice())?;
        grown.push(MemberSet { members, tree })?;
    }
    Ok(grown)
}

/// The places of the largest of the sets' trees.
pub(crate) fn most_places(sets: &[MemberSet]) -> usize
    ensures { All (λ set. length set.tree + 1 ≤ result) sets.now }
{
    let mut most = 0;
    for set in sets {
        most = most.max(set.tree.steps().len() + 1);
    }
    most
}
