//! Lines of a script that ask for the cheapest outsider of several paths that tie.
ghost use Rattle.std.specs.Prelude.{List, [], ◌∷◌, All, IfOk, IsTrue};
ghost use Rattle.area_graph.specs.declared.Path.{Path};
ghost use Rattle.area_graph.specs.Costs.{cost};
ghost use Rattle.rival_separation.specs.Outlooks.{FitsOutlook, HasItsPath};
ghost use Rattle.set_separation.specs.PrefixTrees.{IsGrown};
ghost use Rattle.set_separation.specs.SeenTrees.{HasTiedTree};
ghost use Rattle.spf_ties.specs.Distances.{IsRoomFor};
ghost use Rattle.network_cases.specs.Members.{TiesWith, wanted_of};

use crate::networks::{point, said};
use area_graph::{Graph, Path, Point, is_path_of, path_cost, point_fits};
use case_scripts::{list_of, next_number, next_word};
use cost_base::{Listed, OutOfMemory};
use design_problem::Request;
use rival_separation::Outlook;
use set_separation::{PrefixTree, find_outsider};
use spf_ties::Room;
use std::alloc::{AllocError, Global};
use std::str::SplitWhitespace;

/// Whether one of the paths has these edges.
fn has(paths: &[Path], edges: &[u32]) -> bool {
    for path in paths {
        if path.edges.as_slice() == edges {
            return true;
        }
    }
    false
}

/// Adds the path of these edges that starts where the first one does, and tells whether no path before it has them.
fn add_path(paths: &mut Vec<Path>, first: &Path, edges: Vec<u32>) -> Result<bool, AllocError> {
    let is_new = first.edges.as_slice() != edges.as_slice()
        && !has(paths.as_slice(), edges.as_slice());
    paths.push(Path {
        start: first.start,
        edges: Listed::from_items(edges),
    })?;
    Ok(is_new)
}

/// The paths of the other words, with the start of the first one; none where two have the same edges.
fn other_paths(
    alloc: Global,
    first: &Path,
    words: &mut SplitWhitespace<'_>,
) -> Result<Option<Vec<Path>>, AllocError> {
    let mut paths = Vec::new(alloc);
    for word in words {
        if !add_path(&mut paths, first, list_of::<u32>(alloc, word)?)? {
            return Ok(None);
        }
    }
    Ok(Some(paths))
}

/// Whether a path is one of a request and costs what the request's path does.
fn ties_with(outlook: &Outlook<'_>, path: &Path) -> bool
    requires fits { FitsOutlook outlook.now }
    requires first { HasItsPath outlook.now }
    ensures { IsTrue result → TiesWith outlook.now.graph.now outlook.now.point.now
        outlook.now.request.now path.now }
{
    let request = outlook.request;
    if path.start != request.path.start {
        return false;
    }
    if !is_path_of(
        outlook.graph,
        path,
        request.end,
        request.excluded.as_slice(),
    ) {
        return false;
    }
    path_cost(outlook.graph, path, outlook.point)
        == path_cost(outlook.graph, &request.path, outlook.point)
}

/// Whether each path is one of a request and costs what the request's path does.
fn all_tie(outlook: &Outlook<'_>, others: &[Path]) -> bool
    requires fits { FitsOutlook outlook.now }
    requires first { HasItsPath outlook.now }
    ensures { IsTrue result →
        All (TiesWith outlook.now.graph.now outlook.now.point.now outlook.now.request.now)
        others.now }
{
    for path in others {
        if !ties_with(outlook, path) {
            return false;
        }
    }
    true
}

/// The tree of a path's prefixes.
fn tree_of_one(alloc: Global, first: &Path) -> Result<PrefixTree, OutOfMemory>
    ensures { IfOk result (λ tree. (others : List Path) → IsGrown (wanted_of first.now.edges others)
        (first.now.edges ∷ []) tree) }
{
    let mut tree = PrefixTree::new(alloc);
    tree.insert(first.edges.as_slice())?;
    Ok(tree)
}

/// The tree of the common prefixes of several paths.
fn tree_of(alloc: Global, first: &Path, others: &[Path]) -> Result<PrefixTree, OutOfMemory>
    ensures { IfOk result (IsGrown (wanted_of first.now.edges others.now)
        (wanted_of first.now.edges others.now)) }
{
    let mut tree = tree_of_one(alloc, first)?;
    for path in others {
        tree.insert(path.edges.as_slice())?;
    }
    Ok(tree)
}

/// What a path costs, and whether this is less than `most`.
fn cost_text(
    alloc: Global,
    outlook: &Outlook<'_>,
    path: &Path,
    most: u128,
) -> Result<String, OutOfMemory>
    requires { FitsOutlook outlook.now }
{
    let request = outlook.request;
    if !is_path_of(
        outlook.graph,
        path,
        request.end,
        request.excluded.as_slice(),
    ) {
        return said(alloc, ": no path");
    }
    let cost = path_cost(outlook.graph, path, outlook.point);
    let told = if cost < most { "less" } else { "no less" };
    Ok(format!(in alloc; ": costs {cost}, {told} than {most}")?)
}

/// What the path that the room keeps costs, and whether this is less than `most`.
fn kept_text(
    alloc: Global,
    outlook: &Outlook<'_>,
    edges: &[u32],
    most: u128,
) -> Result<String, OutOfMemory>
    requires { FitsOutlook outlook.now }
{
    let path = Path {
        start: outlook.request.path.start,
        edges: Listed::from_slice(alloc, edges)?,
    };
    cost_text(alloc, outlook, &path, most)
}

/// The cheapest outsider of the paths of a tree, found in a room.
fn outsider_in(
    alloc: Global,
    outlook: &Outlook<'_>,
    tree: &PrefixTree,
    room: &mut Room,
) -> Result<String, OutOfMemory>
    requires room { IsRoomFor outlook.now.graph.now room.old }
    requires fits { FitsOutlook outlook.now }
    requires first { HasItsPath outlook.now }
    requires tree { HasTiedTree outlook.now tree.now }
{
    let places = tree.steps().len() + 1;
    let mut costs = vec![in alloc; 0; places]?;
    if !find_outsider(outlook, tree, costs.as_mut_slice(), room) {
        return said(alloc, ": none");
    }
    let most = path_cost(outlook.graph, &outlook.request.path, outlook.point) + outlook.point.scale;
    kept_text(alloc, outlook, room.path(), most)
}

/// The cheapest outsider of the paths of a tree.
fn outsider_beside(
    alloc: Global,
    outlook: &Outlook<'_>,
    tree: &PrefixTree,
) -> Result<String, OutOfMemory>
    requires fits { FitsOutlook outlook.now }
    requires first { HasItsPath outlook.now }
    requires tree { HasTiedTree outlook.now tree.now }
{
    let mut room = Room::new(alloc, outlook.graph)?;
    outsider_in(alloc, outlook, tree, &mut room)
}

/// The cheapest outsider of a request's path and others that tie with it.
fn outsider_of(alloc: Global, outlook: &Outlook<'_>, others: &[Path]) -> Result<String, OutOfMemory>
    requires fits { FitsOutlook outlook.now }
    requires first { HasItsPath outlook.now }
    requires others { All (TiesWith outlook.now.graph.now outlook.now.point.now
        outlook.now.request.now) others.now }
{
    let tree = tree_of(alloc, &outlook.request.path, others)?;
    outsider_beside(alloc, outlook, &tree)
}

/// The cheapest outsider of a request's path and others, where they tie.
fn tied_text(alloc: Global, outlook: &Outlook<'_>, others: &[Path]) -> Result<String, OutOfMemory>
    requires fits { FitsOutlook outlook.now }
    requires first { HasItsPath outlook.now }
{
    if !all_tie(outlook, others) {
        return said(alloc, ": unfit");
    }
    outsider_of(alloc, outlook, others)
}

/// The cheapest outsider of a request's path and those of the other words at a point, where they fit.
fn outsider_at(
    alloc: Global,
    graph: &Graph,
    request: &Request,
    point: &Point,
    words: &mut SplitWhitespace<'_>,
) -> Result<String, OutOfMemory> {
    let excluded = request.excluded.as_slice();
    if !point_fits(graph, point) || !is_path_of(graph, &request.path, request.end, excluded) {
        return said(alloc, ": unfit");
    }
    let outlook = Outlook {
        graph,
        request,
        point,
    };
    match other_paths(alloc, &request.path, words)? {
        Some(others) => tied_text(alloc, &outlook, others.as_slice()),
        None => said(alloc, ": unfit"),
    }
}

/// The request of a start and an end, of a word of edges and one of excluded edges.
fn request_of(
    alloc: Global,
    start: u32,
    end: u32,
    edges: &str,
    excluded: &str,
) -> Result<Request, AllocError> {
    let edges = Listed::from_items(list_of::<u32>(alloc, edges)?);
    let excluded = Listed::from_items(list_of::<u32>(alloc, excluded)?);
    Ok(Request {
        path: Path { start, edges },
        end,
        excluded,
    })
}

/// `outsider START END EXCLUDED POINT EDGES ..`: the cost of the cheapest simple path that is none of these, which tie,
/// where some edges are excluded; `none` where each costs at least the scale more than they do.
pub(crate) fn outsider_text(
    alloc: Global,
    graph: &Graph,
    words: &mut SplitWhitespace<'_>,
) -> Result<String, OutOfMemory> {
    let start = next_number(words);
    let end = next_number(words);
    let excluded = next_word(words);
    let at = next_word(words);
    let request = request_of(alloc, start, end, next_word(words), excluded)?;
    let point = point(alloc, at)?;
    outsider_at(alloc, graph, &request, &point, words)
}
