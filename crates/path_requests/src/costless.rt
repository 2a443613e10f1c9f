//! The first link without a cost, and the refusal of the problem that has one.
ghost use Rattle.std.specs.Prelude.{◌≡◌, ◌≤◌, [], None, length, slice_index_or, OnOk, IfErr};
ghost use Rattle.cost_base.specs.Lists.{first_of};
ghost use Rattle.lsdb_build.specs.Graphs.{Database};
ghost use Rattle.request_reader.specs.Asked.{Asked};
ghost use Rattle.wanted_paths.specs.LineFaults.{TellsResolution};
ghost use Rattle.path_requests.specs.Meaning.{AsItIs};
ghost use Rattle.path_requests.specs.Checked.{HasRanges};
ghost use Rattle.path_requests.specs.Resolving.{lacks_cost, cost_faults, present_asked};

use crate::choices::Choices;
use crate::ranges::Range;
use cost_base::Refusal;
use lsdb_build::{Linked, Lsdb};
use request_reader::RequestFile;
use wanted_paths::{Names, ResolutionFault};

/// Whether a fixed link has no present cost, and there is no default.
fn lacks_cost(request_file: &RequestFile, link: &Linked, range: Range) -> bool
    ensures { result ≡ lacks_cost request_file.now link.now range }
{
    match range {
        Range::Within(_, _) => false,
        Range::AsItIs => match (link.cost, request_file.default_cost) {
            (None, None) => true,
            _ => false,
        },
    }
}

/// The range at a place; past the ranges, that of a fixed link.
fn range_in(ranges: &[Range], place: usize) -> Range
    ensures { result ≡ slice_index_or ranges.now place AsItIs }
{
    match ranges.get(place) {
        Some(range) => *range,
        None => Range::AsItIs,
    }
}

/// The fault of the first fixed link without a cost, by the ranges of the links; one past them is fixed.
fn first_lacking(
    request_file: &RequestFile,
    links: &[Linked],
    ranges: &[Range],
) -> Option<ResolutionFault>
    requires { length links.now ≤ 4000 }
    ensures { (a : Asked) (d : Database) → a.default_cost ≡ request_file.now.default_cost →
        HasRanges a d links.now ranges.now → result ≡ first_of (cost_faults a d 0 links.now) }
{
    for (i, link) in links.iter().enumerate() {
        if lacks_cost(request_file, link, range_in(ranges, i)) {
            return Some(ResolutionFault::NoCost { link: i as u32 });
        }
    }
    None
}

/// The fault of the first of some links without a present cost.
fn first_at_present(request_file: &RequestFile, links: &[Linked]) -> Option<ResolutionFault>
    requires { length links.now ≤ 4000 }
    ensures { (d : Database) → result ≡ first_of (cost_faults (present_asked request_file.now) d 0
        links.now) }
{
    first_lacking(request_file, links, &[])
}

/// The fault of an area's first link without a present cost: neither a cost line nor a default.
pub fn first_without_cost(request_file: &RequestFile, lsdb: &Lsdb) -> Option<ResolutionFault>
    ensures { result ≡ first_of (cost_faults (present_asked request_file.now) lsdb.now 0
        lsdb.now.links) }
{
    first_at_present(request_file, lsdb.links())
}

/// Refuses what has a fault.
fn refuse(fault: Option<ResolutionFault>) -> Result<(), Refusal<ResolutionFault, ()>>
    ensures made { OnOk result (fault ≡ None) }
    ensures refused { IfErr result (TellsResolution fault) }
{
    match fault {
        Some(fault) => Err(Refusal::at((), fault)),
        None => Ok(()),
    }
}

/// Whether each fixed link has a cost; the first one that has none where one hasn't.
pub fn check_costs(choices: &Choices) -> Result<(), Refusal<ResolutionFault, ()>>
    ensures made { OnOk result (cost_faults choices.now.asked choices.now.database 0
        choices.now.database.links ≡ []) }
    ensures refused { IfErr result
        (TellsResolution
        (first_of (cost_faults choices.now.asked choices.now.database 0
        choices.now.database.links))) }
{
    refuse(first_lacking(choices.request_file(), choices.links(), choices.ranges()))
}

/// Whether each link has a cost; the first one that has none where one hasn't.
pub fn check_present(
    names: &Names,
    request_file: &RequestFile,
) -> Result<(), Refusal<ResolutionFault, ()>>
    ensures made { OnOk result (cost_faults (present_asked request_file.now) names.now 0
        names.now.links ≡ []) }
    ensures refused { IfErr result
        (TellsResolution
        (first_of (cost_faults (present_asked request_file.now) names.now 0 names.now.links))) }
{
    refuse(first_at_present(request_file, names.links()))
}
