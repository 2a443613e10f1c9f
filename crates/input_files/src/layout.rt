//! The layout of the network that the files of words make: all that they say but what its interfaces cost.
ghost use Rattle.std.specs.Prelude.{◌≡◌, [], IfErr, OnOk};
ghost use Rattle.cost_base.specs.Lists.{first_of};
ghost use Rattle.wanted_paths.specs.LineFaults.{line_faults, TellsResolution};
ghost use Rattle.input_files.specs.Layouts.{IsLayoutOf, area_read, layout_read, lines_read};
ghost use Rattle.input_files.specs.Readings.{Gave};
ghost use Rattle.input_files.specs.Stops.{IsReadAs, files_named};

use crate::problem::{stop_of_resolution, topology};
use crate::reading::{FileWords, read_configs, read_request};
use crate::stop::Stop;
use cost_base::{Refusal, Shelf};
use interface_model::RouterConfig;
use lsdb_build::Lsdb;
use request_reader::RequestFile;
use std::alloc::Global;
use wanted_paths::{Names, ResolutionFault, resolve_lines};

/// A network as its files say it, whatever its interfaces cost.
#[derive(Drop)]
pub struct Layout {
    /// What the request file asks for.
    pub request_file: RequestFile,
    /// What the configurations say, in their order.
    pub configs: Vec<RouterConfig>,
    /// The routers, links and transit subnets of the area.
    pub lsdb: Lsdb,
}

/// What the files of words say of an area and ask of it.
fn read_area<'a, S: Shelf>(
    alloc: Global,
    words: FileWords<'a>,
    shelf: &mut S,
) -> Result<Layout, Stop<'a>>
    ensures { Gave (S.gave shelf.old shelf.new) (λ came. IsReadAs
        (area_read (files_named words.entry)) came IsLayoutOf result) }
{
    let request_file = read_request(alloc, shelf, words.request)?;
    let configs = read_configs(alloc, shelf, words.configs)?;
    let lsdb = topology(alloc, &configs, request_file.area, words)?;
    Ok(Layout {
        request_file,
        configs,
        lsdb,
    })
}

/// Whether each line of a request file can be resolved in an area, or the first fault of one that can't.
fn resolve_each_line(
    alloc: Global,
    request_file: &RequestFile,
    lsdb: &Lsdb,
) -> Result<(), Refusal<ResolutionFault, ()>>
    ensures made { OnOk result (line_faults lsdb.now request_file.now.items ≡ []) }
    ensures refused { IfErr result
        (TellsResolution (first_of (line_faults lsdb.now request_file.now.items))) }
{
    let names = Names::new(alloc, lsdb)?;
    let outline = names.outline(alloc)?;
    // The paths aren't asked for here: the test is whether they can be resolved.
    let _paths = resolve_lines(alloc, &names, &outline, request_file.items.as_slice())?;
    Ok(())
}

/// Tests that each line of a layout's request file can be resolved.
fn check_lines<'a>(alloc: Global, layout: &Layout, words: FileWords<'a>) -> Result<(), Stop<'a>>
    ensures { IsReadAs (lines_read (files_named words.entry) layout.now.request_file
        layout.now.lsdb) [] (λ _ none. none ≡ tt) result }
{
    match resolve_each_line(alloc, &layout.request_file, &layout.lsdb) {
        Ok(()) => Ok(()),
        Err(refusal) => Err(stop_of_resolution(refusal, &layout.lsdb, words)),
    }
}

/// The layout of the network that the files of words make, in which each line of the request file is resolved. Whether
/// its interfaces have costs isn't asked.
///
/// # Errors
///
/// `Stop`: a file failed or is too long, or the input has another fault than an interface without a cost;
/// want of memory.
pub fn read_layout<'a, S: Shelf>(
    alloc: Global,
    words: FileWords<'a>,
    shelf: &mut S,
) -> Result<Layout, Stop<'a>>
    ensures { Gave (S.gave shelf.old shelf.new) (λ came. IsReadAs
        (layout_read (files_named words.entry)) came IsLayoutOf result) }
{
    let layout = read_area(alloc, words, shelf)?;
    check_lines(alloc, &layout, words)?;
    Ok(layout)
}
