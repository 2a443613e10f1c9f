//! What requests choose for each link of an area.
ghost use Rattle.std.specs.Prelude.{◌≡◌, Some, map, slice_get, IfOk};
ghost use Rattle.std.specs.Option.{option_and_then};
ghost use Rattle.lsdb_build.specs.declared.Linked.{Linked as LinkValue};
ghost use Rattle.lsdb_build.specs.Graphs.{IsAreaDatabase};
ghost use Rattle.request_reader.specs.Asked.{IsAsked};
ghost use Rattle.path_requests.specs.Meaning.{any_symmetric, is_symmetric, range_at, range_of};

use crate::ranges::{Range, ranges_by};
use crate::symmetric::symmetric_by;
use cost_base::OutOfMemory;
use lsdb_build::Linked;
use request_reader::{DirectiveLine, RequestFile};
use std::alloc::Global;
use std::marker::Model;
use wanted_paths::Names;

/// The range of each link, and whether lines make it symmetric. Contracts see the request file and the database.
#[derive(Drop)]
pub struct Choices<'a> {
    names: &'a Names<'a>,
    request_file: &'a RequestFile,
    ranges: Vec<Range>,
    symmetric: Vec<bool>,
}

impl<'a> Model for Choices<'a> {
    ghost use Rattle.std.specs.Prelude.{◌≡◌, Some, map};
    ghost use Rattle.path_requests.specs.Meaning.{range_of, any_symmetric};
    ghost use Rattle.path_requests.specs.Chosen.{Chosen};

    ghost Value = { Chosen };

    ghost view = { λ c. record { asked = c.request_file.now; database = c.names.now } };

    ghost invariant = { λ c. record {
      ranges : c.ranges.items ≡ map (range_of c.request_file.now c.names.now) c.names.now.links;
      symmetric : c.symmetric.items ≡
          map (λ link. any_symmetric c.request_file.now c.names.now (Some link)) c.names.now.links;
    } };
}

/// The lines of a request file.
pub fn items(request_file: &RequestFile) -> &[DirectiveLine]
    ensures value { result.now ≡ request_file.now.items }
    ensures asked { IsAsked request_file.now }
{
    request_file.items.as_slice()
}

impl<'a> Choices<'a> {
    /// The choices of a request file for an area's links, by one pass over the lines.
    pub fn new(
        alloc: Global,
        names: &'a Names<'a>,
        request_file: &'a RequestFile,
    ) -> Result<Choices<'a>, OutOfMemory>
        ensures { IfOk result (λ choices. choices ≡ record {
          asked = request_file.now;
          database = names.now;
        }) }
    {
        let lines = items(request_file);
        let ranges = ranges_by(alloc, names, lines)?;
        let symmetric = symmetric_by(alloc, names, lines)?;
        Ok(Choices {
            names,
            request_file,
            ranges,
            symmetric,
        })
    }

    /// The names of the area's routers and links.
    pub fn names(&self) -> &Names<'a>
        ensures { result.now ≡ self.now.database }
    {
        self.names
    }

    /// The requests.
    pub fn request_file(&self) -> &RequestFile
        ensures value { result.now ≡ self.now.asked }
        ensures asked { IsAsked self.now.asked }
    {
        // For the prover: what the type of a request file keeps is known once its lines are read.
        let _lines = items(self.request_file);
        self.request_file
    }

    /// The links, in order.
    pub fn links(&self) -> &[Linked]
        ensures value { result.now ≡ self.now.database.links }
        ensures base { IsAreaDatabase self.now.database }
    {
        self.names.links()
    }

    /// The ranges of the links, in order.
    pub fn ranges(&self) -> &[Range]
        ensures { result.now ≡ map (range_of self.now.asked self.now.database)
            self.now.database.links }
    {
        self.ranges.as_slice()
    }

    /// The range of the link of a number, where there is one.
    pub fn range_at(&self, number: u32) -> Option<Range>
        ensures { result ≡ range_at self.now.asked self.now.database
            (slice_get self.now.database.links number) }
    {
        self.ranges.get(number as usize).copied()
    }

    /// The range of a link, by its number.
    pub fn range_of(&self, number: u32) -> Range
        ensures { (link : LinkValue) → slice_get self.now.database.links number ≡ Some link →
            result ≡ range_of self.now.asked self.now.database link }
    {
        self.range_at(number).unwrap_or(Range::AsItIs)
    }

    /// Whether lines make the link of a number symmetric.
    fn any_symmetric(&self, number: Option<u32>) -> bool
        ensures { result ≡ any_symmetric self.now.asked self.now.database
            (option_and_then (slice_get self.now.database.links) number) }
    {
        match number {
            Some(number) => self
                .symmetric
                .get(number as usize)
                .copied()
                .unwrap_or(false),
            None => false,
        }
    }

    /// Whether a link is symmetric, by its number.
    pub fn is_symmetric(&self, number: u32, link: &Linked) -> bool
        requires { slice_get self.now.database.links number ≡ Some link.now }
        ensures { result ≡ is_symmetric self.now.asked self.now.database link.now }
    {
        let here = self.any_symmetric(Some(number));
        here || self.any_symmetric(link.link_back)
    }
}
