//! What a request file asks for, as it is written.

use crate::beside::beside_text;
use crate::configs::LONGEST;
use crate::problems::problem_text;
use cost_base::{Name, Refusal};
use lsdb_build::Lsdb;
use path_requests::{resolve, resolve_present};
use request_reader::{
    Directive, DirectiveLine, Excluded, RequestFault, RequestFile, read_request_file,
};
use std::alloc::{AllocError, Global};
use std::fmt;

/// A name as it is written.
#[derive(Drop)]
struct Called<'a>(&'a Name);

impl<'a> fmt::Display for Called<'a> {
    fn fmt<W: fmt::Write>(&self, f: &mut fmt::Formatter<W>) -> fmt::Result {
        write!(f, "{}", self.0.as_bytes().escape_ascii())
    }
}

/// An interface of a router, as they are written.
#[derive(Drop)]
struct Of<'a>(&'a Name, &'a Name);

impl<'a> fmt::Display for Of<'a> {
    fn fmt<W: fmt::Write>(&self, f: &mut fmt::Formatter<W>) -> fmt::Result {
        let (router, interface) = (Called(self.0), Called(self.1));
        write!(f, "{interface} of {router}")
    }
}

/// The hops of a path but for the last.
#[derive(Drop)]
struct HopWords<'a>(&'a [(Name, Name)]);

impl<'a> fmt::Display for HopWords<'a> {
    fn fmt<W: fmt::Write>(&self, f: &mut fmt::Formatter<W>) -> fmt::Result {
        for (router, interface) in self.0 {
            write!(f, " by {}", Of(router, interface))?;
        }
        Ok(())
    }
}

/// A router or a link that a path excludes.
fn write_part<W: fmt::Write>(part: &Excluded, f: &mut fmt::Formatter<W>) -> fmt::Result {
    match part {
        Excluded::Router(router) => write!(f, ", without router {}", Called(router)),
        Excluded::Interface(router, interface) => write!(f, ", without {}", Of(router, interface)),
    }
}

/// The routers and links that a path excludes.
#[derive(Drop)]
struct Without<'a>(&'a [Excluded]);

impl<'a> fmt::Display for Without<'a> {
    fn fmt<W: fmt::Write>(&self, f: &mut fmt::Formatter<W>) -> fmt::Result {
        for part in self.0 {
            write_part(part, f)?;
        }
        Ok(())
    }
}

/// A line of a request file, as it is written.
#[derive(Drop)]
struct Shown<'a>(&'a DirectiveLine);

impl<'a> fmt::Display for Shown<'a> {
    fn fmt<W: fmt::Write>(&self, f: &mut fmt::Formatter<W>) -> fmt::Result {
        let line = self.0.line;
        match &self.0.what {
            Directive::FreeAll(low, high) => write!(f, "line {line}: each free {low} to {high}"),
            Directive::Free(router, interface, low, high) => {
                let of = Of(router, interface);
                write!(f, "line {line}: {of} free {low} to {high}")
            }
            Directive::Fix(router, interface) => {
                write!(f, "line {line}: {} fixed", Of(router, interface))
            }
            Directive::SymmetricAll => write!(f, "line {line}: each symmetric"),
            Directive::Symmetric(router, interface) => {
                write!(f, "line {line}: {} symmetric", Of(router, interface))
            }
            Directive::Path(hops, without) => {
                let (hop_words, without) = (HopWords(hops.as_slice()), Without(without.as_slice()));
                write!(
                    f,
                    "line {line}: path{hop_words} to {}{without}",
                    Called(hops.last())
                )
            }
        }
    }
}

/// What a request file asks for that isn't longer than any text of a script.
fn requests_of(alloc: Global, bytes: &[u8]) -> Result<RequestFile, Refusal<RequestFault>> {
    if bytes.len() > LONGEST {
        return Err(Refusal::OutOfMemory);
    }
    read_request_file(alloc, bytes)
}

/// The lines of a request file, as they are written.
#[derive(Drop)]
struct DirectiveLines<'a>(&'a [DirectiveLine]);

impl<'a> fmt::Display for DirectiveLines<'a> {
    fn fmt<W: fmt::Write>(&self, f: &mut fmt::Formatter<W>) -> fmt::Result {
        for item in self.0 {
            write!(f, "\n  {}", Shown(item))?;
        }
        Ok(())
    }
}

/// What a request file asks for.
fn requests_text(alloc: Global, request_file: &RequestFile) -> Result<String, AllocError> {
    let area = request_file.area;
    let items = DirectiveLines(request_file.items.as_slice());
    match request_file.default_cost {
        Some(cost) => format!(in alloc; ": area {area}, default cost {cost}{items}"),
        None => format!(in alloc; ": area {area}{items}"),
    }
}

/// What is told of a request file: what it asks for, or what it makes of a network.
fn told(
    alloc: Global,
    first: &str,
    request_file: &RequestFile,
    network: &Option<Lsdb>,
) -> Result<String, AllocError> {
    match (first, network) {
        ("problem", Some(network)) => problem_text(alloc, resolve(alloc, request_file, network)),
        ("present", Some(network)) => {
            problem_text(alloc, resolve_present(alloc, request_file, network))
        }
        ("beside", Some(network)) => beside_text(alloc, request_file, network),
        _ => requests_text(alloc, request_file),
    }
}

/// What is told of the last text as a request file, or its first fault.
///
/// `request MORE`: what it asks for. `problem MORE`: the problem that it makes of the network at hand; `present MORE`:
/// that at the network's present costs. `beside MORE`: the present cost of each variable of the problem.
pub(crate) fn request_text(
    alloc: Global,
    first: &str,
    bytes: &[u8],
    network: &Option<Lsdb>,
) -> Result<String, AllocError> {
    match requests_of(alloc, bytes) {
        Ok(request_file) => told(alloc, first, &request_file, network),
        Err(stop) => format!(in alloc; ": {stop:?}"),
    }
}
