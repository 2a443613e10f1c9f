//! The `network` lines of a configuration, found by the prefixes that they name.
ghost use Rattle.std.specs.Prelude.{◌≡◌, ◌&&◌, ◌∷◌, ◌++◌, [], None, IfOk, map};
ghost use Rattle.config_reader.specs.Spoken.{prefix_spoken};
ghost use Rattle.config_reader.specs.Heards.{said_of};
ghost use Rattle.config_reader.specs.Drafting.{network_line, network_lines, covers, area_among, clash};
ghost use Rattle.config_reader.specs.Sightings.{prefix_of_length, names_prefix, is_elsewhere, first_at, noted, lesser};
ghost use Rattle.config_reader.specs.Spoken.{statement_of, block_spoken};
ghost use Rattle.std.specs.List.{list_any};

use crate::reader::Said;
use crate::statements::{AddressPrefix, Block, Statement};
use cost_base::OutOfMemory;
use indexmap::IndexMap;
use interface_model::subnet;
use std::alloc::Global;
use std::marker::Model;

/// A `network` line of a router block.
#[derive(Clone, Copy)]
pub(crate) struct NetworkLine {
    pub line: u32,
    pub address: u32,
    pub length: u8,
    pub area: u32,
}

/// A prefix without host bits.
#[derive(Clone, Copy, PartialEq, Eq, Hash)]
struct NetworkPrefix {
    subnet: u32,
    length: u8,
}

/// A `network` line with its place among those of its configuration, counted from 0.
#[derive(Clone, Copy)]
struct Sighted {
    place: usize,
    line: NetworkLine,
}

/// The first line of a prefix, and the first that has another area than that one.
#[derive(Clone, Copy)]
struct PrefixLines {
    first: Sighted,
    other: Option<Sighted>,
}

/// The `network` lines of a configuration, in order. Contracts see their list.
///
/// They are found by their prefixes: one prefix of each length holds an address, so a look-up for each length finds the
/// lines that match it.
#[derive(Drop)]
pub(crate) struct Networks {
    lines: Vec<NetworkLine>,
    by_prefix: IndexMap<NetworkPrefix, PrefixLines>,
}

impl Model for Networks {
    ghost use Rattle.std.specs.Prelude.{◌≡◌, List};
    ghost use Rattle.indexmap.specs.IndexMap.{get};
    ghost use Rattle.config_reader.specs.declared.networks.NetworkLine.{NetworkLine as Line};
    ghost use Rattle.config_reader.specs.declared.networks.NetworkPrefix.{NetworkPrefix as Key};
    ghost use Rattle.config_reader.specs.Sightings.{same_prefix, lines_of_prefix};

    ghost Value = { List Line };

    ghost view = { λ n. n.lines.items };

    ghost invariant = { λ n. (key : Key) →
        get same_prefix n.by_prefix key ≡ lines_of_prefix key n.lines.items };
}

/// The `network` line that a line is.
fn network_line(said: &Said<'_>) -> Option<NetworkLine>
    ensures { result ≡ network_line said.now.number (block_spoken said.now.block)
        (statement_of said.now.statement) }
{
    match (said.block, said.statement) {
        (Block::Router, Statement::NetworkArea(prefix, area)) => Some(NetworkLine {
            line: said.number,
            address: prefix.address,
            length: prefix.length,
            area,
        }),
        _ => None,
    }
}

/// The prefix of a length that holds an address.
fn prefix_at(address: u32, length: u8) -> NetworkPrefix
    ensures { result ≡ prefix_of_length address length }
{
    NetworkPrefix {
        subnet: subnet(address, length.min(32)),
        length,
    }
}

/// The lines of a prefix with one more, which stands at a place.
fn noted(place: usize, line: NetworkLine, found: Option<PrefixLines>) -> PrefixLines
    ensures { result ≡ noted place line found }
{
    let sighted = Sighted { place, line };
    match found {
        None => PrefixLines {
            first: sighted,
            other: None,
        },
        Some(lines) if lines.other.is_none() && line.area != lines.first.line.area => PrefixLines {
            first: lines.first,
            other: Some(sighted),
        },
        Some(lines) => lines,
    }
}

/// The line that comes first.
fn lesser(found: Option<Sighted>, other: Option<Sighted>) -> Option<Sighted>
    ensures { result ≡ lesser found other }
{
    match (found, other) {
        (None, _) => other,
        (Some(_), None) => found,
        (Some(line), Some(second)) => {
            if second.place < line.place {
                other
            } else {
                found
            }
        }
    }
}

impl Networks {
    /// No line.
    fn new(alloc: Global) -> Networks
        ensures { result ≡ [] }
    {
        Networks {
            lines: Vec::new(alloc),
            by_prefix: IndexMap::new(alloc),
        }
    }

    /// The `network` lines with one more behind them.
    fn with(self, line: NetworkLine) -> Result<Networks, OutOfMemory>
        ensures { IfOk result (λ n. n ≡ self ++ line ∷ []) }
    {
        let Networks {
            mut lines,
            mut by_prefix,
        } = self;
        let prefix = prefix_at(line.address, line.length);
        let found = by_prefix.get(&prefix).copied();
        by_prefix.insert(prefix, noted(lines.len(), line, found))?;
        lines.push(line)?;
        Ok(Networks { lines, by_prefix })
    }

    /// The `network` lines among what the lines say.
    pub(crate) fn among(alloc: Global, said: &[Said<'_>]) -> Result<Networks, OutOfMemory>
        ensures { IfOk result (λ n. n ≡ network_lines (map said_of said.now)) }
    {
        let mut networks = Networks::new(alloc);
        for line in said {
            if let Some(network) = network_line(line) {
                networks = networks.with(network)?;
            }
        }
        Ok(networks)
    }

    /// The first line of a prefix.
    fn first_of(&self, prefix: NetworkPrefix) -> Option<Sighted>
        ensures { result ≡ first_at 0 (names_prefix prefix) self.now }
    {
        let lines = self.by_prefix.get(&prefix)?;
        Some(lines.first)
    }

    /// The first line of a prefix that has another area than this one.
    fn other_of(&self, prefix: NetworkPrefix, area: u32) -> Option<Sighted>
        ensures { result ≡ first_at 0 (λ line. names_prefix prefix line && is_elsewhere area line)
            self.now }
    {
        let lines = self.by_prefix.get(&prefix)?;
        if lines.first.line.area == area {
            lines.other
        } else {
            Some(lines.first)
        }
    }

    /// The first line that matches an address.
    fn first_match(&self, address: AddressPrefix) -> Option<Sighted>
        ensures { result ≡ first_at 0 (covers (prefix_spoken address)) self.now }
    {
        let mut shorter = None;
        for length in 0..address.length {
            shorter = lesser(shorter, self.first_of(prefix_at(address.address, length)));
        }
        let longest = self.first_of(prefix_at(address.address, address.length));
        lesser(shorter, longest)
    }

    /// The first line that matches an address and has another area than this one.
    fn first_elsewhere(&self, address: AddressPrefix, area: u32) -> Option<Sighted>
        ensures { result ≡ first_at 0 (λ line. covers (prefix_spoken address) line &&
            is_elsewhere area line) self.now }
    {
        let mut shorter = None;
        for length in 0..address.length {
            let prefix = prefix_at(address.address, length);
            shorter = lesser(shorter, self.other_of(prefix, area));
        }
        let longest = self.other_of(prefix_at(address.address, address.length), area);
        lesser(shorter, longest)
    }

    /// Whether some line matches an address.
    pub(crate) fn match_some(&self, address: AddressPrefix) -> bool
        ensures { result ≡ list_any (covers (prefix_spoken address)) self.now }
    {
        self.first_match(address).is_some()
    }

    /// The area of the first line that matches an address.
    pub(crate) fn area(&self, address: AddressPrefix) -> Option<u32>
        ensures { result ≡ area_among (prefix_spoken address) self.now }
    {
        let first = self.first_match(address)?;
        Some(first.line.area)
    }

    /// The number of the first line that matches an address and has another area than the first that does.
    pub(crate) fn clash(&self, address: AddressPrefix) -> Option<u32>
        ensures { result ≡ clash (prefix_spoken address) None self.now }
    {
        let first = self.first_match(address)?;
        let other = self.first_elsewhere(address, first.line.area)?;
        Some(other.line.line)
    }
}
