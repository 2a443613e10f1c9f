//! The faults that rest on several lines.
ghost use Rattle.std.specs.Prelude.{◌≡◌, None, map, Option};
ghost use Rattle.std.specs.Option.{option_map};
ghost use Rattle.config_reader.specs.Spoken.{statement_of, block_spoken, prefix_spoken};
ghost use Rattle.config_reader.specs.Heards.{said_of, head_heard, fault_heard};
ghost use Rattle.config_reader.specs.Drafting as drafting;

use crate::ConfigFault;
use crate::drafts::{Draft, Drafts};
use crate::networks::Networks;
use crate::reader::{LineFault, NamedHead, Said};
use crate::router_names::{is_router_name, name_of_file};
use crate::statements::{AddressPrefix, Block, Statement};

/// The fault of the lesser line, the first where there is one line.
pub(crate) fn earliest(first: Option<LineFault>, second: Option<LineFault>) -> Option<LineFault>
    ensures { option_map fault_heard result ≡ drafting.earliest (option_map fault_heard first)
        (option_map fault_heard second) }
{
    match (first, second) {
        (Some(one), Some(other)) if other.line < one.line => second,
        (Some(_), _) => first,
        (None, _) => second,
    }
}

/// Whether an address is another one than a draft's first, and the draft has an area.
fn is_other_address(draft: &Draft, address: AddressPrefix) -> bool
    ensures { result ≡ drafting.is_second (prefix_spoken address) (Some draft.now) }
{
    let Some(first) = draft.interface.address else {
        return false;
    };
    (draft.interface.area.is_some() || draft.matched)
        && !(address.address == first && address.length == draft.interface.length)
}

/// Whether a line gives an interface with an area a different second address.
fn is_second<'a>(drafts: &Drafts<'a>, said: &Said<'a>) -> bool
    requires { drafts.now.names ≡ map (λ d. d.interface.name) drafts.now.drafts.items }
    ensures { result ≡ drafting.second_in drafts.now.drafts.items (block_spoken said.now.block)
        (statement_of said.now.statement) }
{
    match (said.block, said.statement) {
        (Block::Interface(name), Statement::Address(address)) => match drafts.find(name) {
            Some(draft) => is_other_address(draft, address),
            None => false,
        },
        _ => false,
    }
}

/// The first line that gives an interface with an area a different second address.
pub(crate) fn second_address<'a>(drafts: &Drafts<'a>, said: &[Said<'a>]) -> Option<LineFault>
    requires { drafts.now.names ≡ map (λ d. d.interface.name) drafts.now.drafts.items }
    ensures { option_map fault_heard result ≡ drafting.first_second drafts.now.drafts.items
        (map said_of said.now) }
{
    for line in said {
        if is_second(drafts, line) {
            return Some(LineFault {
                line: line.number,
                fault: ConfigFault::SecondAddress,
            });
        }
    }
    None
}

/// The line that gives an interface without an area line a second area.
fn clash_of(draft: &Draft, networks: &Networks) -> Option<LineFault>
    ensures { option_map fault_heard result ≡ drafting.clash_of networks.now draft.now }
{
    if draft.interface.area.is_some() {
        return None;
    }
    let address = draft.interface.address?;
    let line = networks.clash(AddressPrefix {
        address,
        length: draft.interface.length,
    })?;
    Some(LineFault {
        line,
        fault: ConfigFault::AreaTwice,
    })
}

/// The first line that gives some interface without an area line a second area.
pub(crate) fn area_twice(drafts: &[Draft], networks: &Networks) -> Option<LineFault>
    ensures { option_map fault_heard result ≡ drafting.first_clash networks.now None drafts.now }
{
    let mut found: Option<LineFault> = None;
    for draft in drafts {
        found = earliest(found, clash_of(draft, networks));
    }
    found
}

/// The router ID of a line of a router block.
fn id_in(said: &Said<'_>) -> Option<u32>
    ensures { result ≡ drafting.router_id_set (block_spoken said.now.block)
        (statement_of said.now.statement) }
{
    match (said.block, said.statement) {
        (Block::Router, Statement::RouterId(id)) => Some(id),
        _ => None,
    }
}

/// The last router ID.
pub(crate) fn router_id(said: &[Said<'_>]) -> Option<u32>
    ensures { result ≡ drafting.id_after None (map said_of said.now) }
{
    let mut found: Option<u32> = None;
    for line in said {
        found = id_in(line).or(found);
    }
    found
}

/// The router's name, with its line: of the last `hostname` head, or of the file, with line 0.
pub(crate) fn router_name<'a>(hostname: Option<NamedHead<'a>>, file_name: &'a [u8]) -> NamedHead<'a>
    ensures { head_heard result ≡ drafting.name_from file_name.now
        (option_map head_heard hostname.entry) }
{
    match hostname {
        Some(head) => head,
        None => NamedHead {
            name: name_of_file(file_name),
            line: 0,
        },
    }
}

/// The fault of the router's name.
pub(crate) fn name_fault(name: NamedHead<'_>) -> Option<LineFault>
    ensures { option_map fault_heard result ≡ drafting.name_fault (head_heard name.entry) }
{
    if is_router_name(name.name) {
        return None;
    }
    Some(LineFault {
        line: name.line,
        fault: ConfigFault::BadName,
    })
}
