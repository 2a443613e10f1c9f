//! What a configuration says of each of its interfaces.
ghost use Rattle.std.specs.Prelude.{◌≡◌, ◌||◌, [], ◌∷◌, ◌++◌, if◌then◌else◌, IfOk, OnOk, map, Option, List, option_copied};
ghost use Rattle.std.specs.List.{list_any};
ghost use Rattle.cost_base.specs.Lists.{same_bytes};
ghost use Rattle.config_reader.specs.Gathered.{IsOpened, IsGathered, NamesApart};
ghost use Rattle.std.specs.Option.{option_map};
ghost use Rattle.config_reader.specs.Spoken.{statement_of, block_spoken};
ghost use Rattle.config_reader.specs.Heards.{said_of, head_heard};
ghost use Rattle.config_reader.specs.Drafting as drafting;

use crate::networks::Networks;
use crate::reader::{NamedHead, Said};
use crate::statements::{AddressPrefix, Block, Statement};
use cost_base::{Name, OutOfMemory};
use interface_model::{Interface, Kind};
use std::alloc::Global;
use text_lines::Names;

/// An interface with what its blocks say; whether a `network` line matches one of its addresses, and whether a router
/// block makes it passive.
#[derive(Drop)]
pub(crate) struct Draft {
    pub interface: Interface,
    pub matched: bool,
    pub listed: bool,
}

/// The drafts of interfaces, in the order of their first heads, with their names.
#[derive(Drop)]
pub(crate) struct Drafts<'a> {
    pub names: Names<'a>,
    pub drafts: Vec<Draft>,
}

/// A draft of which nothing is said.
fn new_draft(name: Name, line: u32) -> Draft
    ensures { result ≡ drafting.new_draft (name, line) }
{
    Draft {
        interface: Interface {
            name,
            line,
            address: None,
            length: 0,
            area: None,
            cost: None,
            kind: Kind::Broadcast,
            passive: false,
            down: false,
            priority: 1,
        },
        matched: false,
        listed: false,
    }
}

/// Makes a setting of an interface.
fn set(interface: &mut Interface, statement: Statement<'_>)
    ensures { interface.new ≡ drafting.with_setting (statement_of statement.entry) interface.old }
{
    match statement {
        Statement::Address(address) => set_address(interface, address),
        Statement::Area(area) => interface.area = Some(area),
        Statement::Cost(cost) => interface.cost = Some(cost),
        Statement::Network(kind) => interface.kind = kind,
        Statement::Priority(priority) => interface.priority = priority,
        Statement::Passive(passive) => interface.passive = passive,
        Statement::Down(down) => interface.down = down,
        _ => {}
    }
}

/// Gives an interface its address, where it has none.
fn set_address(interface: &mut Interface, address: AddressPrefix)
    ensures { interface.new ≡ drafting.with_address
        (record { address = address.address; length = address.length }) interface.old.address
        interface.old }
{
    if interface.address.is_none() {
        interface.address = Some(address.address);
        interface.length = address.length;
    }
}

/// Whether a line gives an address that some `network` line matches.
fn is_matched(networks: &Networks, statement: Statement<'_>) -> bool
    ensures { result ≡ drafting.is_matched networks.now (statement_of statement.entry) }
{
    match statement {
        Statement::Address(address) => networks.match_some(address),
        _ => false,
    }
}

/// The name of the interface that a line is about.
fn target<'a>(said: &Said<'a>) -> Option<&'a [u8]>
    ensures { option_map (λ name. name.now) result ≡ drafting.target (block_spoken said.now.block)
        (statement_of said.now.statement) }
{
    match (said.block, said.statement) {
        (Block::Interface(name), _) => Some(name),
        (Block::Router, Statement::PassiveInterface(name)) => Some(name),
        _ => None,
    }
}

/// Adds to a draft what a line about it says.
fn change(draft: &mut Draft, said: &Said<'_>, networks: &Networks)
    ensures { draft.new ≡ drafting.change networks.now (block_spoken said.now.block)
        (statement_of said.now.statement) draft.old }
{
    match said.block {
        Block::Interface(_) => {
            draft.matched = draft.matched || is_matched(networks, said.statement);
            set(&mut draft.interface, said.statement);
        }
        Block::Router => draft.listed = true,
        Block::Other => {}
    }
}

impl<'a> Drafts<'a> {
    /// Adds a draft of which nothing is said, where the name of the head is new.
    fn add(&mut self, alloc: Global, head: NamedHead<'a>) -> Result<(), OutOfMemory>
        ensures drafts { OnOk result (self.new.drafts.items ≡
            (if list_any (same_bytes head.entry.name.now) self.old.names then self.old.drafts.items
            else self.old.drafts.items ++ drafting.new_draft (head_heard head.entry) ∷ [])) }
        ensures names { OnOk result
            (self.new.names ≡ (if list_any (same_bytes head.entry.name.now) self.old.names then
            self.old.names else self.old.names ++ head.entry.name.now ∷ [])) }
    {
        if self.names.add(head.name)? {
            let name = Name::from_bytes(alloc, head.name)?;
            self.drafts.push(new_draft(name, head.line))?;
        }
        Ok(())
    }

    /// A draft for each name of a head, of which nothing is said.
    fn open(alloc: Global, heads: &[NamedHead<'a>]) -> Result<Drafts<'a>, OutOfMemory>
        ensures { IfOk result (IsOpened (map head_heard heads.now)) }
    {
        let mut opened = Drafts {
            names: Names::new(alloc),
            drafts: Vec::new(alloc),
        };
        for head in heads {
            opened.add(alloc, *head)?;
        }
        Ok(opened)
    }

    /// The drafts of the interfaces that have heads, with what the lines say of each.
    pub(crate) fn gather(
        alloc: Global,
        heads: &[NamedHead<'a>],
        said: &[Said<'a>],
        networks: &Networks,
    ) -> Result<Drafts<'a>, OutOfMemory>
        ensures { IfOk result (IsGathered networks.now (map head_heard heads.now)
            (map said_of said.now)) }
    {
        let Drafts { names, mut drafts } = Drafts::open(alloc, heads)?;
        for line in said {
            settle(&names, &mut drafts, line, networks);
        }
        Ok(Drafts { names, drafts })
    }

    /// The draft of a name.
    pub(crate) fn find(&self, name: &'a [u8]) -> Option<&Draft>
        requires { self.now.names ≡ map (λ d. d.interface.name) self.now.drafts.items }
        ensures { option_copied result ≡ drafting.find_draft name.now self.now.drafts.items }
    {
        let place = self.names.place(name)?;
        self.drafts.get(place)
    }
}

/// Adds what a line says to the draft that it is about, if any.
fn settle<'a>(names: &Names<'a>, drafts: &mut Vec<Draft>, said: &Said<'a>, networks: &Networks)
    requires names { names.now ≡ map (λ d. d.interface.name) drafts.old.items }
    requires apart { NamesApart names.now }
    ensures { drafts.new.items ≡ map (drafting.draft_with networks.now (said_of said.now))
        drafts.old.items }
{
    let Some(name) = target(said) else {
        return;
    };
    let Some(place) = names.place(name) else {
        return;
    };
    change(&mut drafts[place], said, networks);
}

/// The interface of a draft. Its area may be by `network` lines, and a router block may make it passive.
fn finished(draft: Draft, networks: &Networks) -> Interface
    ensures { result ≡ drafting.finished networks.now draft }
{
    let mut interface = draft.interface;
    if interface.area.is_none() {
        interface.area = match interface.address {
            Some(address) => networks.area(AddressPrefix {
                address,
                length: interface.length,
            }),
            None => None,
        };
    }
    interface.passive = interface.passive || draft.listed;
    interface
}

/// The interfaces of drafts.
pub(crate) fn finish(
    alloc: Global,
    drafts: Vec<Draft>,
    networks: &Networks,
) -> Result<Vec<Interface>, OutOfMemory>
    ensures { IfOk result (λ v. v.items ≡ map (drafting.finished networks.now) drafts.items) }
{
    let mut interfaces = Vec::new(alloc);
    for draft in drafts {
        interfaces.push(finished(draft, networks))?;
    }
    Ok(interfaces)
}
