//! What a line of a configuration says in its block.
ghost use Rattle.std.specs.Prelude.{◌≡◌, ◌∷◌, [], ◌==◌, ◌&&◌, ◌||◌, nat_le, length, codes, Option, if◌then◌else◌};
ghost use Rattle.cost_base.specs.Lists.{same_bytes};
ghost use Rattle.text_lines.specs.Lines.{words};
ghost use Rattle.text_lines.specs.Numbers as grammar;
ghost use Rattle.config_reader.specs.Statements as definition;
ghost use Rattle.config_reader.specs.Statements.{begin_with, word_at, no, ip_ospf};
ghost use Rattle.config_reader.specs.Spoken.{statement_of, block_spoken};

use crate::ConfigFault;
use interface_model::Kind;
use text_lines::{area, first_word, number, prefix, quad, word_at, word_count};

/// An address with its prefix length.
#[derive(Clone, Copy)]
pub(crate) struct AddressPrefix {
    pub address: u32,
    pub length: u8,
}

/// What a line says.
#[derive(Clone, Copy)]
pub(crate) enum Statement<'a> {
    Address(AddressPrefix),
    Area(u32),
    Cost(u16),
    Network(Kind),
    Priority(u8),
    Passive(bool),
    Down(bool),
    RouterId(u32),
    NetworkArea(AddressPrefix, u32),
    PassiveInterface(&'a [u8]),
    Refused(ConfigFault),
    Unread,
}

/// The block that a head opens.
#[derive(Clone, Copy)]
pub(crate) enum Block<'a> {
    Interface(&'a [u8]),
    Router,
    Other,
}

/// The block that a head opens: `interface NAME` and `router ospf`, each of exactly two words, open a block
/// that is read.
pub(crate) fn block_of(text: &[u8]) -> Block<'_>
    ensures { block_spoken result ≡ definition.block_of (words text.now) }
{
    if word_count(text) == 2 && begins(text, b"interface") {
        Block::Interface(word(text, 1))
    } else if word_count(text) == 2 && begins(text, b"router ospf") {
        Block::Router
    } else {
        Block::Other
    }
}

/// What a line says in its block.
pub(crate) fn statement_in<'a>(block: Block<'a>, text: &'a [u8]) -> Statement<'a>
    ensures { statement_of result ≡ definition.statement_in (block_spoken block.entry)
        (words text.now) }
{
    match block {
        Block::Interface(_) => interface_statement(text),
        Block::Router => router_statement(text),
        Block::Other => Statement::Unread,
    }
}

/// Whether two words are the same bytes.
pub(crate) fn same(first: &[u8], second: &[u8]) -> bool
    ensures { result ≡ same_bytes first.now second.now }
{
    first == second
}

/// Whether a line begins with these words.
pub fn begins(text: &[u8], wanted: &[u8]) -> bool
    ensures { result ≡ begin_with (words wanted.now) (words text.now) }
{
    let mut left = text;
    let mut wanted = wanted;
    while let Some((word, more)) = first_word(wanted) {
        match first_word(left) {
            Some((first, rest)) if same(word, first) => {
                left = rest;
                wanted = more;
            }
            _ => return false,
        }
    }
    true
}

/// The word of a line at a place, counted from 0, or an empty one.
pub fn word(text: &[u8], place: usize) -> &[u8]
    ensures { result.now ≡ word_at (words text.now) place }
{
    match word_at(text, place) {
        Some(word) => word,
        None => &[],
    }
}

/// What a line of a block of `interface NAME` says.
pub(crate) fn interface_statement(text: &[u8]) -> Statement<'_>
    ensures { statement_of result ≡ definition.interface_statement (words text.now) }
{
    if begins(text, b"ip address") {
        address_statement(text)
    } else if begins(text, b"ip ospf area") {
        area_statement(text)
    } else if begins(text, b"ip ospf cost") {
        cost_statement(text)
    } else if begins(text, b"ip ospf network") {
        kind_statement(text)
    } else if begins(text, b"ip ospf priority") {
        priority_statement(text)
    } else {
        switch_statement(text)
    }
}

/// What a line `ip address ..` says.
fn address_statement(text: &[u8]) -> Statement<'_>
    ensures { statement_of result ≡ (if same_bytes (word_at (words text.now) 3) (codes "peer") then
        definition.Refused ConfigFault.Unsupported else definition.address_statement
        (grammar.prefix (word_at (words text.now) 2))) }
{
    if same(word(text, 3), b"peer") {
        return Statement::Refused(ConfigFault::Unsupported);
    }
    match prefix(word(text, 2)) {
        Some((address, length)) => Statement::Address(AddressPrefix { address, length }),
        None => Statement::Refused(ConfigFault::BadAddress),
    }
}

/// A statement of a line that has no word past it.
fn alone(last: bool, statement: Statement<'_>) -> Statement<'_>
    ensures { statement_of result ≡ definition.alone last (statement_of statement.entry) }
{
    if last {
        statement
    } else {
        Statement::Refused(ConfigFault::Unsupported)
    }
}

/// What a line `ip ospf area ..` says.
fn area_statement(text: &[u8]) -> Statement<'_>
    ensures { statement_of result ≡ definition.area_statement (nat_le (length (words text.now)) 4)
        (grammar.area (word_at (words text.now) 3)) }
{
    match area(word(text, 3)) {
        Some(area) => alone(word_count(text) <= 4, Statement::Area(area)),
        None => Statement::Refused(ConfigFault::BadArea),
    }
}

/// What a line `ip ospf cost ..` says: a cost from 1 to 65535.
fn cost_statement(text: &[u8]) -> Statement<'_>
    ensures { statement_of result ≡ definition.cost_statement (nat_le (length (words text.now)) 4)
        (grammar.number (word_at (words text.now) 3) 65535) }
{
    match number(word(text, 3), 65535) {
        None | Some(0) => Statement::Refused(ConfigFault::BadNumber),
        Some(cost) => alone(word_count(text) <= 4, Statement::Cost(cost as u16)),
    }
}

/// What a line `ip ospf network ..` says.
fn kind_statement(text: &[u8]) -> Statement<'_>
    ensures { statement_of result ≡
        (if same_bytes (word_at (words text.now) 3) (codes "point-to-point") then
        definition.KindIs Kind.PointToPoint
        else (if same_bytes (word_at (words text.now) 3) (codes "broadcast") then
        definition.KindIs Kind.Broadcast else definition.Refused ConfigFault.Unsupported)) }
{
    let kind = word(text, 3);
    if same(kind, b"point-to-point") {
        Statement::Network(Kind::PointToPoint)
    } else if same(kind, b"broadcast") {
        Statement::Network(Kind::Broadcast)
    } else {
        Statement::Refused(ConfigFault::Unsupported)
    }
}

/// What a line `ip ospf priority ..` says: a priority from 0 to 255.
fn priority_statement(text: &[u8]) -> Statement<'_>
    ensures { statement_of result ≡ definition.priority_statement
        (nat_le (length (words text.now)) 4) (grammar.number (word_at (words text.now) 3) 255) }
{
    match number(word(text, 3), 255) {
        Some(priority) => alone(word_count(text) <= 4, Statement::Priority(priority as u8)),
        None => Statement::Refused(ConfigFault::BadNumber),
    }
}

/// What a line of a block of `interface NAME` says that sets no address, area, cost, kind and priority.
fn switch_statement(text: &[u8]) -> Statement<'_>
    ensures { statement_of result ≡ definition.switch_statement (words text.now) }
{
    if begins(text, b"ip ospf passive") {
        alone(word_count(text) <= 3, Statement::Passive(true))
    } else if begins(text, b"no ip ospf passive") {
        alone(word_count(text) <= 4, Statement::Passive(false))
    } else if begins(text, b"shutdown") {
        Statement::Down(true)
    } else if begins(text, b"no shutdown") {
        Statement::Down(false)
    } else if is_unsupported(text) {
        Statement::Refused(ConfigFault::Unsupported)
    } else {
        Statement::Unread
    }
}

/// Whether a line of a block of `interface NAME` speaks of a numbered instance, or takes a setting back.
fn is_unsupported(text: &[u8]) -> bool
    ensures { result ≡ definition.is_unsupported (words text.now) }
{
    begins(text, b"ip ospf") && starts_with_digit(word(text, 2))
        || begins(text, b"no ip address")
        || takes_setting_back(text)
}

/// Whether a line of a block of `interface NAME` takes a setting of OSPF back.
fn takes_setting_back(text: &[u8]) -> bool
    ensures { result ≡ definition.takes_setting_back (words text.now) }
{
    begins(text, b"no ip ospf area")
        || begins(text, b"no ip ospf cost")
        || begins(text, b"no ip ospf network")
        || begins(text, b"no ip ospf priority")
}

/// Whether the first byte of a word is a digit.
fn starts_with_digit(word: &[u8]) -> bool
    ensures { result ≡ definition.starts_with_digit word.now }
{
    match word {
        [first, ..] => first.is_ascii_digit(),
        [] => false,
    }
}

/// What a line of a router block says.
pub(crate) fn router_statement(text: &[u8]) -> Statement<'_>
    ensures { statement_of result ≡ definition.router_statement (words text.now) }
{
    if begins(text, b"ospf router-id") {
        router_id_statement(text)
    } else if begins(text, b"network") {
        network_statement(text)
    } else if begins(text, b"passive-interface") {
        passive_statement(text)
    } else if is_unsupported_in_router(text) {
        Statement::Refused(ConfigFault::Unsupported)
    } else {
        Statement::Unread
    }
}

/// What a line `ospf router-id ..` says.
fn router_id_statement(text: &[u8]) -> Statement<'_>
    ensures { statement_of result ≡ definition.router_id_statement
        (grammar.quad (word_at (words text.now) 2)) }
{
    match quad(word(text, 2)) {
        Some(id) => Statement::RouterId(id),
        None => Statement::Refused(ConfigFault::BadAddress),
    }
}

/// What a line `network ..` says.
fn network_statement(text: &[u8]) -> Statement<'_>
    ensures { statement_of result ≡ definition.network_statement
        (grammar.prefix (word_at (words text.now) 1))
        (same_bytes (word_at (words text.now) 2) (codes "area"))
        (grammar.area (word_at (words text.now) 3)) }
{
    let Some((address, length)) = prefix(word(text, 1)) else {
        return Statement::Refused(ConfigFault::BadAddress);
    };
    if !same(word(text, 2), b"area") {
        return Statement::Refused(ConfigFault::BadArea);
    }
    match area(word(text, 3)) {
        Some(area) => Statement::NetworkArea(AddressPrefix { address, length }, area),
        None => Statement::Refused(ConfigFault::BadArea),
    }
}

/// What a line `passive-interface ..` says.
fn passive_statement(text: &[u8]) -> Statement<'_>
    ensures { statement_of result ≡ definition.passive_statement (length (words text.now) == 2)
        (word_at (words text.now) 1) }
{
    let name = word(text, 1);
    if word_count(text) == 2 && !same(name, b"default") {
        Statement::PassiveInterface(name)
    } else {
        Statement::Refused(ConfigFault::Unsupported)
    }
}

/// Whether a line of a router block speaks of a virtual link or of `max-metric`, or takes a line back.
fn is_unsupported_in_router(text: &[u8]) -> bool
    ensures { result ≡ definition.is_unsupported_in_router (words text.now) }
{
    begins(text, b"area") && same(word(text, 2), b"virtual-link")
        || begins(text, b"max-metric")
        || takes_line_back(text)
}

/// Whether a line of a router block takes such a line back.
fn takes_line_back(text: &[u8]) -> bool
    ensures { result ≡ definition.takes_line_back (words text.now) }
{
    begins(text, b"no passive-interface")
        || begins(text, b"no network")
        || begins(text, b"no ospf router-id")
}

/// What a head says by itself.
pub(crate) fn head_statement(text: &[u8]) -> Statement<'_>
    ensures { statement_of result ≡ definition.head_statement (words text.now) }
{
    if is_refused_head(text) {
        Statement::Refused(ConfigFault::Unsupported)
    } else {
        Statement::Unread
    }
}

/// Whether a head is a setting outside of a block, or a router that isn't read.
fn is_refused_head(text: &[u8]) -> bool
    ensures { result ≡ definition.is_refused_head (words text.now) }
{
    if begins(text, b"router ospf") {
        word_count(text) > 2 && !same(word(text, 2), b"vrf")
    } else {
        begins(text, b"ip address") || begins(text, b"ip ospf")
    }
}
