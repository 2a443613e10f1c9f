//! Reading a whole configuration.
ghost use Rattle.std.specs.Prelude.{◌≡◌, ◌-◌, ◌^◌, ◌<◌, ℕ, None, Option, List, length, map, IfOk, IfErr};
ghost use Rattle.std.specs.Option.{option_map};
ghost use Rattle.interface_model.specs.Records.{IsRouter};
ghost use Rattle.config_reader.specs.Configs.{config_of};
ghost use Rattle.config_reader.specs.FaultList.{Fault, config_fault, TellsConfigFault};
ghost use Rattle.config_reader.specs.Heards.{said_of, head_heard, fault_heard};
ghost use Rattle.config_reader.specs.Drafting as drafting;
ghost use Rattle.config_reader.specs.Gathered.{IsGathered};
ghost use Rattle.config_reader.specs.Hearing as hearing;
ghost use Rattle.config_reader.specs.Parts.{IsParts};
ghost use Rattle.text_lines.specs.Lines.{lines};

use crate::ConfigFault;
use crate::drafts::{Drafts, finish};
use crate::faults::{area_twice, earliest, name_fault, router_id, router_name, second_address};
use crate::networks::Networks;
use crate::reader::{LineFault, NamedHead, Parts, Said, read_parts};
use cost_base::{Listed, Name, Refusal};
use interface_model::{Interface, RouterConfig};
use std::alloc::Global;

/// The first fault of a configuration: of a line by itself, of a second address, of a second area or of the name.
fn first_fault<'a>(
    parts: &Parts<'a>,
    networks: &Networks,
    drafts: &Drafts<'a>,
    name: NamedHead<'a>,
) -> Option<LineFault>
    requires { drafts.now.names ≡ map (λ d. d.interface.name) drafts.now.drafts.items }
    ensures { option_map fault_heard result ≡ drafting.earliest
        (drafting.earliest (drafting.earliest (option_map fault_heard parts.now.fault)
        (drafting.first_second drafts.now.drafts.items (map said_of parts.now.said.items)))
        (drafting.first_clash networks.now None drafts.now.drafts.items))
        (drafting.name_fault (head_heard name.entry)) }
{
    let second = earliest(parts.fault, second_address(drafts, &parts.said));
    let twice = earliest(second, area_twice(&drafts.drafts, networks));
    earliest(twice, name_fault(name))
}

/// A router's records.
fn assemble(
    alloc: Global,
    name: &[u8],
    router_id: Option<u32>,
    interfaces: Vec<Interface>,
) -> Result<RouterConfig, Refusal<ConfigFault>>
    requires { IsRouter (record {
      name = name.now;
      router_id = router_id;
      interfaces = interfaces.items;
    }) }
    ensures made { IfOk result (λ r. r ≡ record {
      name = name.now;
      router_id = router_id;
      interfaces = interfaces.items;
    }) }
    ensures refused { IfErr result (λ r. (fault : Option Fault) → TellsConfigFault fault r) }
{
    let name = Name::from_bytes(alloc, name)?;
    Ok(RouterConfig {
        name,
        router_id,
        interfaces: Listed::from_items(interfaces),
    })
}

/// The router of drafts that have no fault.
fn made(
    alloc: Global,
    name: &[u8],
    said: &[Said<'_>],
    networks: &Networks,
    drafts: Drafts<'_>,
) -> Result<RouterConfig, Refusal<ConfigFault>>
    requires { IsRouter (record {
      name = name.now;
      router_id = drafting.id_after None (map said_of said.now);
      interfaces = map (drafting.finished networks.now) drafts.drafts.items;
    }) }
    ensures made { IfOk result (λ r. r ≡ record {
      name = name.now;
      router_id = drafting.id_after None (map said_of said.now);
      interfaces = map (drafting.finished networks.now) drafts.entry.drafts.items;
    }) }
    ensures refused { IfErr result (λ r. (fault : Option Fault) → TellsConfigFault fault r) }
{
    let Drafts { names, drafts } = drafts;
    // For the prover alone: a call drops them, so that their parts' drops aren't written out at each exit.
    drop(names);
    let interfaces = finish(alloc, drafts, networks)?;
    assemble(alloc, name, router_id(said), interfaces)
}

/// The router that is made of what was gathered, or its first fault.
fn checked<'a>(
    alloc: Global,
    file_name: &'a str,
    parts: &Parts<'a>,
    networks: &Networks,
    drafts: Drafts<'a>,
) -> Result<RouterConfig, Refusal<ConfigFault>>
    requires read { (bytes : List ℕ) × IsParts (hearing.heard (lines bytes)) parts.now }
    requires networks { networks.now ≡ drafting.network_lines (map said_of parts.now.said.items) }
    requires drafts { IsGathered networks.now (map head_heard parts.now.heads.items)
        (map said_of parts.now.said.items) drafts }
    ensures made { (bytes : List ℕ) → IsParts (hearing.heard (lines bytes)) parts.now →
        IfOk result (λ r. (config_fault file_name.now bytes ≡ None) ×
        (r ≡ config_of file_name.now bytes)) }
    ensures refused { (bytes : List ℕ) → IsParts (hearing.heard (lines bytes)) parts.now →
        IfErr result (TellsConfigFault (config_fault file_name.now bytes)) }
{
    let name = router_name(parts.hostname, file_name.as_bytes());
    if let Some(fault) = first_fault(parts, networks, &drafts, name) {
        // For the prover alone: a call drops them, so that their parts' drops aren't written out at each exit.
        drop(drafts);
        return Err(Refusal::at(fault.line, fault.fault));
    }
    made(alloc, name.name, &parts.said, networks, drafts)
}

/// The router of whose configuration these parts were kept, or its first fault.
fn gathered<'a>(
    alloc: Global,
    file_name: &'a str,
    parts: &Parts<'a>,
) -> Result<RouterConfig, Refusal<ConfigFault>>
    requires { (bytes : List ℕ) × IsParts (hearing.heard (lines bytes)) parts.now }
    ensures made { (bytes : List ℕ) → IsParts (hearing.heard (lines bytes)) parts.now →
        IfOk result (λ r. (config_fault file_name.now bytes ≡ None) ×
        (r ≡ config_of file_name.now bytes)) }
    ensures refused { (bytes : List ℕ) → IsParts (hearing.heard (lines bytes)) parts.now →
        IfErr result (TellsConfigFault (config_fault file_name.now bytes)) }
{
    let networks = Networks::among(alloc, &parts.said)?;
    let drafts = Drafts::gather(alloc, &parts.heads, &parts.said, &networks)?;
    checked(alloc, file_name, parts, &networks, drafts)
}

/// Reads the configuration of a router: `file_name` names the router where no `hostname` line does.
///
/// # Errors
///
/// `Refused` with the first fault of the lines, in the order of lines and, on one line, of numbers; a name that is
/// taken from the file's name has line 0. `OutOfMemory` where a list got no memory.
pub fn read_config(
    alloc: Global,
    file_name: &str,
    bytes: &[u8],
) -> Result<RouterConfig, Refusal<ConfigFault>>
    requires few { length bytes.now < 2 ^ 32 - 1 }
    ensures made { IfOk result (λ r. (config_fault file_name.now bytes.now ≡ None) ×
        (r ≡ config_of file_name.now bytes.now)) }
    ensures refused { IfErr result (TellsConfigFault (config_fault file_name.now bytes.now)) }
{
    let parts = read_parts(alloc, bytes)?;
    gathered(alloc, file_name, &parts)
}
