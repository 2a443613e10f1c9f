//! The network of files whose configurations have router IDs of their own.
ghost use Rattle.std.specs.Prelude.{◌≡◌, ◌<◌, ◌^◌, [], length};
ghost use Rattle.lsa_bytes.specs.Ids.{first_id_fault};
ghost use Rattle.input_files.specs.Outcomes.{Input, routers_of};
ghost use Rattle.input_files.specs.Readings.{Gave, unless_refused};
ghost use Rattle.input_files.specs.Stops.{IsReadAs, IsRefusal, files_named};
ghost use Rattle.database_commands.specs.Identified.{IsIdentified};
ghost use Rattle.database_commands.specs.Lsas.{id_refused, identified_read};

use cost_base::{Refusal, Shelf};
use input_files::{FileWords, Network, Stop, View, file_of, read_network, stop_of};
use interface_model::RouterConfig;
use lsa_bytes::{IdFault, check_ids};
use std::alloc::Global;

/// The stop of a configuration that has no router ID, or that of an earlier one.
fn stop_of_id(found: IdFault, words: FileWords<'_>) -> Stop<'_>
    ensures { IsRefusal (id_refused (files_named words.entry) found) result }
{
    stop_of(Refusal::at(0, found.fault), file_of(words, found.config))
}

/// Tests that each configuration has a router ID of its own.
fn check_router_ids<'a>(configs: &[RouterConfig], words: FileWords<'a>) -> Result<(), Stop<'a>>
    requires { length configs.now < 2 ^ 32 }
    ensures { (d : Input) → routers_of d.files ≡ configs.now →
        IsReadAs (unless_refused (id_refused (files_named words.entry)) d
        (first_id_fault [] 0 configs.now)) [] (λ _ said. said ≡ d) result }
{
    match check_ids(configs) {
        None => Ok(()),
        Some(found) => Err(stop_of_id(found, words)),
    }
}

/// The network of the files of words at present costs, each of whose configurations has a router ID of its own.
pub fn read_identified<'a, S: Shelf>(
    alloc: Global,
    words: FileWords<'a>,
    shelf: &mut S,
) -> Result<Network, Stop<'a>>
    ensures { Gave (S.gave shelf.old shelf.new) (λ came. IsReadAs
        (identified_read (files_named words.entry)) came (IsIdentified (files_named words.entry))
        result) }
{
    let network = read_network(alloc, View::AtPresent, words, shelf)?;
    match check_router_ids(&network.configs, words) {
        Ok(()) => Ok(network),
        Err(stop) => {
            // For the prover alone: a call drops the network, so that its parts' drops aren't written out at each exit.
            drop(network);
            Err(stop)
        }
    }
}
