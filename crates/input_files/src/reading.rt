//! Reading the files that words name, in their order.
ghost use Rattle.std.specs.Prelude.{◌≡◌, ℕ, List, ◌≤◌, ◌<◌, ◌^◌, IfOk, length};
ghost use Rattle.config_reader.specs.Configs.{config_of};
ghost use Rattle.text_lines.specs.Arguments.{texts};
ghost use Rattle.input_files.specs.Readings.{Gave};
ghost use Rattle.input_files.specs.Outcomes.{longest_answer, file_read, request_read, configs_read, config_read, routers_of};
ghost use Rattle.input_files.specs.Stops.{IsReadAs, file_stop};

use crate::stop::{FileFault, Stop, said_or_stop, stop_of};
use cost_base::{Refusal, Shelf, ShelfStop};
use interface_model::RouterConfig;
use request_reader::{RequestFile, read_request_file};
use std::alloc::Global;
use std::marker::Model;

/// The files that words name: a request file, and configurations in their order.
#[derive(Clone, Copy)]
pub struct FileWords<'a> {
    /// The request file.
    pub request: &'a str,
    /// The configurations.
    pub configs: &'a [String],
}

/// The greatest length of a request file and of a configuration: 4 MiB.
const LONGEST_FILE: usize = 4_194_304;

/// The greatest length of an answer's file: 1 GiB.
const LONGEST_ANSWER: usize = 1_073_741_824;

/// The stop of a file that wasn't read.
fn stop_of_file(stop: ShelfStop, file: &str) -> Stop<'_>
    ensures { result ≡ file_stop stop file.entry }
{
    match stop {
        ShelfStop::Failed => Stop::ReadFault { file },
        ShelfStop::TooLong => stop_of(Refusal::at(0, FileFault::TooLong), file),
        ShelfStop::OutOfMemory => Stop::OutOfMemory,
    }
}

/// The bytes of a file, of which there are at most so many.
///
/// # Errors
///
/// `Stop`: the file failed or is too long; want of memory.
pub fn read_file<'a, S: Shelf>(
    alloc: Global,
    shelf: &mut S,
    name: &'a str,
    most: usize,
) -> Result<Vec<u8>, Stop<'a>>
    requires { most < 2 ^ 31 }
    ensures read { Gave (S.gave shelf.old shelf.new) (λ came. IsReadAs (file_read most name.now)
        came (λ bytes read. bytes.items ≡ read) result) }
    ensures within { IfOk result (λ bytes. length bytes.items ≤ most) }
{
    let mut bytes = Vec::new(alloc);
    match shelf.take(name, most, &mut bytes) {
        Ok(()) => Ok(bytes),
        Err(stop) => Err(stop_of_file(stop, name)),
    }
}

/// What the request file asks for.
pub(crate) fn read_request<'a, S: Shelf>(
    alloc: Global,
    shelf: &mut S,
    name: &'a str,
) -> Result<RequestFile, Stop<'a>>
    ensures { Gave (S.gave shelf.old shelf.new) (λ came. IsReadAs (request_read name.now) came
        (λ r asked. r ≡ asked) result) }
{
    let bytes = read_file(alloc, shelf, name, LONGEST_FILE)?;
    said_or_stop(read_request_file(alloc, &bytes), name)
}

/// A configuration without a fault: its file's name, its bytes, and what it says. Contracts see the name and the bytes.
#[derive(Drop)]
pub struct ConfigText<'a> {
    /// The file's name.
    pub name: &'a str,
    /// Its bytes.
    pub bytes: Vec<u8>,
    router: RouterConfig,
}

impl<'a> Model for ConfigText<'a> {
    ghost use Rattle.input_files.specs.Outcomes.{ConfigFile};
    ghost use Rattle.input_files.specs.Configs.{IsConfigText};

    ghost Value = { ConfigFile };

    ghost view = { λ text. record { name = text.name.now; bytes = text.bytes.items } };

    ghost invariant = { λ text. IsConfigText text.name.now text.bytes.items text.router };
}

impl<'a> ConfigText<'a> {
    /// The router that the configuration says.
    pub fn said(&self) -> &RouterConfig
        ensures { result.now ≡ config_of self.now.name self.now.bytes }
    {
        &self.router
    }
}

/// The text of a configuration without a fault.
///
/// # Errors
///
/// `Stop`: the file failed, is too long, or has a fault; want of memory.
pub fn read_config_text<'a, S: Shelf>(
    alloc: Global,
    shelf: &mut S,
    name: &'a str,
) -> Result<ConfigText<'a>, Stop<'a>>
    ensures { Gave (S.gave shelf.old shelf.new) (λ came. IsReadAs (config_read name.now) came
        (λ text file. text ≡ file) result) }
{
    let bytes = read_file(alloc, shelf, name, LONGEST_FILE)?;
    match config_reader::read_config(alloc, name, &bytes) {
        Ok(router) => Ok(ConfigText {
            name,
            bytes,
            router,
        }),
        Err(refusal) => Err(stop_of(refusal, name)),
    }
}

/// What a configuration says.
pub(crate) fn read_config<'a, S: Shelf>(
    alloc: Global,
    shelf: &mut S,
    name: &'a str,
) -> Result<RouterConfig, Stop<'a>>
    ensures { Gave (S.gave shelf.old shelf.new) (λ came. IsReadAs (config_read name.now) came
        (λ r file. r ≡ config_of file.name file.bytes) result) }
{
    let text = read_config_text(alloc, shelf, name)?;
    Ok(text.router)
}

/// What the configurations say, in their order.
pub(crate) fn read_configs<'a, S: Shelf>(
    alloc: Global,
    shelf: &mut S,
    names: &'a [String],
) -> Result<Vec<RouterConfig>, Stop<'a>>
    ensures { Gave (S.gave shelf.old shelf.new) (λ came. IsReadAs (configs_read (texts names.now))
        came (λ configs files. configs.items ≡ routers_of files) result) }
{
    let mut configs = Vec::new(alloc);
    for name in names {
        let config = read_config(alloc, shelf, name.as_str())?;
        match configs.push(config) {
            Ok(()) => {}
            Err(_) => return Err(Stop::OutOfMemory),
        }
    }
    Ok(configs)
}

/// The bytes of an answer's file.
///
/// # Errors
///
/// `Stop`: the file failed or is too long; want of memory.
pub fn read_answer_file<'a, S: Shelf>(
    alloc: Global,
    shelf: &mut S,
    name: &'a str,
) -> Result<Vec<u8>, Stop<'a>>
    ensures read { Gave (S.gave shelf.old shelf.new) (λ came. IsReadAs
        (file_read longest_answer name.now) came (λ bytes read. bytes.items ≡ read) result) }
    ensures within { IfOk result (λ bytes. length bytes.items ≤ longest_answer) }
{
    read_file(alloc, shelf, name, LONGEST_ANSWER)
}
