//! The files that a node of a CONFIG names, read.
ghost use Rattle.std.specs.Prelude.{◌≡◌, ◌<◌, ◌≤◌, ◌+◌, ◌-◌, ◌*◌, ◌^◌, IfErr, IfOk, OnOk, option_map};
ghost use Rattle.base_device.specs.Inputs.{IsInput};
ghost use Rattle.bench_setup.specs.Halts.{IsHalt, IsNoInput};
ghost use Rattle.bench_setup.specs.Refusals.{IsNoDictionary, IsNoTable, IsShipped};
ghost use Rattle.bench_setup.specs.Setups.{AddsTo, AreTablesFrom, IsBenchFrom};
ghost use Rattle.bench_setup.specs.Setups.{IsDictionaryFrom, IsTableFrom, IsTableOf};

use crate::definitions::definitions_of;
use crate::halt::Halt;
use base_device::{FileSource, MAX_READS, read_input};
use base_list::Octets;
use bench_open::Config;
use config_text::{NodeConfig, RoleTables, config_of};
use dia_dict::Dictionary;
use dict_text::{DictError, read_dictionary, wrong_text};
use fault_text::table_fault;
use role_tables::{CLIENT_TABLE, PEER_TABLE, SERVER_TABLE};
use std::alloc::{AllocError, Global};
use std::str;
use tab_text::{ParseError, Table, parse};

/// The name of a file that CONFIG names: it stands beside CONFIG, unless it begins at the root.
fn path_of(alloc: Global, config: &str, name: &str) -> Result<String, AllocError> {
    if name.starts_with('/') {
        return format!(in alloc; "{name}");
    }
    match config.rsplit_once('/') {
        Some((folder, _)) => format!(in alloc; "{folder}/{name}"),
        None => format!(in alloc; "{name}"),
    }
}

/// Reads a file of that name whole, or standard input.
pub fn read_named<I: FileSource>(
    alloc: Global,
    name: Option<&str>,
    source: &mut I,
) -> Result<Vec<u8>, Halt>
    requires reads { I.reads source.old + MAX_READS < 2 ^ 64 }
    requires failures { I.failures source.old < 2 ^ 64 - 1 }
    ensures reads { I.reads source.new ≤ I.reads source.old + MAX_READS }
    ensures made { I.reads source.old ≤ I.reads source.new }
    ensures read { IfOk result (λ text. IsInput I.remaining I.reads I.failures source.old source.new text.items) }
    ensures halt { IfErr result (IsHalt I.remaining I.reads I.failures source.old source.new) }
{
    match read_input(alloc, name, source) {
        Ok(text) => Ok(text),
        Err(why) => Err(Halt::Unread(copied(alloc, name), why)),
    }
}

/// The text of a file that CONFIG names: it stands beside CONFIG, unless its name begins at the root.
pub fn read_beside<I: FileSource>(
    alloc: Global,
    config: &str,
    name: &Octets,
    source: &mut I,
) -> Result<Vec<u8>, Halt>
    requires reads { I.reads source.old + MAX_READS < 2 ^ 64 }
    requires failures { I.failures source.old < 2 ^ 64 - 1 }
    ensures reads { I.reads source.new ≤ I.reads source.old + MAX_READS }
    ensures made { I.reads source.old ≤ I.reads source.new }
    ensures read { IfOk result (λ text. IsInput I.remaining I.reads I.failures source.old source.new text.items) }
    ensures halt { IfErr result (IsHalt I.remaining I.reads I.failures source.old source.new) }
{
    // A text of JSON is UTF-8.
    let Ok(name) = str::from_utf8(name.as_slice()) else {
        return Err(Halt::NoMemory);
    };
    let path = path_of(alloc, config, name)?;
    read_named(alloc, Some(path.as_str()), source)
}

/// A name in memory of its own, where there is memory: it is only told.
fn copied(alloc: Global, name: Option<&str>) -> Option<String> {
    match String::from_str(alloc, name?) {
        Ok(name) => Some(name),
        Err(_) => None,
    }
}

/// The table of a text.
fn table_of(alloc: Global, text: &[u8]) -> Result<Table, Halt>
    ensures table { IfOk result (IsTableOf text.now) }
    ensures halt { IfErr result (IsNoInput (IsNoTable text.now)) }
{
    match parse(alloc, text) {
        Ok(table) => Ok(table),
        Err(ParseError::NoMemory) => Err(Halt::NoMemory),
        Err(ParseError::Fault(fault)) => Err(Halt::Refused(table_fault(alloc, text, &fault)?)),
    }
}

/// The table that a file holds, or else the shipped one.
fn read_table<I: FileSource>(
    alloc: Global,
    config: &str,
    name: Option<&Octets>,
    shipped: &str,
    source: &mut I,
) -> Result<Table, Halt>
    requires shipped { IsShipped shipped.now }
    requires reads { I.reads source.old + MAX_READS < 2 ^ 64 }
    requires failures { I.failures source.old < 2 ^ 64 - 1 }
    ensures reads { I.reads source.new ≤ I.reads source.old + MAX_READS }
    ensures made { I.reads source.old ≤ I.reads source.new }
    ensures sound { OnOk result (I.failures source.new ≡ I.failures source.old) }
    ensures table { IfOk result (IsTableFrom I.remaining I.reads I.failures (option_map (λ name. name.now) name.entry)
        shipped.now source.old source.new) }
    ensures halt { IfErr result (IsHalt I.remaining I.reads I.failures source.old source.new) }
{
    let Some(name) = name else {
        return table_of(alloc, shipped.as_bytes());
    };
    let text = read_beside(alloc, config, name, source)?;
    table_of(alloc, &text)
}

/// The table of each role.
fn read_tables<I: FileSource>(
    alloc: Global,
    config: &str,
    node: &NodeConfig,
    source: &mut I,
) -> Result<RoleTables, Halt>
    requires reads { I.reads source.old + 3 * MAX_READS < 2 ^ 64 }
    requires failures { I.failures source.old < 2 ^ 64 - 1 }
    ensures reads { I.reads source.new ≤ I.reads source.old + 3 * MAX_READS }
    ensures made { I.reads source.old ≤ I.reads source.new }
    ensures sound { OnOk result (I.failures source.new ≡ I.failures source.old) }
    ensures tables { IfOk result (AreTablesFrom I.remaining I.reads I.failures node.now.files.tables
        source.old source.new) }
    ensures halt { IfErr result (IsHalt I.remaining I.reads I.failures source.old source.new) }
{
    let names = &node.files.tables;
    let peer = read_table(alloc, config, names.peer.as_ref(), PEER_TABLE, source)?;
    let client = read_table(alloc, config, names.client.as_ref(), CLIENT_TABLE, source)?;
    let server = read_table(alloc, config, names.server.as_ref(), SERVER_TABLE, source)?;
    Ok(RoleTables {
        peer,
        client,
        server,
    })
}

/// The definitions that a text adds.
fn dictionary_of(alloc: Global, text: &[u8]) -> Result<Dictionary, Halt>
    ensures dictionary { IfOk result (λ dictionary. AddsTo text.now dictionary) }
    ensures halt { IfErr result (IsNoInput (IsNoDictionary text.now)) }
{
    match read_dictionary(alloc, text) {
        Ok(glossary) => Ok(definitions_of(alloc, &glossary)?),
        Err(DictError::NoMemory) => Err(Halt::NoMemory),
        Err(DictError::Wrong(line)) => Err(Halt::Refused(wrong_text(alloc, &line)?)),
    }
}

/// The dictionary of a file, or else the standard's.
fn read_definitions<I: FileSource>(
    alloc: Global,
    config: &str,
    name: Option<&Octets>,
    source: &mut I,
) -> Result<Dictionary, Halt>
    requires reads { I.reads source.old + MAX_READS < 2 ^ 64 }
    requires failures { I.failures source.old < 2 ^ 64 - 1 }
    ensures reads { I.reads source.new ≤ I.reads source.old + MAX_READS }
    ensures made { I.reads source.old ≤ I.reads source.new }
    ensures sound { OnOk result (I.failures source.new ≡ I.failures source.old) }
    ensures dictionary { IfOk result (IsDictionaryFrom I.remaining I.reads I.failures
        (option_map (λ name. name.now) name.entry) source.old source.new) }
    ensures halt { IfErr result (IsHalt I.remaining I.reads I.failures source.old source.new) }
{
    let Some(name) = name else {
        return Ok(Dictionary::base(alloc)?);
    };
    let text = read_beside(alloc, config, name, source)?;
    dictionary_of(alloc, &text)
}

/// What a bench is opened with, of a node and the files that it names: the table of each role, and then the dictionary.
pub(crate) fn read_bench<I: FileSource>(
    alloc: Global,
    config: &str,
    node: &NodeConfig,
    source: &mut I,
) -> Result<Config, Halt>
    requires reads { I.reads source.old + 4 * MAX_READS < 2 ^ 64 }
    requires failures { I.failures source.old < 2 ^ 64 - 1 }
    ensures reads { I.reads source.new ≤ I.reads source.old + 4 * MAX_READS }
    ensures made { I.reads source.old ≤ I.reads source.new }
    ensures sound { OnOk result (I.failures source.new ≡ I.failures source.old) }
    ensures bench { IfOk result (IsBenchFrom I.remaining I.reads I.failures node.now source.old source.new) }
    ensures halt { IfErr result (IsHalt I.remaining I.reads I.failures source.old source.new) }
{
    let tables = read_tables(alloc, config, node, source)?;
    let dictionary = read_definitions(alloc, config, node.files.dictionary.as_ref(), source)?;
    Ok(config_of(alloc, node, tables, dictionary)?)
}
