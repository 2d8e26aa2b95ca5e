//! The names of the files of a node that lived.
ghost use Rattle.std.specs.Prelude.{◌≡◌, IfOk, option_map};
ghost use Rattle.live_report.specs.Files.{name_of, named, own_files, own_tables};

use base_list::Octets;
use config_text::{Files, Tables};
use node_logs::put_file_host;
use std::alloc::{AllocError, Global};

/// The endings of the names of a node's files.
pub(crate) const CONFIG: &str = ".json";

pub(crate) const PEER: &str = ".peer.tbl";

pub(crate) const CLIENT: &str = ".client.tbl";

pub(crate) const SERVER: &str = ".server.tbl";

pub(crate) const DICTIONARY: &str = ".dict";

/// The name of a node's file with that ending.
pub(crate) fn name_of(alloc: Global, host: &[u8], ending: &str) -> Result<Vec<u8>, AllocError>
    ensures { IfOk result (λ name. name.items ≡ name_of host.now ending.now) }
{
    let mut name = Vec::new(alloc);
    put_file_host(&mut name, host)?;
    name.extend_from_slice(ending.as_bytes())?;
    Ok(name)
}

/// The name of a node's file with that ending, where it names one of that kind.
fn named(
    alloc: Global,
    host: &[u8],
    ending: &str,
    name: Option<&Octets>,
) -> Result<Option<Octets>, AllocError>
    ensures { IfOk result (λ own. own ≡ named host.now ending.now (option_map (λ name. name.now) name.entry)) }
{
    match name {
        Some(_) => Ok(Some(Octets::new(name_of(alloc, host, ending)?))),
        None => Ok(None),
    }
}

/// The names of a node's tables, where it names some.
fn own_tables(alloc: Global, host: &[u8], tables: &Tables) -> Result<Tables, AllocError>
    ensures { IfOk result (λ own. own ≡ own_tables host.now tables.now) }
{
    Ok(Tables {
        peer: named(alloc, host, PEER, tables.peer.as_ref())?,
        client: named(alloc, host, CLIENT, tables.client.as_ref())?,
        server: named(alloc, host, SERVER, tables.server.as_ref())?,
    })
}

/// The names of a node's files, where it names some.
pub fn own_files(alloc: Global, host: &[u8], files: &Files) -> Result<Files, AllocError>
    ensures { IfOk result (λ own. own ≡ own_files host.now files.now) }
{
    Ok(Files {
        tables: own_tables(alloc, host, &files.tables)?,
        dictionary: named(alloc, host, DICTIONARY, files.dictionary.as_ref())?,
    })
}
