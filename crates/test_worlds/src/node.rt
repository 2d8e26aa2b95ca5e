//! Nodes that are opened, in few words.

use base_list::Octets;
use base_text::number_of;
use bench_open::{Account, Config};
use dia_dict::{AvpKind, Dictionary};
use dia_write::Identity;
use role_tables::{CLIENT_TABLE, PEER_TABLE};
use std::alloc::{AllocError, Global};
use tab_text::{ParseError, Table, parse};

/// What a word of a node's line says, `NAME=TEXT`; nothing where no word has that name.
pub fn said<'a>(line: &'a str, name: &str) -> &'a str {
    for word in line.split(' ') {
        if let Some((key, text)) = word.split_once('=')
            && key == name
        {
            return text;
        }
    }
    ""
}

/// A number that a word of a node's line says, 0 where none does.
pub fn number_said(line: &str, name: &str) -> u64 {
    number_of(said(line, name).as_bytes()).unwrap_or(0)
}

/// The head of a table of many rows.
const HEAD: &str =
    "  State  Event                            Action                                      Next\n";

/// A row that takes no request: none is both a repetition and old.
const NEVER: &str =
    "  Idle   Initial when repeat and old      Snd-CCA                                     Idle\n";

/// Two rows that are taken.
const TAKEN: &str =
    "  Idle   Initial when enough              Open-Account, Reserve, Snd-CCA, Start-Tcc   Open
  Open   Tcc                              Release, Close                              Idle
";

/// A table of so many rows, at least two: all but the last two are never taken.
pub fn long_table(alloc: Global, rows: u64) -> Result<String, AllocError> {
    let mut text = String::new(alloc);
    text.push_str(HEAD)?;
    for _ in 2..rows {
        text.push_str(NEVER)?;
    }
    text.push_str(TAKEN)?;
    Ok(text)
}

/// A table's text; the one line and code of its fault, or memory.
fn table_of(alloc: Global, text: &str) -> Result<Table, NodeError> {
    match parse(alloc, text.as_bytes()) {
        Ok(table) => Ok(table),
        Err(ParseError::Fault(fault)) => Err(NodeError::Table(fault.line, fault.code.number())),
        Err(_) => Err(NodeError::NoMemory),
    }
}

/// Why a node is not made.
#[derive(Drop)]
pub enum NodeError {
    /// Its table has a fault: the line and the code.
    Table(usize, u8),
    /// Memory is wanting, or the dictionary has no room.
    NoMemory,
}

impl From<AllocError> for NodeError {
    fn from(_: AllocError) -> NodeError {
        NodeError::NoMemory
    }
}

/// The names of peers, between commas.
fn peers_of(alloc: Global, words: &str) -> Result<Vec<Octets>, AllocError> {
    let mut peers = Vec::new(alloc);
    for host in words.split(',') {
        if !host.is_empty() {
            peers.push(Octets::from_slice(alloc, host.as_bytes())?)?;
        }
    }
    Ok(peers)
}

/// Accounts, `NUMBER:GIVEN` between commas.
fn accounts_of(alloc: Global, words: &str) -> Result<Vec<Account>, AllocError> {
    let mut accounts = Vec::new(alloc);
    for word in words.split(',') {
        if let Some((id, given)) = word.split_once(':') {
            accounts.push(Account {
                id: number_of(id.as_bytes()).unwrap_or(0),
                given: number_of(given.as_bytes()).unwrap_or(0),
            })?;
        }
    }
    Ok(accounts)
}

/// The shipped dictionary, and the AVP that a word names where one does.
fn dictionary_of(alloc: Global, code: &str) -> Result<Dictionary, NodeError> {
    let mut dictionary = Dictionary::base(alloc)?;
    if let Some(code) = number_of(code.as_bytes()) {
        let code = code.min(0xffff_ffff) as u32;
        if dictionary
            .add(code, None, "Test", AvpKind::Unsigned32)
            .is_err()
        {
            return Err(NodeError::NoMemory);
        }
    }
    Ok(dictionary)
}

/// What the node of a line is opened with; its servers have the table of that text. Its realm is example.
pub fn config_of(alloc: Global, line: &str, server: &str) -> Result<Config, NodeError> {
    let identity = Identity {
        host: Octets::from_slice(alloc, said(line, "host").as_bytes())?,
        realm: Octets::from_slice(alloc, b"example")?,
        address: [192, 0, 2, 1],
    };
    let peers = peers_of(alloc, said(line, "peers"))?;
    let accounts = accounts_of(alloc, said(line, "accounts"))?;
    Ok(Config {
        identity,
        peers,
        accounts,
        shards: number_said(line, "shards"),
        pages: number_said(line, "pages"),
        desks: number_said(line, "desks"),
        default_units: 500,
        dictionary: dictionary_of(alloc, said(line, "knows"))?,
        peer: table_of(alloc, PEER_TABLE)?,
        client: table_of(alloc, CLIENT_TABLE)?,
        server: table_of(alloc, server)?,
    })
}
