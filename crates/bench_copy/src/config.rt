//! What a bench is opened with, copied: a bench that runs is opened with one, and its parts are gathered on the other.
#![tactic(auto, using(crate::proofs::CopyLemmas::copying))]

ghost use Rattle.std.specs.Prelude.{◌≡◌, ◌++◌, ◌∷◌, [], IfOk, IfSome, None, OnOk};
ghost use Rattle.bench_copy.specs.Copied.{Adds, IsCopied, IsCopy, IsLong, IsUncopied, IsWide, front_to};

use base_list::Octets;
use bench_open::Config;
use dia_dict::{Dictionary, MAX_DEFINITIONS};
use dia_write::Identity;
use std::alloc::{AllocError, Global};
use std::str;
use tab_print::print;
use tab_text::{MAX_TEXT, ParseError, Table, parse};

/// Adds a copy of a host.
fn add_host(alloc: Global, copies: &mut Vec<Octets>, host: &Octets) -> Result<(), AllocError>
    ensures { OnOk result (copies.new.items ≡ copies.old.items ++ host.now ∷ []) }
{
    let copy = host.copy(alloc)?;
    copies.push(copy)?;
    Ok(())
}

/// The same hosts.
fn copy_hosts(alloc: Global, hosts: &[Octets]) -> Result<Vec<Octets>, AllocError>
    ensures { IfOk result (λ copies. copies.items ≡ hosts.now) }
{
    let mut copies = Vec::new(alloc);
    for host in hosts {
        add_host(alloc, &mut copies, host)?;
    }
    Ok(copies)
}

/// The same table, read from its text, in which its rows may stand on other lines; none where the text is longer than
/// one may be.
fn copy_table(alloc: Global, table: &Table) -> Result<Option<Table>, AllocError>
    ensures same { IfOk result (λ copy. IfSome copy (IsCopy table.now)) }
    ensures none { IfOk result (λ copy. copy ≡ None → IsLong table.now) }
{
    let text = print(alloc, table)?;
    if text.len() > MAX_TEXT {
        return Ok(None);
    }
    match parse(alloc, &text) {
        Ok(copy) => Ok(Some(copy)),
        Err(ParseError::NoMemory) => Err(AllocError),
        Err(ParseError::Fault(_)) => Ok(None),
    }
}

/// Adds the definition at a place of a dictionary to another, if it lacks one at that place. Says whether there is one.
fn add_at(copy: &mut Dictionary, dictionary: &Dictionary, place: usize) -> Result<bool, AllocError>
    requires { copy.old ≡ front_to dictionary.now place }
    ensures { IfOk result (Adds dictionary.now place copy.new) }
{
    let Some(own) = dictionary.at(place) else {
        return Ok(false);
    };
    if copy.at(place).is_some() {
        return Ok(true);
    }
    // A name was text as it was added, and is refused for want of memory alone.
    let Ok(name) = str::from_utf8(own.name.as_slice()) else {
        return Err(AllocError);
    };
    match copy.add(own.code, own.vendor, name, own.kind) {
        Ok(()) => Ok(true),
        Err(_) => Err(AllocError),
    }
}

/// The same dictionary.
fn copy_dictionary(alloc: Global, dictionary: &Dictionary) -> Result<Option<Dictionary>, AllocError>
    ensures same { IfOk result (λ copy. IfSome copy (λ c. c ≡ dictionary.now)) }
    ensures none { IfOk result (λ copy. copy ≡ None → IsWide dictionary.now) }
{
    let mut copy = Dictionary::base(alloc)?;
    for place in 0..MAX_DEFINITIONS + 1 {
        if !add_at(&mut copy, dictionary, place)? {
            return Ok(Some(copy));
        }
    }
    Ok(None)
}

/// The same identity.
fn copy_identity(alloc: Global, identity: &Identity) -> Result<Identity, AllocError>
    ensures { IfOk result (λ copy. copy ≡ identity.now) }
{
    Ok(Identity {
        host: identity.host.copy(alloc)?,
        realm: identity.realm.copy(alloc)?,
        address: identity.address,
    })
}

/// The same of all that a bench is opened with; in its tables rows may stand on other lines. None only where a table's
/// text is longer than one may be, or the dictionary has more definitions.
pub fn copy_config(alloc: Global, config: &Config) -> Result<Option<Config>, AllocError>
    ensures same { IfOk result (λ copy. IfSome copy (IsCopied config.now)) }
    ensures none { IfOk result (λ copy. copy ≡ None → IsUncopied config.now) }
{
    let Some(peer) = copy_table(alloc, &config.peer)? else {
        return Ok(None);
    };
    let Some(client) = copy_table(alloc, &config.client)? else {
        return Ok(None);
    };
    let Some(server) = copy_table(alloc, &config.server)? else {
        return Ok(None);
    };
    let Some(dictionary) = copy_dictionary(alloc, &config.dictionary)? else {
        return Ok(None);
    };
    Ok(Some(Config {
        identity: copy_identity(alloc, &config.identity)?,
        peers: copy_hosts(alloc, &config.peers)?,
        accounts: Vec::from_slice(alloc, &config.accounts)?,
        shards: config.shards,
        pages: config.pages,
        desks: config.desks,
        default_units: config.default_units,
        dictionary,
        peer,
        client,
        server,
    }))
}
