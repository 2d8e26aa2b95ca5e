//! What a text is read as, in lines.

use base_list::Octets;
use base_text::put_number;
use config_text::{DeskConfig, NodeConfig, PeerConfig, put_fault, read_config};
use std::alloc::AllocError;

/// Puts octets between two texts.
fn put_between(
    out: &mut Vec<u8>,
    before: &[u8],
    octets: &[u8],
    behind: &[u8],
) -> Result<(), AllocError> {
    out.extend_from_slice(before)?;
    out.extend_from_slice(octets)?;
    out.extend_from_slice(behind)
}

fn put_peer(out: &mut Vec<u8>, peer: &PeerConfig) -> Result<(), AllocError> {
    put_between(out, b"    peer ", peer.host.as_slice(), b" ")?;
    put_between(out, b"", peer.address.as_slice(), b"\n")
}

fn put_desk(out: &mut Vec<u8>, desk: &DeskConfig) -> Result<(), AllocError> {
    put_number(out, b"    desk ", desk.repeat)?;
    out.extend_from_slice(b" times\n")?;
    for line in desk.lines.as_slice() {
        put_between(out, b"      ", line.as_slice(), b"\n")?;
    }
    Ok(())
}

fn put_name(out: &mut Vec<u8>, what: &[u8], name: &Option<Octets>) -> Result<(), AllocError> {
    match name {
        Some(name) => put_between(out, what, name.as_slice(), b"\n"),
        None => Ok(()),
    }
}

fn put_address(out: &mut Vec<u8>, address: [u8; 4]) -> Result<(), AllocError> {
    put_number(out, b" ", u64::from(address[0]))?;
    put_number(out, b".", u64::from(address[1]))?;
    put_number(out, b".", u64::from(address[2]))?;
    put_number(out, b".", u64::from(address[3]))
}

fn put_identity(out: &mut Vec<u8>, node: &NodeConfig) -> Result<(), AllocError> {
    put_between(out, b"  ", node.identity.host.as_slice(), b" ")?;
    out.extend_from_slice(node.identity.realm.as_slice())?;
    put_address(out, node.identity.address)?;
    match &node.listen {
        Some(listen) => put_between(out, b" listens ", listen.as_slice(), b"\n"),
        None => out.extend_from_slice(b" listens nowhere\n"),
    }
}

fn put_numbers(out: &mut Vec<u8>, node: &NodeConfig) -> Result<(), AllocError> {
    put_number(out, b"    ", node.shards)?;
    put_number(out, b" shards, ", node.pages)?;
    put_number(out, b" pages, ", node.default_units)?;
    put_number(out, b" units, ", node.turns)?;
    out.extend_from_slice(b" turns\n")
}

fn put_files(out: &mut Vec<u8>, node: &NodeConfig) -> Result<(), AllocError> {
    let tables = &node.files.tables;
    put_name(out, b"    peer table ", &tables.peer)?;
    put_name(out, b"    client table ", &tables.client)?;
    put_name(out, b"    server table ", &tables.server)?;
    put_name(out, b"    dictionary ", &node.files.dictionary)
}

/// All that a node is opened with.
fn put_node(out: &mut Vec<u8>, node: &NodeConfig) -> Result<(), AllocError> {
    put_identity(out, node)?;
    put_numbers(out, node)?;
    for peer in node.peers.as_slice() {
        put_peer(out, peer)?;
    }
    for account in node.accounts.as_slice() {
        put_number(out, b"    account ", account.id)?;
        put_number(out, b" ", account.given)?;
        out.extend_from_slice(b"\n")?;
    }
    for desk in node.desks.as_slice() {
        put_desk(out, desk)?;
    }
    put_files(out, node)
}

/// The nodes of a text, or what is told of it.
pub(crate) fn put_text(out: &mut Vec<u8>, text: &[u8]) -> Result<(), AllocError> {
    let alloc = *out.allocator();
    match read_config(alloc, text) {
        Ok(nodes) => {
            for node in &nodes {
                put_node(out, node)?;
            }
            Ok(())
        }
        Err(error) => put_fault(out, &error),
    }
}
