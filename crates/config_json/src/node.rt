//! A node of a CONFIG as text.
ghost use Rattle.std.specs.Prelude.{◌≡◌, ◌++◌, OnOk};
ghost use Rattle.config_json.specs.Json.{config_json, counts_text, files_text, identity_text, lists_text};

use crate::json::{put_string, put_string_or_null};
use crate::parts::{put_accounts, put_address, put_desks, put_peers};
use base_text::put_number;
use config_text::{Files, NodeConfig};
use dia_write::Identity;
use std::alloc::{AllocError, Global};

/// Puts who a node is.
#[tactic(auto, unfolding(crate::specs::Json::identity_text))]
fn put_identity(alloc: Global, out: &mut Vec<u8>, identity: &Identity) -> Result<(), AllocError>
    ensures { OnOk result (out.new.items ≡ out.old.items ++ identity_text identity.now) }
{
    put_string(out, b"\"host\": ", identity.host.as_slice())?;
    put_string(out, b",\n    \"realm\": ", identity.realm.as_slice())?;
    put_address(alloc, out, b",\n    \"address\": ", &identity.address)
}

/// Puts the lists of a node.
#[tactic(auto, unfolding(crate::specs::Json::lists_text))]
fn put_lists(alloc: Global, out: &mut Vec<u8>, node: &NodeConfig) -> Result<(), AllocError>
    ensures { OnOk result (out.new.items ≡ out.old.items ++ lists_text node.now) }
{
    put_peers(alloc, out, b",\n    \"peers\": ", node.peers.as_slice())?;
    put_accounts(
        alloc,
        out,
        b",\n    \"accounts\": ",
        node.accounts.as_slice(),
    )?;
    put_desks(alloc, out, b",\n    \"desks\": ", node.desks.as_slice())
}

/// Puts the numbers of a node.
#[tactic(auto, unfolding(crate::specs::Json::counts_text))]
fn put_counts(out: &mut Vec<u8>, node: &NodeConfig) -> Result<(), AllocError>
    ensures { OnOk result (out.new.items ≡ out.old.items ++ counts_text node.now) }
{
    put_number(out, b",\n    \"shards\": ", node.shards)?;
    put_number(out, b",\n    \"pages\": ", node.pages)?;
    put_number(out, b",\n    \"default_units\": ", node.default_units)?;
    put_number(out, b",\n    \"turns\": ", node.turns)
}

/// Puts the files that a node names.
#[tactic(auto, unfolding(crate::specs::Json::files_text))]
fn put_files(out: &mut Vec<u8>, files: &Files) -> Result<(), AllocError>
    ensures { OnOk result (out.new.items ≡ out.old.items ++ files_text files.now) }
{
    let tables = &files.tables;
    put_string_or_null(out, b",\n    \"tables\": {\"peer\": ", tables.peer.as_ref())?;
    put_string_or_null(out, b", \"client\": ", tables.client.as_ref())?;
    put_string_or_null(out, b", \"server\": ", tables.server.as_ref())?;
    put_string_or_null(out, b"},\n    \"dictionary\": ", files.dictionary.as_ref())
}

/// Puts a CONFIG of one node, which names these files in place of its own.
pub fn put_config(
    alloc: Global,
    out: &mut Vec<u8>,
    node: &NodeConfig,
    files: &Files,
) -> Result<(), AllocError>
    ensures { OnOk result (out.new.items ≡ out.old.items ++ config_json node.now files.now) }
{
    out.extend_from_slice(b"{\"nodes\": [{\n    ")?;
    put_identity(alloc, out, &node.identity)?;
    put_string_or_null(out, b",\n    \"listen\": ", node.listen.as_ref())?;
    put_lists(alloc, out, node)?;
    put_counts(out, node)?;
    put_files(out, files)?;
    out.extend_from_slice(b"\n}]}\n")
}
