//! Peers, accounts, desks and addresses.
ghost use Rattle.std.specs.Prelude.{◌≡◌, ◌++◌, OnOk, flat_map};
ghost use Rattle.config_json.specs.Json.{account_item, accounts_text, address_text, desk_item, desks_text};
ghost use Rattle.config_json.specs.Json.{line_item, lines_text, numbers_text, peer_item, peers_text};

use crate::json::{put_bracketed, put_string};
use base_list::Octets;
use base_text::put_number;
use bench_open::Account;
use config_text::{DeskConfig, PeerConfig};
use std::alloc::{AllocError, Global};

/// Puts numbers, each behind a dot.
fn put_numbers(out: &mut Vec<u8>, numbers: &[u8]) -> Result<(), AllocError>
    ensures { OnOk result (out.new.items ≡ out.old.items ++ numbers_text numbers.now) }
{
    for number in numbers {
        put_number(out, b".", u64::from(*number))?;
    }
    Ok(())
}

/// Puts a label and an address.
#[tactic(auto, unfolding(crate::specs::Json::address_text))]
pub(crate) fn put_address(
    alloc: Global,
    out: &mut Vec<u8>,
    label: &[u8],
    address: &[u8],
) -> Result<(), AllocError>
    ensures { OnOk result (out.new.items ≡ out.old.items ++ label.now ++ address_text address.now) }
{
    let mut numbers = Vec::new(alloc);
    put_numbers(&mut numbers, address)?;
    out.extend_from_slice(label)?;
    out.extend_from_slice(b"\"")?;
    out.extend_from_slice(&numbers[numbers.len().min(1)..])?;
    out.extend_from_slice(b"\"")
}

/// Puts a peer behind a comma.
fn put_peer(out: &mut Vec<u8>, peer: &PeerConfig) -> Result<(), AllocError>
    ensures { OnOk result (out.new.items ≡ out.old.items ++ peer_item peer.now) }
{
    put_string(out, b", {\"host\": ", peer.host.as_slice())?;
    put_string(out, b", \"address\": ", peer.address.as_slice())?;
    out.extend_from_slice(b"}")
}

/// Puts peers, each behind a comma.
fn put_peer_items(out: &mut Vec<u8>, peers: &[PeerConfig]) -> Result<(), AllocError>
    ensures { OnOk result (out.new.items ≡ out.old.items ++ flat_map peer_item peers.now) }
{
    for peer in peers {
        put_peer(out, peer)?;
    }
    Ok(())
}

/// Puts a label and the list of peers.
pub(crate) fn put_peers(
    alloc: Global,
    out: &mut Vec<u8>,
    label: &[u8],
    peers: &[PeerConfig],
) -> Result<(), AllocError>
    ensures { OnOk result (out.new.items ≡ out.old.items ++ label.now ++ peers_text peers.now) }
{
    let mut items = Vec::new(alloc);
    put_peer_items(&mut items, peers)?;
    put_bracketed(out, label, &items)
}

/// Puts an account behind a comma.
fn put_account(out: &mut Vec<u8>, account: &Account) -> Result<(), AllocError>
    ensures { OnOk result (out.new.items ≡ out.old.items ++ account_item account.now) }
{
    put_number(out, b", {\"id\": ", account.id)?;
    put_number(out, b", \"given\": ", account.given)?;
    out.extend_from_slice(b"}")
}

/// Puts accounts, each behind a comma.
fn put_account_items(out: &mut Vec<u8>, accounts: &[Account]) -> Result<(), AllocError>
    ensures { OnOk result (out.new.items ≡ out.old.items ++ flat_map account_item accounts.now) }
{
    for account in accounts {
        put_account(out, account)?;
    }
    Ok(())
}

/// Puts a label and the list of accounts.
pub(crate) fn put_accounts(
    alloc: Global,
    out: &mut Vec<u8>,
    label: &[u8],
    accounts: &[Account],
) -> Result<(), AllocError>
    ensures { OnOk result (out.new.items ≡ out.old.items ++ label.now ++ accounts_text accounts.now) }
{
    let mut items = Vec::new(alloc);
    put_account_items(&mut items, accounts)?;
    put_bracketed(out, label, &items)
}

/// Puts what a desk tells, each line behind a comma.
fn put_line_items(out: &mut Vec<u8>, lines: &[Octets]) -> Result<(), AllocError>
    ensures { OnOk result (out.new.items ≡ out.old.items ++ flat_map line_item lines.now) }
{
    for line in lines {
        put_string(out, b", ", line.as_slice())?;
    }
    Ok(())
}

/// Puts a label and the list of what a desk tells.
fn put_lines(
    alloc: Global,
    out: &mut Vec<u8>,
    label: &[u8],
    lines: &[Octets],
) -> Result<(), AllocError>
    ensures { OnOk result (out.new.items ≡ out.old.items ++ label.now ++ lines_text lines.now) }
{
    let mut items = Vec::new(alloc);
    put_line_items(&mut items, lines)?;
    put_bracketed(out, label, &items)
}

/// Puts a desk behind a comma.
fn put_desk(alloc: Global, out: &mut Vec<u8>, desk: &DeskConfig) -> Result<(), AllocError>
    ensures { OnOk result (out.new.items ≡ out.old.items ++ desk_item desk.now) }
{
    put_number(out, b", {\"repeat\": ", desk.repeat)?;
    put_lines(alloc, out, b", \"lines\": ", desk.lines.as_slice())?;
    out.extend_from_slice(b"}")
}

/// Puts desks, each behind a comma.
fn put_desk_items(alloc: Global, out: &mut Vec<u8>, desks: &[DeskConfig]) -> Result<(), AllocError>
    ensures { OnOk result (out.new.items ≡ out.old.items ++ flat_map desk_item desks.now) }
{
    for desk in desks {
        put_desk(alloc, out, desk)?;
    }
    Ok(())
}

/// Puts a label and the list of desks.
pub(crate) fn put_desks(
    alloc: Global,
    out: &mut Vec<u8>,
    label: &[u8],
    desks: &[DeskConfig],
) -> Result<(), AllocError>
    ensures { OnOk result (out.new.items ≡ out.old.items ++ label.now ++ desks_text desks.now) }
{
    let mut items = Vec::new(alloc);
    put_desk_items(alloc, &mut items, desks)?;
    put_bracketed(out, label, &items)
}
