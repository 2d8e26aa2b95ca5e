//! What is printed of a node.
ghost use Rattle.std.specs.Prelude.{◌≡◌, ◌++◌, ◌∷◌, [], IfOk, OnOk, codes, map};
ghost use Rattle.hex.specs.Hex.{encode_lower};
ghost use Rattle.live_report.specs.Reports.{fault_text, ids_of, node_text, report_text, standing_text, unwritten_text};
ghost use Rattle.step_text.specs.Names.{shown, shown_octet};

use crate::fault::LifeFault;
use base_text::{put_hex, put_number};
use bench_open::Account;
use bench_script::put_totals;
use node_logs::Core;
use std::alloc::{AllocError, Global};
use step_text::is_plain;

/// Puts `%` and the two digits of an octet.
fn put_digits(out: &mut Vec<u8>, octet: u8) -> Result<(), AllocError>
    ensures { OnOk result (out.new.items ≡ out.old.items ++ 37 ∷ encode_lower (octet ∷ [])) }
{
    out.extend_from_slice(b"%")?;
    put_hex(out, &[octet])
}

/// Puts an octet of a host.
fn put_octet(out: &mut Vec<u8>, octet: u8) -> Result<(), AllocError>
    ensures { OnOk result (out.new.items ≡ out.old.items ++ shown_octet octet) }
{
    if is_plain(octet) {
        return out.extend_from_slice(&[octet]);
    }
    put_digits(out, octet)
}

/// Puts a host as a word.
pub fn put_host(out: &mut Vec<u8>, host: &[u8]) -> Result<(), AllocError>
    ensures { OnOk result (out.new.items ≡ out.old.items ++ shown host.now) }
{
    for octet in host {
        put_octet(out, *octet)?;
    }
    Ok(())
}

/// The numbers of accounts.
fn numbers_of(alloc: Global, accounts: &[Account]) -> Result<Vec<u64>, AllocError>
    ensures { IfOk result (λ numbers. numbers.items ≡ map (λ account. account.id) accounts.now) }
{
    accounts.iter().map(|account| account.id).collect(alloc)
}

/// The numbers of the accounts that a bench was opened with.
fn ids_of(alloc: Global, core: &Core) -> Result<Vec<u64>, AllocError>
    ensures { IfOk result (λ ids. ids.items ≡ ids_of core.now) }
{
    numbers_of(alloc, core.accounts())
}

/// Puts how many entries a node's log has, or that its threads have none together.
fn put_standing(
    out: &mut Vec<u8>,
    host: &[u8],
    core: &Core,
    fault: Option<LifeFault>,
) -> Result<(), AllocError>
    ensures { OnOk result (out.new.items ≡ out.old.items ++ standing_text core.now host.now fault) }
{
    out.extend_from_slice(b"node ")?;
    put_host(out, host)?;
    if let Some(LifeFault::Disagreed) = fault {
        return out.extend_from_slice(b" disagree\n");
    }
    put_number(out, b" ok ", core.place() as u64)?;
    out.extend_from_slice(b"\n")
}

/// Puts the same, and what stands on its accounts.
fn put_report(
    alloc: Global,
    out: &mut Vec<u8>,
    host: &[u8],
    core: &Core,
    fault: Option<LifeFault>,
) -> Result<(), AllocError>
    ensures { OnOk result (out.new.items ≡ out.old.items ++ report_text core.now host.now fault) }
{
    let ids = ids_of(alloc, core)?;
    put_standing(out, host, core, fault)?;
    put_totals(out, core, &ids)
}

/// Puts a line of a node: what is told of its host.
fn put_line(out: &mut Vec<u8>, host: &[u8], told: &[u8]) -> Result<(), AllocError>
    ensures { OnOk result (out.new.items ≡ out.old.items ++ codes "node " ++ shown host.now ++ told.now) }
{
    out.extend_from_slice(b"node ")?;
    put_host(out, host)?;
    out.extend_from_slice(told)
}

/// Puts why a node went no further, where it did not.
fn put_fault(out: &mut Vec<u8>, host: &[u8], fault: Option<LifeFault>) -> Result<(), AllocError>
    ensures { OnOk result (out.new.items ≡ out.old.items ++ fault_text host.now fault) }
{
    match fault {
        Some(LifeFault::NoSocket) => put_line(out, host, b": the system refuses a socket\n"),
        Some(LifeFault::NoThread) => put_line(out, host, b": the system refuses a thread\n"),
        Some(LifeFault::NoMemory) => put_line(out, host, b": no memory\n"),
        Some(LifeFault::Disagreed) | None => Ok(()),
    }
}

/// Puts that a node's files were not written, where they were not.
fn put_unwritten(out: &mut Vec<u8>, host: &[u8], is_unwritten: bool) -> Result<(), AllocError>
    ensures { OnOk result (out.new.items ≡ out.old.items ++ unwritten_text host.now is_unwritten) }
{
    match is_unwritten {
        true => put_line(out, host, b": its files can't be written\n"),
        false => Ok(()),
    }
}

/// Puts what is told of a node.
pub fn put_node(
    alloc: Global,
    out: &mut Vec<u8>,
    host: &[u8],
    core: &Core,
    fault: Option<LifeFault>,
    is_unwritten: bool,
) -> Result<(), AllocError>
    ensures { OnOk result (out.new.items ≡ out.old.items ++ node_text core.now host.now fault is_unwritten) }
{
    put_report(alloc, out, host, core, fault)?;
    put_fault(out, host, fault)?;
    put_unwritten(out, host, is_unwritten)
}
