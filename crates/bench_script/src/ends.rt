//! What is printed at the end of a run: where lines stand and what they sent, and what stands on accounts.
ghost use Rattle.std.specs.Prelude.{◌≡◌, ◌++◌, OnOk, decimal};
ghost use Rattle.bench_script.specs.Ends.{account_text, host_text, line_text, lines_text, stands_text};
ghost use Rattle.bench_script.specs.Ends.{state_text, sums_text, totals_text};
ghost use Rattle.bench_script.specs.Printed.{machine_at};
ghost use Rattle.step_text.specs.Names.{shown, shown_octet};

use crate::entry::machine_at;
use crate::next::line_count;
use acct_totals::Totals;
use base_text::{put_content, put_hex, put_number};
use bench_core::Core;
use bench_item::LineState;
use itoa::Buffer;
use std::alloc::AllocError;
use step_text::is_plain;

/// Puts an octet of a host, `%` and two digits where it doesn't stand for itself.
fn put_octet(out: &mut Vec<u8>, octet: u8) -> Result<(), AllocError>
    ensures { OnOk result (out.new.items ≡ out.old.items ++ shown_octet octet) }
{
    if is_plain(octet) {
        return out.extend_from_slice(&[octet]);
    }
    out.extend_from_slice(b"%")?;
    put_hex(out, &[octet])
}

/// Puts a host as a word.
fn put_host(out: &mut Vec<u8>, host: &[u8]) -> Result<(), AllocError>
    ensures { OnOk result (out.new.items ≡ out.old.items ++ shown host.now) }
{
    for octet in host {
        put_octet(out, *octet)?;
    }
    Ok(())
}

/// Puts the host of the peer's machine of a number.
fn put_peer(out: &mut Vec<u8>, core: &Core, peer: u64) -> Result<(), AllocError>
    ensures { OnOk result (out.new.items ≡ out.old.items ++ host_text (machine_at core.now peer)) }
{
    match machine_at(core, peer)? {
        Some(key) => put_host(out, key.name.as_slice()),
        None => out.extend_from_slice(b"-"),
    }
}

/// Puts where a line stands.
fn put_state(out: &mut Vec<u8>, core: &Core, state: LineState) -> Result<(), AllocError>
    ensures { OnOk result (out.new.items ≡ out.old.items ++ state_text core.now state) }
{
    match state {
        LineState::Dialling { peer } => {
            out.extend_from_slice(b" dialling ")?;
            put_peer(out, core, peer)
        }
        LineState::Open => out.extend_from_slice(b" open"),
        LineState::Closed => out.extend_from_slice(b" closed"),
    }
}

/// Puts where a line stands behind what `out` holds: ` open`, ` closed` or ` dialling HOST`;
/// nothing where there is no line.
pub fn put_stands(
    out: &mut Vec<u8>,
    core: &Core,
    state: Option<LineState>,
) -> Result<(), AllocError>
    ensures { OnOk result (out.new.items ≡ out.old.items ++ stands_text core.now state) }
{
    match state {
        Some(state) => put_state(out, core, state),
        None => Ok(()),
    }
}

/// Puts where a line stands and what it sent.
fn put_line(out: &mut Vec<u8>, core: &Core, line: u32) -> Result<(), AllocError>
    ensures { OnOk result (out.new.items ≡ out.old.items ++ line_text core.now line) }
{
    put_number(out, b"line ", u64::from(line))?;
    put_stands(out, core, core.line(line))?;
    put_content(out, core.sent(line))?;
    out.extend_from_slice(b"\n")
}

/// Puts each line that was opened, by number: `line N STATE HEX`, where it stands and all that it has sent.
/// STATE is `open`, `closed` or `dialling HOST`; where nothing was sent no blank stands at the end.
pub fn put_lines(out: &mut Vec<u8>, core: &Core) -> Result<(), AllocError>
    ensures { OnOk result (out.new.items ≡ out.old.items ++ lines_text core.now) }
{
    let count = line_count(core);
    'lines: for line in 0..count {
        put_line(out, core, line + 1)?;
    }
    Ok(())
}

/// Puts a label and a number of up to 128 bits.
fn put_large(out: &mut Vec<u8>, label: &[u8], number: u128) -> Result<(), AllocError>
    ensures { OnOk result (out.new.items ≡ out.old.items ++ label.now ++ decimal number) }
{
    let mut digits = Buffer::new();
    out.extend_from_slice(label)?;
    out.extend_from_slice(digits.format(number).as_bytes())
}

/// Puts the sums of an account.
fn put_sums(out: &mut Vec<u8>, totals: &Totals) -> Result<(), AllocError>
    ensures { OnOk result (out.new.items ≡ out.old.items ++ sums_text totals.now) }
{
    put_number(out, b" given ", totals.given)?;
    put_number(out, b" reserved ", totals.reserved)?;
    put_number(out, b" debited ", totals.debited)?;
    put_large(out, b" unpaid ", totals.unpaid)
}

/// Puts an account, if it is there.
fn put_account(out: &mut Vec<u8>, id: u64, totals: Option<Totals>) -> Result<(), AllocError>
    ensures { OnOk result (out.new.items ≡ out.old.items ++ account_text id totals) }
{
    let Some(totals) = totals else {
        return Ok(());
    };
    put_number(out, b"account ", id)?;
    put_sums(out, &totals)?;
    out.extend_from_slice(b"\n")
}

/// Puts these accounts, in this order: `account ID given G reserved R debited D unpaid U`.
/// One that isn't there is left out.
pub fn put_totals(out: &mut Vec<u8>, core: &Core, ids: &[u64]) -> Result<(), AllocError>
    ensures { OnOk result (out.new.items ≡ out.old.items ++ totals_text core.now ids.now) }
{
    for id in ids {
        put_account(out, *id, core.totals(*id))?;
    }
    Ok(())
}
