//! A row for each turn: where machines stand, and what is reserved and debited.

use base_list::Octets;
use base_text::put_number;
use bench_core::Core;
use bench_item::{Key, Role};
use std::alloc::{AllocError, Global};

// Puts the name of the state of a machine and a blank; `-` where it is not there.
fn put_state(
    alloc: Global,
    out: &mut Vec<u8>,
    core: &Core,
    role: Role,
    name: &[u8],
) -> Result<(), AllocError> {
    let name = Octets::from_slice(alloc, name)?;
    let stands = core.state_of(&Key { role, name });
    let states = core.table(role).states().as_slice();
    let named = match stands {
        Some(state) => states.get(usize::from(state.state)),
        None => None,
    };
    match named {
        Some(name) => out.extend_from_slice(name.as_slice())?,
        None => out.extend_from_slice(b"-")?,
    }
    out.extend_from_slice(b" ")
}

/// Puts where the machine of the peer `s.example` and that of the session `c1;1` stand at a client.
pub fn put_client(alloc: Global, out: &mut Vec<u8>, core: &Core) -> Result<(), AllocError> {
    put_state(alloc, out, core, Role::Peer, b"s.example")?;
    put_state(alloc, out, core, Role::Client, b"c1;1")
}

/// Puts the same of the peer `c.example` at a server, and what is reserved and debited of account 100.
pub fn put_server(alloc: Global, out: &mut Vec<u8>, core: &Core) -> Result<(), AllocError> {
    put_state(alloc, out, core, Role::Peer, b"c.example")?;
    put_state(alloc, out, core, Role::Server, b"c1;1")?;
    if let Some(totals) = core.totals(100) {
        put_number(out, b"", totals.reserved)?;
        put_number(out, b" ", totals.debited)?;
    }
    out.extend_from_slice(b"\n")
}
