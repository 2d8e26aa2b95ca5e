//! The shipped tables: each is printed as it is written, its kinds, guards and actions are those of its role's laws in
//! the order of their first appearance, and it is bound to them.

use crate::role_table::{has_states, has_the_names_of, is_printed_as_written};
use client_rules::client_laws;
use peer_rules::peer_laws;
use role_tables::{CLIENT_TABLE, PEER_TABLE, SERVER_TABLE};
use server_rules::server_laws;
use std::alloc::{AllocError, Global};
use tab_law::LawBook;

/// The states of a peer, by first appearance.
const PEER_STATES: [&str; 8] = [
    "Closed",
    "Wait-Conn-Ack",
    "R-Open",
    "Wait-I-CEA",
    "Wait-Conn-Ack/Elect",
    "I-Open",
    "Wait-Returns",
    "Closing",
];

const CLIENT_STATES: [&str; 6] = [
    "Idle", "PendingI", "PendingE", "Open", "PendingU", "PendingT",
];

const SERVER_STATES: [&str; 2] = ["Idle", "Open"];

/// Whether a table names what laws name, and has these states.
fn names(
    alloc: Global,
    text: &str,
    laws: Result<LawBook, AllocError>,
    states: &[&'static str],
) -> bool {
    match laws {
        Ok(laws) => {
            has_the_names_of(alloc, text.as_bytes(), &laws)
                && has_states(alloc, text.as_bytes(), states)
        }
        Err(_) => false,
    }
}

#[test]
fn the_shipped_tables_are_printed_as_they_are_written(rt: HostRuntime) {
    for text in [PEER_TABLE, CLIENT_TABLE, SERVER_TABLE] {
        assert!(rt; is_printed_as_written(rt.alloc(), text.as_bytes()));
    }
}

#[test]
fn a_table_names_what_its_laws_name(rt: HostRuntime) {
    let alloc = rt.alloc();
    assert!(rt; names(alloc, PEER_TABLE, peer_laws(alloc), &PEER_STATES));
    assert!(rt; names(alloc, CLIENT_TABLE, client_laws(alloc), &CLIENT_STATES));
    assert!(rt; names(alloc, SERVER_TABLE, server_laws(alloc), &SERVER_STATES));
}
