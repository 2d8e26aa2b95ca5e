//! What a bench is opened with, of a node.

use config_text::{RoleTables, SAMPLE, config_of, read_config};
use dia_dict::Dictionary;
use std::alloc::Global;
use std::test::Fail;
use tab_text::{Table, parse};

/// A table of one row, by the name of its state.
fn table_of(alloc: Global, state: &str) -> Result<Table, Fail> {
    let text = format!(in alloc;
        "  State  Event  Action  Next\n  {state}      Go     -       {state}\n"
    )?;
    Ok(parse(alloc, text.as_str().as_bytes()).map_err(|_| "no table")?)
}

fn first_state(table: &Table) -> Option<&[u8]> {
    let name = table.states().as_slice().first()?;
    Some(name.as_slice())
}

#[test]
fn a_node_is_what_a_bench_is_opened_with(rt: HostRuntime) -> Result<(), Fail> {
    let alloc = rt.alloc();
    let nodes = read_config(alloc, SAMPLE.as_bytes()).map_err(|_| "refused")?;
    assert_eq!(rt; nodes.len(), 1);
    let tables = RoleTables {
        peer: table_of(alloc, "A")?,
        client: table_of(alloc, "B")?,
        server: table_of(alloc, "C")?,
    };
    let config = config_of(alloc, &nodes[0], tables, Dictionary::base(alloc)?)?;
    assert!(rt; config.identity.host.as_slice() == b"c.example".as_slice());
    assert!(rt; config.identity.realm.as_slice() == b"example".as_slice());
    assert_eq!(rt; config.identity.address, [192, 0, 2, 2]);
    assert_eq!(rt; config.peers.len(), 1);
    assert!(rt; config.peers[0].as_slice() == b"s.example".as_slice());
    assert_eq!(rt; config.accounts.len(), 1);
    assert_eq!(rt; config.accounts[0].id, 100);
    assert_eq!(rt; config.accounts[0].given, 100);
    assert_eq!(rt; config.shards, 1);
    assert_eq!(rt; config.pages, 1);
    assert_eq!(rt; config.desks, 1);
    assert_eq!(rt; config.default_units, 0);
    assert!(rt; first_state(&config.peer) == Some(b"A".as_slice()));
    assert!(rt; first_state(&config.client) == Some(b"B".as_slice()));
    assert!(rt; first_state(&config.server) == Some(b"C".as_slice()));
    Ok(())
}
