//! A node of a CONFIG as text, and which files it names then.

use config_json::put_config;
use config_text::{NodeConfig, read_config};
use live_report::own_files;
use std::alloc::Global;
use std::test::Fail;

const NODE: &str = r#"{"nodes": [{
    "host": "c.example", "realm": "e\"x\\y", "address": "192.0.2.1", "listen": "[::1]:3868",
    "peers": [{"host": "s.example", "address": "a:1"}, {"host": "t.example", "address": ""}],
    "accounts": [{"id": 100, "given": 5}, {"id": 101, "given": 6}],
    "desks": [["p:s.example Start"], {"repeat": 3, "lines": []}],
    "shards": 2, "pages": 2, "default_units": 7, "turns": 9, "tables": {"client": "c.tbl"}, "dictionary": "d.dict"}]}"#;

const TEXT: &str = r#"{"nodes": [{
    "host": "c.example",
    "realm": "e\u0022x\u005cy",
    "address": "192.0.2.1",
    "listen": "[::1]:3868",
    "peers": [{"host": "s.example", "address": "a:1"}, {"host": "t.example", "address": ""}],
    "accounts": [{"id": 100, "given": 5}, {"id": 101, "given": 6}],
    "desks": [{"repeat": 1, "lines": ["p:s.example Start"]}, {"repeat": 3, "lines": []}],
    "shards": 2,
    "pages": 2,
    "default_units": 7,
    "turns": 9,
    "tables": {"peer": null, "client": "c%2f1.client.tbl", "server": null},
    "dictionary": "c%2f1.dict"
}]}
"#;

/// What counts where a field is absent, and no file.
const SMALL: &str = r#"{"nodes": [{"host": "c", "realm": "r", "address": "0.0.0.0"}]}"#;

const SMALL_TEXT: &str = r#"{"nodes": [{
    "host": "c",
    "realm": "r",
    "address": "0.0.0.0",
    "listen": null,
    "peers": [],
    "accounts": [],
    "desks": [],
    "shards": 1,
    "pages": 1,
    "default_units": 0,
    "turns": 1000000,
    "tables": {"peer": null, "client": null, "server": null},
    "dictionary": null
}]}
"#;

// The first node of a CONFIG.
fn node_of(alloc: Global, text: &[u8]) -> Result<NodeConfig, Fail> {
    match read_config(alloc, text) {
        Ok(nodes) => match nodes.into_iter().next() {
            Some(node) => Ok(node),
            None => Err(Fail::new("a node")),
        },
        Err(_) => Err(Fail::new("a CONFIG")),
    }
}

// The text of a CONFIG's first node, with files of its own.
fn text_of(alloc: Global, text: &[u8]) -> Result<Vec<u8>, Fail> {
    let node = node_of(alloc, text)?;
    let files = own_files(alloc, b"c/1", &node.files)?;
    let mut out = Vec::new(alloc);
    put_config(alloc, &mut out, &node, &files)?;
    Ok(out)
}

#[test]
fn a_node_is_a_config_of_its_own(rt: HostRuntime) -> Result<(), Fail> {
    for (config, text) in [(NODE, TEXT), (SMALL, SMALL_TEXT)] {
        let once = text_of(rt.alloc(), config.as_bytes())?;
        assert!(rt; once.as_slice() == text.as_bytes(), "its text");
        let twice = text_of(rt.alloc(), &once)?;
        assert!(rt; twice.as_slice() == text.as_bytes(), "read again");
    }
    Ok(())
}
