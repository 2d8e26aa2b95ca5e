//! Each field of a node.

use crate::print::put_text;
use std::test::Fail;

/// A node with each field, at the ends of their ranges.
const FULL: &str = r#"{"nodes": [{
    "dictionary": "gy.dict",
    "tables": {"server": "s.tbl", "client": "c.tbl", "peer": "p.tbl"},
    "turns": 18446744073709551615,
    "desks": [["a", ""], {"repeat": 0, "lines": ["b"]}, {"lines": []}, {"lines": ["c"], "repeat": null}],
    "default_units": 7,
    "accounts": [{"given": 0, "id": 18446744073709551615}, {"id": 0, "given": 3}],
    "pages": 0,
    "shards": 99,
    "peers": [{"address": "[2001:db8::1]:3868", "host": "B.example"}, {"host": "", "address": ""}],
    "listen": "0.0.0.0:0",
    "address": "255.0.10.199",
    "realm": "",
    "host": "a host whose name is longer than thirty-two octets"
}]}"#;

const FULL_READ: &str =
    "  a host whose name is longer than thirty-two octets  255.0.10.199 listens 0.0.0.0:0
    99 shards, 0 pages, 7 units, 18446744073709551615 turns
    peer B.example [2001:db8::1]:3868
    peer  
    account 18446744073709551615 0
    account 0 3
    desk 1 times
      a
      
    desk 0 times
      b
    desk 1 times
    desk 1 times
      c
    peer table p.tbl
    client table c.tbl
    server table s.tbl
    dictionary gy.dict
";

#[test]
fn each_field_is_read(rt: HostRuntime) -> Result<(), Fail> {
    let mut out = Vec::new(rt.alloc());
    put_text(&mut out, FULL.as_bytes())?;
    assert!(rt; out.as_slice() == FULL_READ.as_bytes());
    Ok(())
}
