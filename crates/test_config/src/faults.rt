//! What is told of each kind of fault, and of the first of several.

use crate::print::put_text;
use std::test::Fail;

/// A node with these fields behind the wanted ones.
fn node_with(alloc: std::alloc::Global, fields: &str) -> Result<String, Fail> {
    Ok(format!(in alloc;
        "{{\"nodes\": [{{\"host\": \"a\", \"realm\": \"r\", \"address\": \"192.0.2.1\"{fields}}}]}}"
    )?)
}

/// Whole texts, and the lines that tell of them.
const WHOLE: &[(&str, &str)] = &[
    ("", "line 1 column 0: not JSON\n"),
    ("{\"nodes\":\n  [}", "line 2 column 4: not JSON\n"),
    ("null", "CONFIG: an object is wanted\n"),
    ("[]", "CONFIG: an object is wanted\n"),
    ("{}", "nodes: a list is wanted\n"),
    ("{\"nodes\": null}", "nodes: a list is wanted\n"),
    ("{\"nodes\": {}}", "nodes: a list is wanted\n"),
    (
        "{\"node\": []}",
        "CONFIG: unknown field node, one of nodes is wanted\n",
    ),
    (
        "{\"nodes\": 1, \"a\": 2}",
        "CONFIG: unknown field a, one of nodes is wanted\n",
    ),
    ("{\"nodes\": [1]}", "nodes[0]: an object is wanted\n"),
    ("{\"nodes\": [{}]}", "nodes[0].host: a text is wanted\n"),
    (
        "{\"nodes\": [{\"host\": \"a\"}]}",
        "nodes[0].realm: a text is wanted\n",
    ),
    (
        "{\"nodes\": [{\"host\": \"a\", \"realm\": \"r\"}]}",
        "nodes[0].address: an IPv4 address is wanted, as 192.0.2.1\n",
    ),
    (
        "{\"nodes\": [{\"host\": \"a\", \"realm\": \"r\", \"address\": \"192.0.2.1\"}, {\"host\": 1}]}",
        "nodes[1].host: a text is wanted\n",
    ),
];

#[test]
fn whole_texts_are_told_of(rt: HostRuntime) -> Result<(), Fail> {
    for (text, line) in WHOLE {
        let mut out = Vec::new(rt.alloc());
        put_text(&mut out, text.as_bytes())?;
        assert!(rt; out.as_slice() == line.as_bytes(), "{text}");
    }
    Ok(())
}

/// Fields behind the wanted ones, and the lines that tell of them.
const FIELDS: &[(&str, &str)] = &[
    (", \"listen\": 1", "nodes[0].listen: a text is wanted\n"),
    (", \"peers\": {}", "nodes[0].peers: a list is wanted\n"),
    (
        ", \"peers\": [\"b\"]",
        "nodes[0].peers[0]: an object is wanted\n",
    ),
    (
        ", \"peers\": [{\"host\": \"b\", \"address\": \"x\"}, {\"address\": \"x\"}]",
        "nodes[0].peers[1].host: a text is wanted\n",
    ),
    (
        ", \"peers\": [{\"host\": \"b\", \"address\": 5}]",
        "nodes[0].peers[0].address: a text is wanted\n",
    ),
    (
        ", \"peers\": [{\"hots\": \"b\"}]",
        "nodes[0].peers[0]: unknown field hots, one of host, address is wanted\n",
    ),
    (
        ", \"shards\": \"1\"",
        "nodes[0].shards: a whole number of at most 18446744073709551615 is wanted\n",
    ),
    (
        ", \"shards\": 1.5",
        "nodes[0].shards: a whole number of at most 18446744073709551615 is wanted\n",
    ),
    (
        ", \"shards\": -1",
        "nodes[0].shards: a whole number of at most 18446744073709551615 is wanted\n",
    ),
    (
        ", \"pages\": 18446744073709551616",
        "nodes[0].pages: a whole number of at most 18446744073709551615 is wanted\n",
    ),
    (
        ", \"accounts\": 100",
        "nodes[0].accounts: a list is wanted\n",
    ),
    (
        ", \"accounts\": [[100, 5]]",
        "nodes[0].accounts[0]: an object is wanted\n",
    ),
    (
        ", \"accounts\": [{\"given\": 5}]",
        "nodes[0].accounts[0].id: a whole number of at most 18446744073709551615 is wanted\n",
    ),
    (
        ", \"accounts\": [{\"id\": 100}]",
        "nodes[0].accounts[0].given: a whole number of at most 18446744073709551615 is wanted\n",
    ),
    (
        ", \"accounts\": [{\"id\": 1, \"given\": 1, \"name\": 1}]",
        "nodes[0].accounts[0]: unknown field name, one of id, given is wanted\n",
    ),
    (
        ", \"default_units\": true",
        "nodes[0].default_units: a whole number of at most 18446744073709551615 is wanted\n",
    ),
    (
        ", \"desks\": \"c:s;1 Begin\"",
        "nodes[0].desks: a list is wanted\n",
    ),
    (
        ", \"desks\": [[], 5]",
        "nodes[0].desks[1]: a list of lines is wanted, or an object with lines\n",
    ),
    (
        ", \"desks\": [[\"a\", \"b\", 5]]",
        "nodes[0].desks[0][2]: a text is wanted\n",
    ),
    (
        ", \"desks\": [{\"repeat\": 2}]",
        "nodes[0].desks[0].lines: a list is wanted\n",
    ),
    (
        ", \"desks\": [{\"lines\": [5]}]",
        "nodes[0].desks[0].lines[0]: a text is wanted\n",
    ),
    (
        ", \"desks\": [{\"lines\": [], \"repeat\": \"2\"}]",
        "nodes[0].desks[0].repeat: a whole number of at most 18446744073709551615 is wanted\n",
    ),
    (
        ", \"desks\": [{\"lines\": [], \"times\": 2}]",
        "nodes[0].desks[0]: unknown field times, one of lines, repeat is wanted\n",
    ),
    (
        ", \"turns\": []",
        "nodes[0].turns: a whole number of at most 18446744073709551615 is wanted\n",
    ),
    (
        ", \"tables\": \"x.tbl\"",
        "nodes[0].tables: an object is wanted\n",
    ),
    (
        ", \"tables\": {\"peer\": 1}",
        "nodes[0].tables.peer: a text is wanted\n",
    ),
    (
        ", \"tables\": {\"client\": 1}",
        "nodes[0].tables.client: a text is wanted\n",
    ),
    (
        ", \"tables\": {\"server\": 1}",
        "nodes[0].tables.server: a text is wanted\n",
    ),
    (
        ", \"tables\": {\"servers\": \"x\"}",
        "nodes[0].tables: unknown field servers, one of peer, client, server is wanted\n",
    ),
    (
        ", \"dictionary\": []",
        "nodes[0].dictionary: a text is wanted\n",
    ),
    (
        ", \"hots\": \"b\"",
        "nodes[0]: unknown field hots, one of host, realm, address, listen, peers, shards, pages, accounts, \
            default_units, desks, turns, tables, dictionary is wanted\n",
    ),
];

#[test]
fn fields_of_a_node_are_told_of(rt: HostRuntime) -> Result<(), Fail> {
    for (fields, line) in FIELDS {
        let text = node_with(rt.alloc(), fields)?;
        let mut out = Vec::new(rt.alloc());
        put_text(&mut out, text.as_str().as_bytes())?;
        assert!(rt; out.as_slice() == line.as_bytes(), "{fields}");
    }
    Ok(())
}

/// Fields with several faults, and the line that tells of the first: an unknown field before all others, and of several
/// the first by its octets, then the order in which the fields are read.
const FIRST: &[(&str, &str)] = &[
    (
        ", \"tables\": {\"peer\": 1, \"a\": 1}",
        "nodes[0].tables: unknown field a, one of peer, client, server is wanted\n",
    ),
    (
        ", \"tables\": {\"b\": 1, \"a\": 1}",
        "nodes[0].tables: unknown field a, one of peer, client, server is wanted\n",
    ),
    (
        ", \"desks\": 1, \"peers\": 1",
        "nodes[0].peers: a list is wanted\n",
    ),
    (
        ", \"desks\": 1, \"accounts\": 1",
        "nodes[0].accounts: a list is wanted\n",
    ),
    (
        ", \"tables\": 1, \"turns\": null, \"desks\": 1",
        "nodes[0].desks: a list is wanted\n",
    ),
    (
        ", \"dictionary\": 1, \"listen\": 1",
        "nodes[0].listen: a text is wanted\n",
    ),
    (
        ", \"desks\": [[5], 5]",
        "nodes[0].desks[0][0]: a text is wanted\n",
    ),
];

#[test]
fn the_first_fault_is_told(rt: HostRuntime) -> Result<(), Fail> {
    for (fields, line) in FIRST {
        let text = node_with(rt.alloc(), fields)?;
        let mut out = Vec::new(rt.alloc());
        put_text(&mut out, text.as_str().as_bytes())?;
        assert!(rt; out.as_slice() == line.as_bytes(), "{fields}");
    }
    Ok(())
}

/// Texts in which a name stands twice in one object, and the name: it is told before all else, and escapes don't count.
const TWICE: &[(&str, &str)] = &[
    ("{\"nodes\": [], \"nodes\": []}", "nodes"),
    ("{\"b\": 1, \"a\": 1, \"a\": 1, \"b\": 1}", "b"),
    (
        "{\"nodes\": [{\"host\": \"a\", \"hos\\u0074\": \"a\"}]}",
        "host",
    ),
    (
        "{\"nodes\": [{\"peers\": [{}, {\"host\": 1, \"address\": 2, \"host\": 3}]}]}",
        "host",
    ),
    (
        "{\"nodes\": [{\"desks\": [{\"lines\": [], \"lines\": []}], \"x\": 1}]}",
        "lines",
    ),
    (
        "[[[[[[[[[{\"a\": 0, \"b\": [{\"\": 1, \"\": 2}], \"c\": {\"d\": 1, \"d\": 2}}]]]]]]]]]",
        "",
    ),
];

#[test]
fn a_name_that_stands_twice_is_told(rt: HostRuntime) -> Result<(), Fail> {
    for (text, name) in TWICE {
        let line = format!(in rt.alloc(); "CONFIG: field {name} stands twice in one object\n")?;
        let mut out = Vec::new(rt.alloc());
        put_text(&mut out, text.as_bytes())?;
        assert!(rt; out.as_slice() == line.as_str().as_bytes(), "{text}");
    }
    Ok(())
}

/// Texts that are no address.
const ADDRESSES: &[&str] = &[
    "",
    "192.0.2",
    "192.0.2.1.1",
    "192.0.2.256",
    "192.0.2.",
    "192.0.2.01",
    "192.0.2.-1",
    "192.0.2.1 ",
    "2001:db8::1",
    "s.example",
];

#[test]
fn what_is_no_address_is_told_of(rt: HostRuntime) -> Result<(), Fail> {
    for address in ADDRESSES {
        let text = format!(in rt.alloc();
            "{{\"nodes\": [{{\"host\": \"a\", \"realm\": \"r\", \"address\": \"{address}\"}}]}}"
        )?;
        let mut out = Vec::new(rt.alloc());
        put_text(&mut out, text.as_str().as_bytes())?;
        let line = "nodes[0].address: an IPv4 address is wanted, as 192.0.2.1\n";
        assert!(rt; out.as_slice() == line.as_bytes(), "{address}");
    }
    Ok(())
}

#[test]
fn of_a_long_name_the_front_is_told(rt: HostRuntime) -> Result<(), Fail> {
    let text = "{\"0123456789abcdefghijklmnopqrstuvwxyz\": 1}";
    let line = "CONFIG: unknown field 0123456789abcdefghijklmnopqrstuv, one of nodes is wanted\n";
    let mut out = Vec::new(rt.alloc());
    put_text(&mut out, text.as_bytes())?;
    assert!(rt; out.as_slice() == line.as_bytes());
    let mut out = Vec::new(rt.alloc());
    put_text(&mut out, b"{\"a\\nb~\": 1}")?;
    assert!(rt;
        out.as_slice() == b"CONFIG: unknown field a?b~, one of nodes is wanted\n".as_slice()
    );
    Ok(())
}
