//! What counts where a field is absent or null.

use crate::print::put_text;
use config_text::{SAMPLE, read_config};
use std::test::Fail;

/// A node of which only the wanted fields are there, and what it is read as.
const LEAST: &str = "{\"nodes\": [{\"host\": \"a\", \"realm\": \"r\", \"address\": \"0.0.0.0\"}]}";

const LEAST_READ: &str =
    "  a r 0.0.0.0 listens nowhere\n    1 shards, 1 pages, 0 units, 1000000 turns\n";

/// The same, with null in each other field.
const NULLS: &str =
    "{\"nodes\": [{\"host\": \"a\", \"realm\": \"r\", \"address\": \"0.0.0.0\", \"listen\": null, \"peers\": null, \
        \"shards\": null, \"pages\": null, \"accounts\": null, \"default_units\": null, \"desks\": null, \"turns\": \
        null, \"tables\": null, \"dictionary\": null}]}";

#[test]
fn absent_fields_and_nulls_are_defaults(rt: HostRuntime) -> Result<(), Fail> {
    for text in [LEAST, NULLS] {
        let mut out = Vec::new(rt.alloc());
        put_text(&mut out, text.as_bytes())?;
        assert!(rt; out.as_slice() == LEAST_READ.as_bytes(), "{text}");
    }
    Ok(())
}

#[test]
fn a_list_without_nodes_is_read(rt: HostRuntime) -> Result<(), Fail> {
    let nodes = read_config(rt.alloc(), b"{\"nodes\": []}").map_err(|_| "refused")?;
    assert_eq!(rt; nodes.len(), 0);
    Ok(())
}

/// What the sample is read as.
const SAMPLE_READ: &str = "  c.example example 192.0.2.2 listens nowhere
    1 shards, 1 pages, 0 units, 1000000 turns
    peer s.example 127.0.0.1:3868
    account 100 100
    desk 1 times
      p:s.example Start
      c:s;1 Begin 7=100
";

#[test]
fn the_sample_is_read(rt: HostRuntime) -> Result<(), Fail> {
    let mut out = Vec::new(rt.alloc());
    put_text(&mut out, SAMPLE.as_bytes())?;
    assert!(rt; out.as_slice() == SAMPLE_READ.as_bytes());
    Ok(())
}
