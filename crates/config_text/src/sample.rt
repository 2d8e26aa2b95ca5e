//! A small CONFIG that runs.

/// A node with one peer and an account; a desk starts the peer and begins a session.
pub const SAMPLE: &str = r#"{"nodes": [
    {
        "host": "c.example",
        "realm": "example",
        "address": "192.0.2.2",
        "peers": [{"host": "s.example", "address": "127.0.0.1:3868"}],
        "accounts": [{"id": 100, "given": 100}],
        "desks": [["p:s.example Start", "c:s;1 Begin 7=100"]]
    }
]}
"#;
