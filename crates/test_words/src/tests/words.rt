//! What words ask for, over a reader and a writer in memory.
use base_device::{Counting, Inputs};
use cmd_run::main_on;
use role_tables::PEER_TABLE;
use std::test::Fail;

/// The status and the text of a run over a standard input that holds no digits.
fn run(rt: &HostRuntime, words: &[&str]) -> Result<(u8, String), Fail> {
    let mut source = Counting::new(Inputs::new(rt, b"zz".as_slice()));
    let mut sink = Counting::new(Vec::new(rt.alloc()));
    let status = main_on(rt.alloc(), words, &mut source, &mut sink);
    let text = String::from_utf8(sink.device).map_err(|_| "text")?;
    Ok((status.code(), text))
}

#[test]
fn words_ask_for_a_text_or_an_input_or_are_refused(rt: HostRuntime) -> Result<(), Fail> {
    for (words, status, part) in [
        (["dbench", "read"].as_slice(), 1, "bad hex\n"),
        (
            ["dbench", "read", "no/such.hex"].as_slice(),
            3,
            "read fault: no/such.hex can't be opened\n",
        ),
        (["dbench", "--version"].as_slice(), 0, "dbench 0.1.0\n"),
        (["dbench", "--help"].as_slice(), 0, "read"),
        (["dbench", "read", "--help"].as_slice(), 0, "hexadecimal"),
        (["dbench", "nonsense"].as_slice(), 2, "Usage: dbench"),
        (["dbench"].as_slice(), 2, "Usage: dbench"),
        (
            ["dbench", "run"].as_slice(),
            2,
            "wanted one of: a CONFIG, --sample",
        ),
        (
            ["dbench", "run", "no/such.json"].as_slice(),
            3,
            "read fault: no/such.json can't be opened\n",
        ),
        (
            ["dbench", "run", "--sample"].as_slice(),
            0,
            "\"accounts\": [{\"id\": 100, \"given\": 100}]",
        ),
        (
            ["dbench", "run", "--sample", "--sent"].as_slice(),
            2,
            "wanted one of: a CONFIG, --sample",
        ),
        (
            ["dbench", "run", "--nodes"].as_slice(),
            2,
            "wanted one of: a CONFIG, --sample",
        ),
        (
            ["dbench", "run", "--nodes", "no/such.json"].as_slice(),
            3,
            "read fault: no/such.json can't be opened\n",
        ),
        (
            ["dbench", "run", "--nodes", "--cut", "50", "no/such.json"].as_slice(),
            3,
            "read fault: no/such.json can't be opened\n",
        ),
        (
            ["dbench", "run", "--nodes", "--cut", "0", "no/such.json"].as_slice(),
            2,
            "wanted one of: a CONFIG, --sample",
        ),
        (
            ["dbench", "run", "--nodes", "--log", "out", "no/such.json"].as_slice(),
            2,
            "--log wants files that can be written\n",
        ),
        (
            ["dbench", "run", "--log", "out", "no/such.json"].as_slice(),
            2,
            "wanted one of: a CONFIG, --sample",
        ),
        (
            ["dbench", "run", "--cut", "50", "no/such.json"].as_slice(),
            2,
            "wanted one of: a CONFIG, --sample",
        ),
        (
            ["dbench", "run", "--help"].as_slice(),
            0,
            "settle             all of the last three",
        ),
        (["dbench", "debug"].as_slice(), 2, "wanted: a CONFIG"),
        (
            ["dbench", "debug", "no/such.json"].as_slice(),
            3,
            "read fault: no/such.json can't be opened\n",
        ),
        (
            ["dbench", "debug", "--help"].as_slice(),
            0,
            "Usage: dbench debug [OPTIONS] [CONFIG] [SCRIPT]",
        ),
        (["dbench", "read", "a", "b"].as_slice(), 2, "Usage: dbench"),
        (
            ["dbench", "read", "--explain"].as_slice(),
            1,
            "bad hex at character 0: each octet wants two hexadecimal digits, \
                and between digits only blanks may stand\n",
        ),
        (
            ["dbench", "read", "no/such.hex", "--explain"].as_slice(),
            3,
            "read fault: no/such.hex can't be opened\n",
        ),
        (
            ["dbench", "read", "--lines"].as_slice(),
            1,
            "line 1: bad hex\n",
        ),
        (
            ["dbench", "read", "--explain", "--explain"].as_slice(),
            2,
            "Usage: dbench",
        ),
        (
            ["dbench", "read", "--json"].as_slice(),
            1,
            "{\"stop\":\"bad hex\",\"character\":0,\"reason\":\"each octet wants two hexadecimal digits, \
                and between digits only blanks may stand\"}\n",
        ),
        (
            ["dbench", "read", "--json", "--explain"].as_slice(),
            2,
            "wanted at most one of: --explain, --json",
        ),
        (["dbench", "read", "--fast"].as_slice(), 2, "Usage: dbench"),
        (
            ["dbench", "read", "--dict"].as_slice(),
            2,
            "a value is required for '--dict <DICT>'",
        ),
        (
            ["dbench", "read", "--dict", "no/such.dict"].as_slice(),
            3,
            "read fault: no/such.dict can't be opened\n",
        ),
        (["dbench", "walk", "--help"].as_slice(), 0, "KIND N=V .."),
        (
            ["dbench", "walk", "--names"].as_slice(),
            0,
            "R-Reject: Close(0, f1)",
        ),
        (
            ["dbench", "walk", "--table", "peer"].as_slice(),
            0,
            PEER_TABLE,
        ),
        (
            ["dbench", "walk", "--table", "x"].as_slice(),
            2,
            "wanted the name of a shipped table: peer, client or server\n",
        ),
        (["dbench", "walk"].as_slice(), 2, "wanted one of"),
        (
            ["dbench", "walk", "--names", "x"].as_slice(),
            2,
            "wanted one of",
        ),
        (
            ["dbench", "walk", "--names", "--table", "peer"].as_slice(),
            2,
            "wanted one of",
        ),
        (
            ["dbench", "walk", "--why", "--names"].as_slice(),
            2,
            "wanted one of",
        ),
        (
            ["dbench", "walk", "--from", "Open", "--table", "peer"].as_slice(),
            2,
            "wanted one of",
        ),
        (
            ["dbench", "walk", "/"].as_slice(),
            3,
            "read fault: / is a directory\n",
        ),
        (
            ["dbench", "walk", "a", "b", "c"].as_slice(),
            2,
            "Usage: dbench",
        ),
        (
            ["dbench", "walk", "no/such.tbl"].as_slice(),
            3,
            "read fault: no/such.tbl can't be opened\n",
        ),
        (
            ["dbench", "asm", "--help"].as_slice(),
            0,
            "Usage: dbench asm",
        ),
        (["dbench", "asm", "a", "b"].as_slice(), 2, "Usage: dbench"),
        (
            ["dbench", "asm", "no/such.tbl"].as_slice(),
            3,
            "read fault: no/such.tbl can't be opened\n",
        ),
        (
            ["dbench", "asm"].as_slice(),
            1,
            "line 1 fault 1\n  wanted: a header: two blanks, then the words State, Event, Action and Next\n  wrong: \
                zz\n",
        ),
        (
            ["dbench", "list", "--help"].as_slice(),
            0,
            "Usage: dbench list",
        ),
        (["dbench", "list", "a", "b"].as_slice(), 2, "Usage: dbench"),
        (
            ["dbench", "list", "no/such.img"].as_slice(),
            3,
            "read fault: no/such.img can't be opened\n",
        ),
        (
            ["dbench", "list"].as_slice(),
            1,
            "bad hex\n  wanted: hexadecimal digits, two for each octet; blanks between them don't count\n",
        ),
        (["dbench", "draw", "--help"].as_slice(), 0, "dot -Tsvg"),
        (["dbench", "draw", "a", "b"].as_slice(), 2, "Usage: dbench"),
        (
            ["dbench", "draw", "no/such.tbl"].as_slice(),
            3,
            "read fault: no/such.tbl can't be opened\n",
        ),
        (
            ["dbench", "draw"].as_slice(),
            1,
            "line 1 fault 1\n  wanted: a header: two blanks, then the words State, Event, Action and Next\n  wrong: \
                zz\n",
        ),
    ] {
        let (code, text) = run(&rt, words)?;
        assert!(rt; code == status, "{text}");
        assert!(rt; text.as_str().contains(part), "{text}");
        // A text that ends its line here is the whole of it.
        assert!(rt; !part.ends_with('\n') || text.as_str() == part, "{text}");
    }
    Ok(())
}
