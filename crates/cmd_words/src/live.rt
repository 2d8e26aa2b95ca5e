//! The words of `live`: understood, help and usage.
ghost use Rattle.std.specs.Prelude.{◌≡◌, IfOk, false};
ghost use Rattle.clap.specs.Words.{app_of};
ghost use Rattle.clap.specs.declared.builder.command.Command.TheViews.{out-Command};
ghost use Rattle.cmd_words.specs.Words.{live_app};

use crate::commands::{bare, with_flag, with_option, with_value};
use clap::Command;
use std::alloc::{AllocError, Global};

const LIVE_ABOUT: &str = "Run the nodes of a CONFIG over TCP";

const LIVE_LONG_ABOUT: &str = "\
Run the nodes of a CONFIG over TCP: against each other, or against a system that is to be tested.

Reads CONFIG, an object of JSON (docs/CONFIG.md). Each of its nodes, or the one of --node, runs in a
thread of its own: it listens at its `listen`, dials its peers at their `address`, and its desks
tell their texts in order. A text for a session waits until each peer that the desk told Start is
open, and its session waits for no answer; `#n` in a text is the number of the round, from 1.

It ends by itself: after the node's `turns`, or after --seconds. A turn waits at most 10
milliseconds. Timers count in seconds.

At the end each node is told: `node HOST ok N`, where N is how many entries its log has, and
`account ID given G reserved R debited D unpaid U` for each account. With --log its log is written
to DIR/HOST.log, a script, and to DIR/HOST.json a CONFIG of that node alone, with its tables and its
dictionary beside it: `run` and `debug` on both do the same again, step by step.

With --stats each node tells a line a second on standard error, of names and numbers: `stats HOST
second N`, open sessions, units reserved and debited, and of the requests that came (`in.`) and that
it sent (`out.`) how many there were, a second too, how many wait, and in microseconds what half and
99 of 100 times from a request to its answer don't pass; then how many peers stand in which state,
and how many answers have which Result-Code. docs/LIVE.md has each name.

  dbench live examples/live/pair.json
  dbench live --log logs --seconds 5 examples/live/pair.json
  dbench live --stats --seconds 5 examples/live/pair.json
  dbench run logs/s.example.json logs/s.example.log
  dbench live --node s.example --seconds 60 examples/live/pair.json

Nothing is run where something is wrong: `nodes[0].desks[1][2]: bad text` is a text that its desk
can't tell, `nodes[0].listen` where no address stands; CONFIG, its tables and its dictionaries are
told with what was wanted. `the system refuses a socket` is status 3.";

/// What is told where `live` asks for nothing.
pub(crate) const LIVE_USAGE: &str = "\
wanted: a CONFIG

Usage: dbench live [--node HOST] [--seconds SECONDS] [--log DIR] [--stats] CONFIG

For more information, try '--help'.
";

/// `live`, with its value and its options.
pub(crate) fn live_command<'a>(alloc: Global) -> Result<Command<'a>, AllocError>
    ensures app { IfOk result (λ c. app_of c ≡ live_app) }
    ensures local { IfOk result (λ c. (out-Command c).has_globals ≡ false) }
{
    let command = with_value(
        alloc,
        bare(alloc, "live", LIVE_ABOUT, LIVE_LONG_ABOUT),
        "CONFIG",
        "The file of the nodes",
    )?;
    let command = with_option(
        alloc,
        command,
        "HOST",
        "node",
        "The node that lives; without it all do",
    )?;
    let command = with_option(
        alloc,
        command,
        "SECONDS",
        "seconds",
        "Stop after so many seconds",
    )?;
    let command = with_option(
        alloc,
        command,
        "DIR",
        "log",
        "Write each node's log to HOST.log there, and its CONFIG to HOST.json",
    )?;
    with_flag(
        alloc,
        command,
        "stats",
        "Tell each node's peers, sessions, requests and times once a second",
    )
}
