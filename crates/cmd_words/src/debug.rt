//! The words of `debug`: understood, help and usage.
ghost use Rattle.std.specs.Prelude.{◌≡◌, IfOk, false};
ghost use Rattle.clap.specs.Words.{app_of};
ghost use Rattle.clap.specs.declared.builder.command.Command.TheViews.{out-Command};
ghost use Rattle.cmd_words.specs.Words.{debug_app};

use crate::commands::{bare, with_option, with_value};
use clap::Command;
use std::alloc::{AllocError, Global};

const DEBUG_ABOUT: &str = "Step a node through a script, forward and back, and look at it";

const DEBUG_LONG_ABOUT: &str = "\
Step a node through a script, forward and back, and look at it.

Reads CONFIG as `run` does, then SCRIPT, whose lines are steps as `run --help` has them, but for
`settle`; without SCRIPT it is empty. What a run printed is a script too: so a run that was recorded
is stepped through again. Then it reads commands to the end of standard input, a line each, and
replies to each of them before it reads the next; `help` lists them all.

  step, back         one step of the script, or one step back
  go, rgo, goto N    to the next breakpoint, back to the last one, to the place behind N steps
  break .., clear B  stop at a row, a state, a kind of events, a machine, the value of a register
  show KEY, totals A, list ROLE R, where    machines, accounts, rows of tables, the place

`fault N` tells why a command isn't done; a step that is refused is passed over, and what go and
goto took before it stays taken. N is 1: no such command, 2: a bad number, 3: no such machine, 4: no
such breakpoint, 5: at the start, 6: too many breakpoints, 7: no memory, 8 C: the step is refused,
with its number C as in `run`, 9: no such account, 10: no such row.

  $ dbench debug examples/runs/client_session.json examples/debug/late_answer.script
  (debug) go
  end at 42
  (debug) show c:c1;1
  c:c1;1 Idle r0=100 r1=1 r4=3 r8=1 r10=2 r14=1 r15=1

At a terminal there is a prompt, and an empty line is the last step, back, go or rgo once more.
Nothing is done where something is wrong with CONFIG, its files or SCRIPT: that is told as `run`
tells it.";

/// What is told where `debug` has no CONFIG.
pub(crate) const DEBUG_USAGE: &str = "\
wanted: a CONFIG

Usage: dbench debug [--run FILE] CONFIG [SCRIPT]

For more information, try '--help'.
";

/// `debug`, with its values and its option.
pub(crate) fn debug_command<'a>(alloc: Global) -> Result<Command<'a>, AllocError>
    ensures app { IfOk result (λ c. app_of c ≡ debug_app) }
    ensures local { IfOk result (λ c. (out-Command c).has_globals ≡ false) }
{
    let command = with_value(
        alloc,
        bare(alloc, "debug", DEBUG_ABOUT, DEBUG_LONG_ABOUT),
        "CONFIG",
        "The file of the nodes, whose first is opened",
    )?;
    let command = with_value(
        alloc,
        command,
        "SCRIPT",
        "The file of the script; without it, the script is empty",
    )?;
    with_option(
        alloc,
        command,
        "FILE",
        "run",
        "Take the commands from this file, and not from standard input",
    )
}
