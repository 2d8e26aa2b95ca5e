//! The words that are understood, for `clap`.
ghost use Rattle.std.specs.Prelude.{◌≡◌, IfOk, codes, false, true};
ghost use Rattle.clap.specs.Simple.{on_top};
ghost use Rattle.clap.specs.Words.{app_of, new_app, new_rule, rule_of, with_rule, with_subcommand};
ghost use Rattle.clap.specs.declared.builder.command.Command.TheViews.{out-Command};
ghost use Rattle.cmd_words.specs.Words.{dbench_app, debugging_app, flag_rule, option_rule, read_app, run_app};
ghost use Rattle.cmd_words.specs.Words.{run_values, running_app, table_app, walk_app, walking_app};

use crate::debug::debug_command;
use crate::live::live_command;
use crate::texts::{
    ABOUT, ASM_ABOUT, ASM_LONG_ABOUT, DRAW_ABOUT, DRAW_LONG_ABOUT, LIST_ABOUT, LIST_LONG_ABOUT,
    READ_ABOUT, READ_LONG_ABOUT, RUN_ABOUT, RUN_LONG_ABOUT, STATUSES, WALK_ABOUT, WALK_LONG_ABOUT,
};
use clap::{Arg, ArgAction, Command};
use std::alloc::{AllocError, Global};

/// The help of a TABLE that standard input stands for.
const TABLE_HELP: &str = "The file of the table; without it, standard input";

/// A command without arguments, with its help.
pub(crate) fn bare<'a>(
    alloc: Global,
    name: &'a str,
    about: &'a str,
    long_about: &'a str,
) -> Command<'a>
    ensures app { app_of result ≡ new_app name.entry.now }
    ensures local { (out-Command result).has_globals ≡ false }
{
    Command::new(alloc, name)
        .about(about)
        .long_about(long_about)
        .after_help(STATUSES)
}

/// The command with one argument more.
fn with<'a>(command: Command<'a>, arg: Arg<'a>) -> Result<Command<'a>, AllocError>
    requires command { (out-Command command).has_globals ≡ false }
    requires arg { arg.global ≡ false }
    ensures app { IfOk result (λ c. app_of c ≡ with_rule (app_of command.entry) (rule_of arg.entry)) }
    ensures local { IfOk result (λ c. (out-Command c).has_globals ≡ false) }
{
    command.arg(arg)
}

/// A value by its place.
fn value<'a>(alloc: Global, id: &'a str, help: &'a str) -> Arg<'a>
    ensures rule { rule_of result ≡ new_rule id.entry.now }
    ensures local { result.global ≡ false }
{
    Arg::new(alloc, id).help(help)
}

/// An option with a value.
fn option<'a>(alloc: Global, id: &'a str, name: &'a str, help: &'a str) -> Arg<'a>
    ensures rule { rule_of result ≡ option_rule id.entry.now name.entry.now }
    ensures local { result.global ≡ false }
{
    value(alloc, id, help).long(name)
}

/// A flag, whose name is also its identifier.
fn flag<'a>(alloc: Global, name: &'a str, help: &'a str) -> Arg<'a>
    ensures rule { rule_of result ≡ flag_rule name.entry.now }
    ensures local { result.global ≡ false }
{
    option(alloc, name, name, help).action(ArgAction::SetTrue)
}

/// The command with one value more.
pub(crate) fn with_value<'a>(
    alloc: Global,
    command: Command<'a>,
    id: &'a str,
    help: &'a str,
) -> Result<Command<'a>, AllocError>
    requires { (out-Command command).has_globals ≡ false }
    ensures app { IfOk result (λ c. app_of c ≡ with_rule (app_of command.entry) (new_rule id.entry.now)) }
    ensures local { IfOk result (λ c. (out-Command c).has_globals ≡ false) }
{
    with(command, value(alloc, id, help))
}

/// The command with one option more.
pub(crate) fn with_option<'a>(
    alloc: Global,
    command: Command<'a>,
    id: &'a str,
    name: &'a str,
    help: &'a str,
) -> Result<Command<'a>, AllocError>
    requires { (out-Command command).has_globals ≡ false }
    ensures app { IfOk result (λ c. app_of c
        ≡ with_rule (app_of command.entry) (option_rule id.entry.now name.entry.now)) }
    ensures local { IfOk result (λ c. (out-Command c).has_globals ≡ false) }
{
    with(command, option(alloc, id, name, help))
}

/// The command with one flag more.
pub(crate) fn with_flag<'a>(
    alloc: Global,
    command: Command<'a>,
    name: &'a str,
    help: &'a str,
) -> Result<Command<'a>, AllocError>
    requires { (out-Command command).has_globals ≡ false }
    ensures app { IfOk result (λ c. app_of c ≡ with_rule (app_of command.entry) (flag_rule name.entry.now)) }
    ensures local { IfOk result (λ c. (out-Command c).has_globals ≡ false) }
{
    with(command, flag(alloc, name, help))
}

fn read_command<'a>(alloc: Global) -> Result<Command<'a>, AllocError>
    ensures app { IfOk result (λ c. app_of c ≡ read_app) }
    ensures local { IfOk result (λ c. (out-Command c).has_globals ≡ false) }
{
    let command = with_value(
        alloc,
        bare(alloc, "read", READ_ABOUT, READ_LONG_ABOUT),
        "FILE",
        "The file to read; without it, standard input",
    )?;
    let command = with_flag(
        alloc,
        command,
        "explain",
        "Say in names and words what each message holds, and what is wrong with it",
    )?;
    let command = with_flag(
        alloc,
        command,
        "json",
        "Say the same as one object of JSON in a line for each message",
    )?;
    let command = with_flag(
        alloc,
        command,
        "lines",
        "Read each line by itself, and go on behind one that is refused",
    )?;
    with_option(
        alloc,
        command,
        "DICT",
        "dict",
        "The file of a dictionary, whose AVPs are read and named too",
    )
}

fn walk_command<'a>(alloc: Global) -> Result<Command<'a>, AllocError>
    ensures app { IfOk result (λ c. app_of c ≡ walk_app) }
    ensures local { IfOk result (λ c. (out-Command c).has_globals ≡ false) }
{
    let command = with_value(
        alloc,
        bare(alloc, "walk", WALK_ABOUT, WALK_LONG_ABOUT),
        "TABLE",
        "The file of the table",
    )?;
    let command = with_value(
        alloc,
        command,
        "EVENTS",
        "The file of the events; without it, standard input",
    )?;
    let command = with_flag(
        alloc,
        command,
        "why",
        "Say under each step which registers changed, and why rows before the one that took the event didn't",
    )?;
    let command = with_option(
        alloc,
        command,
        "FROM",
        "from",
        "Begin elsewhere: 'STATE rN=V ..', one word for the shell",
    )?;
    let command = with_flag(
        alloc,
        command,
        "names",
        "Print the kinds, guards and actions that a table may name, with their laws",
    )?;
    with_option(
        alloc,
        command,
        "NAME",
        "table",
        "Print the shipped table of that name: peer, client or server",
    )
}

/// `run`, with its values.
fn run_values<'a>(alloc: Global) -> Result<Command<'a>, AllocError>
    ensures app { IfOk result (λ c. app_of c ≡ run_values) }
    ensures local { IfOk result (λ c. (out-Command c).has_globals ≡ false) }
{
    let command = with_value(
        alloc,
        bare(alloc, "run", RUN_ABOUT, RUN_LONG_ABOUT),
        "CONFIG",
        "The file of the nodes, whose first is run",
    )?;
    with_value(
        alloc,
        command,
        "SCRIPT",
        "The file of the script; without it, standard input",
    )
}

fn run_command<'a>(alloc: Global) -> Result<Command<'a>, AllocError>
    ensures app { IfOk result (λ c. app_of c ≡ run_app) }
    ensures local { IfOk result (λ c. (out-Command c).has_globals ≡ false) }
{
    let command = run_values(alloc)?;
    let command = with_flag(alloc, command, "quiet", "Print no steps")?;
    let command = with_flag(
        alloc,
        command,
        "sent",
        "Print at the end where each connection stands, and all that it sent",
    )?;
    let command = with_flag(
        alloc,
        command,
        "totals",
        "Print at the end what stands on each account",
    )?;
    let command = with_flag(
        alloc,
        command,
        "nodes",
        "Run every node of CONFIG; a line of SCRIPT is HOST and a line of its script, or settle, \
            which carries octets between them",
    )?;
    let command = with_option(
        alloc,
        command,
        "N",
        "cut",
        "Carry octets between nodes in pieces of N",
    )?;
    let command = with_option(
        alloc,
        command,
        "DIR",
        "log",
        "Write the log of each node to the file HOST.log in DIR, which is made where it isn't there",
    )?;
    with_flag(alloc, command, "sample", "Print a small CONFIG")
}

/// The program's command, with none below it.
fn top<'a>(alloc: Global) -> Command<'a>
    ensures { app_of result
        ≡ on_top (λ s. record s { has_version = true; subcommand_required = true }) (new_app (codes "dbench")) }
{
    Command::new(alloc, "dbench")
        .version("0.1.0")
        .about(ABOUT)
        .after_help(STATUSES)
        .subcommand_required(true)
}

/// The command with one command more below it.
fn with_command<'a>(
    command: Command<'a>,
    subcommand: Command<'a>,
) -> Result<Command<'a>, AllocError>
    requires { (out-Command subcommand).has_globals ≡ false }
    ensures { IfOk result (λ c. app_of c ≡ with_subcommand (app_of command.entry) (app_of subcommand.entry).top) }
{
    command.subcommand(subcommand)
}

/// The command with one more below it, of one file or of standard input.
fn with_file_command<'a>(
    alloc: Global,
    command: Command<'a>,
    name: &'a str,
    texts: (&'a str, &'a str),
    file: (&'a str, &'a str),
) -> Result<Command<'a>, AllocError>
    ensures { IfOk result (λ c. app_of c
        ≡ with_subcommand (app_of command.entry) (with_rule (new_app name.entry.now) (new_rule file.entry.0.now)).top) }
{
    let subcommand = with_value(alloc, bare(alloc, name, texts.0, texts.1), file.0, file.1)?;
    with_command(command, subcommand)
}

fn walking_command<'a>(alloc: Global) -> Result<Command<'a>, AllocError>
    ensures { IfOk result (λ c. app_of c ≡ walking_app) }
{
    let read = read_command(alloc)?;
    let command = with_command(top(alloc), read)?;
    let walk = walk_command(alloc)?;
    with_command(command, walk)
}

/// The program's command, with those of messages and tables below it.
fn table_command<'a>(alloc: Global) -> Result<Command<'a>, AllocError>
    ensures { IfOk result (λ c. app_of c ≡ table_app) }
{
    let command = walking_command(alloc)?;
    let command = with_file_command(
        alloc,
        command,
        "draw",
        (DRAW_ABOUT, DRAW_LONG_ABOUT),
        ("TABLE", TABLE_HELP),
    )?;
    let command = with_file_command(
        alloc,
        command,
        "asm",
        (ASM_ABOUT, ASM_LONG_ABOUT),
        ("TABLE", TABLE_HELP),
    )?;
    with_file_command(
        alloc,
        command,
        "list",
        (LIST_ABOUT, LIST_LONG_ABOUT),
        ("FILE", "The file of the image; without it, standard input"),
    )
}

/// The program's command, with those of messages, tables and scripts below it.
fn running_command<'a>(alloc: Global) -> Result<Command<'a>, AllocError>
    ensures { IfOk result (λ c. app_of c ≡ running_app) }
{
    let command = table_command(alloc)?;
    let run = run_command(alloc)?;
    with_command(command, run)
}

/// The same, with the debugger below it.
fn debugging_command<'a>(alloc: Global) -> Result<Command<'a>, AllocError>
    ensures { IfOk result (λ c. app_of c ≡ debugging_app) }
{
    let command = running_command(alloc)?;
    let debug = debug_command(alloc)?;
    with_command(command, debug)
}

/// The program's command.
pub(crate) fn command<'a>(alloc: Global) -> Result<Command<'a>, AllocError>
    ensures { IfOk result (λ c. app_of c ≡ dbench_app) }
{
    let command = debugging_command(alloc)?;
    let live = live_command(alloc)?;
    with_command(command, live)
}
