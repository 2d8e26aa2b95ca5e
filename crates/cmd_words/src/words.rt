//! The words on the command line.
ghost use Rattle.std.specs.Prelude.{◌≡◌, Some, map, option_map};
ghost use Rattle.clap.specs.Words.{first_of, found_of, kind_of, rows_of};
ghost use Rattle.cmd_words.specs.declared.words.WordsError.TheVariants.{NoMemory};
ghost use Rattle.cmd_words.specs.Words.{debug_in, debug_wanted, is_given, live_in, live_wanted, read_wanted, run_in};
ghost use Rattle.cmd_words.specs.Words.{run_wanted, walk_wanted, wanted_of, cut_of, logged};
ghost use Rattle.cmd_words.specs.Words.{nodes_wanted, runs_in, uncut};
ghost use Rattle.cmd_words.specs.Invocations.{IsAsked, IsRefusal, meaning};

use crate::commands::command;
use crate::debug::DEBUG_USAGE;
use crate::live::LIVE_USAGE;
use crate::texts::{READ_USAGE, RUN_USAGE, WALK_USAGE};
use base_text::number_of;
use clap::error::ErrorKind;
use clap::{ArgMatches, Error};
use msg_input::Style;
use std::alloc::{AllocError, AllocFailed, AllocGlobal, Global};
use std::convert::AsStr;
use std::env::Env;
use std::{env, io};

/// Why there are no words.
#[derive(Clone, Copy)]
pub enum NoWords {
    NoMemory,
    /// One of them isn't UTF-8.
    NotText,
}

fn no_words(error: &io::Error) -> NoWords {
    match error.kind() {
        io::ErrorKind::OutOfMemory => NoWords::NoMemory,
        _ => NoWords::NotText,
    }
}

/// The words that the system hands over, the program's name first.
pub fn given_words<R: Env + AllocGlobal>(rt: &R) -> Result<Vec<String>, NoWords> {
    match env::args(rt) {
        Ok(words) => match words.collect(rt.alloc()) {
            Ok(words) => Ok(words),
            Err(AllocError) => Err(NoWords::NoMemory),
        },
        Err(error) => Err(no_words(&error)),
    }
}

/// What a command asks for.
#[derive(Clone, Copy)]
pub enum Task<'a> {
    /// `read` in a style, each line by itself or not, by the dictionary of a file or without one,
    /// of this file or of standard input.
    Read(Style, bool, Option<&'a str>, Option<&'a str>),
    /// `walk`, saying why or not, from where this text says or from the start, of this table,
    /// over the events of this file or of standard input.
    Walk(bool, Option<&'a str>, &'a str, Option<&'a str>),
    /// The names that tables may use.
    Names,
    /// The table of the role of that name.
    Table(&'a str),
    /// `draw`, of the table of this file or of standard input.
    Draw(Option<&'a str>),
    /// `asm`, of the table of this file or of standard input.
    Assemble(Option<&'a str>),
    /// `list`, of the image of this file or of standard input.
    ListImage(Option<&'a str>),
    /// `run`, quiet or not, telling what was sent and the totals or not, of the first node of this file,
    /// over the script of this file or of standard input.
    Run(bool, bool, bool, &'a str, Option<&'a str>),
    /// `debug`, of the first node of this file, over the script of this file or over none,
    /// with the commands of this file or of standard input.
    Debug(&'a str, Option<&'a str>, Option<&'a str>),
    /// `run --nodes`, quiet or not, telling what was sent and the totals or not, in pieces of so many octets, of the
    /// nodes of this file, over the script of this file or of standard input.
    Nodes(bool, bool, bool, u64, &'a str, Option<&'a str>),
    /// The same, and the log of each node is written into this folder, which stands first.
    Logged(&'a str, bool, bool, bool, u64, &'a str, Option<&'a str>),
    /// A small CONFIG.
    Sample,
    /// `live`: the nodes of this file, or the one of this host, for so many seconds or not,
    /// with their logs written to this folder or not, and with a line a second or not.
    Live(&'a str, Option<&'a str>, Option<&'a str>, Option<&'a str>, bool),
    /// Not one thing: what is told then.
    Nothing(&'static str),
}

/// What the words ask for.
#[derive(Drop)]
pub enum Invocation<'a> {
    Task(Task<'a>),
    /// A text: help or the version.
    Text(String),
}

/// Why the words ask for nothing.
#[derive(Drop)]
pub enum WordsError {
    NoMemory,
    /// They aren't understood, as this text says.
    Refused(String),
}

impl From<AllocError> for WordsError {
    ghost from_gives = { λ _ e. e ≡ NoMemory };

    fn from(_e: AllocError) -> WordsError {
        WordsError::NoMemory
    }
}

impl<T: Drop> From<AllocFailed<T>> for WordsError {
    ghost from_gives = { λ _ e. e ≡ NoMemory };

    fn from(_e: AllocFailed<T>) -> WordsError {
        WordsError::NoMemory
    }
}

// The text of an error is asked for, or tells what is wrong with the words.
fn refusal<'a>(alloc: Global, error: &Error) -> Result<Invocation<'a>, WordsError>
    ensures { IsRefusal (kind_of error.now) result }
{
    match error.kind() {
        ErrorKind::OutOfMemory => Err(WordsError::NoMemory),
        ErrorKind::DisplayHelp | ErrorKind::DisplayVersion => {
            Ok(Invocation::Text(format!(in alloc; "{error}")?))
        }
        _ => Err(WordsError::Refused(format!(in alloc; "{error}")?)),
    }
}

/// Whether a flag has the value of one that was given.
fn is_given(value: Option<&str>) -> bool
    ensures { result ≡ is_given (option_map (λ text. text.now) value.entry) }
{
    match value {
        Some(text) => text == "true",
        None => false,
    }
}

/// What `read` asks for, by its flags, the file of a dictionary and FILE.
fn read_task<'a>(
    explain: bool,
    json: bool,
    by_line: bool,
    dictionary: Option<&'a str>,
    file: Option<&'a str>,
) -> Task<'a>
    ensures { meaning result ≡ read_wanted explain json by_line (option_map (λ text. text.now) dictionary.entry)
        (option_map (λ text. text.now) file.entry) }
{
    match (explain, json) {
        (false, false) => Task::Read(Style::Plain, by_line, dictionary, file),
        (true, false) => Task::Read(Style::Explained, by_line, dictionary, file),
        (false, true) => Task::Read(Style::Json, by_line, dictionary, file),
        (true, true) => Task::Nothing(READ_USAGE),
    }
}

/// What `walk` asks for, by its flags, NAME, FROM, TABLE and EVENTS.
fn walk_task<'a>(
    names: bool,
    why: bool,
    role: Option<&'a str>,
    from: Option<&'a str>,
    table: Option<&'a str>,
    events: Option<&'a str>,
) -> Task<'a>
    ensures { meaning result
        ≡ walk_wanted names why (option_map (λ text. text.now) role.entry) (option_map (λ text. text.now) from.entry)
        (option_map (λ text. text.now) table.entry) (option_map (λ text. text.now) events.entry) }
{
    match (names, why, role, from, table, events) {
        (true, false, None, None, None, None) => Task::Names,
        (false, false, Some(role), None, None, None) => Task::Table(role),
        (false, _, None, _, Some(table), _) => Task::Walk(why, from, table, events),
        _ => Task::Nothing(WALK_USAGE),
    }
}

/// What `run` asks for, by its flags, CONFIG and SCRIPT.
fn run_task<'a>(
    sample: bool,
    quiet: bool,
    sent: bool,
    totals: bool,
    config: Option<&'a str>,
    script: Option<&'a str>,
) -> Task<'a>
    ensures { meaning result ≡ run_wanted sample quiet sent totals (option_map (λ text. text.now) config.entry)
        (option_map (λ text. text.now) script.entry) }
{
    match (sample, quiet, sent, totals, config, script) {
        (true, false, false, false, None, None) => Task::Sample,
        (false, _, _, _, Some(config), _) => Task::Run(quiet, sent, totals, config, script),
        _ => Task::Nothing(RUN_USAGE),
    }
}

/// What `live` asks for, by CONFIG, HOST, SECONDS, DIR and its flag.
fn live_task<'a>(
    config: Option<&'a str>,
    node: Option<&'a str>,
    seconds: Option<&'a str>,
    log: Option<&'a str>,
    stats: bool,
) -> Task<'a>
    ensures { meaning result ≡ live_wanted (option_map (λ text. text.now) config.entry) (option_map (λ text. text.now)
        node.entry) (option_map (λ text. text.now) seconds.entry) (option_map (λ text. text.now) log.entry) stats }
{
    match config {
        Some(config) => Task::Live(config, node, seconds, log, stats),
        None => Task::Nothing(LIVE_USAGE),
    }
}

/// In pieces of how many octets; none where that is no number from 1 on.
fn cut_of(text: Option<&str>) -> Option<u64>
    ensures { result ≡ cut_of (option_map (λ text. text.now) text.entry) }
{
    let Some(text) = text else {
        return Some(u64::MAX);
    };
    match number_of(text.as_bytes()) {
        Some(size) => { if size > 0 { Some(size) } else { None } }
        None => None,
    }
}

/// What `run --nodes` asks for, by its flags, `--cut`, CONFIG and SCRIPT.
fn nodes_task<'a>(
    sample: bool,
    quiet: bool,
    sent: bool,
    totals: bool,
    cut: Option<u64>,
    config: Option<&'a str>,
    script: Option<&'a str>,
) -> Task<'a>
    ensures { meaning result ≡ nodes_wanted sample quiet sent totals cut (option_map (λ text. text.now) config.entry)
        (option_map (λ text. text.now) script.entry) }
{
    match (sample, cut, config) {
        (false, Some(cut), Some(config)) => Task::Nodes(quiet, sent, totals, cut, config, script),
        _ => Task::Nothing(RUN_USAGE),
    }
}

/// What goes without `--cut` alone.
fn uncut<'a>(cut: Option<&str>, task: Task<'a>) -> Task<'a>
    ensures { meaning result ≡ uncut (option_map (λ text. text.now) cut.entry) (meaning task.entry) }
{
    match cut {
        None => task,
        Some(_) => Task::Nothing(RUN_USAGE),
    }
}

/// The same with `--log`: of a run of all nodes, whose logs are written into a folder.
fn logged<'a>(folder: Option<&'a str>, task: Task<'a>) -> Task<'a>
    ensures { meaning result ≡ logged (option_map (λ text. text.now) folder.entry) (meaning task.entry) }
{
    let Some(folder) = folder else {
        return task;
    };
    match task {
        Task::Nodes(quiet, sent, totals, cut, config, script) => {
            Task::Logged(folder, quiet, sent, totals, cut, config, script)
        }
        _ => Task::Nothing(RUN_USAGE),
    }
}

/// The value of an argument, if it has one.
fn value_of<'a>(found: &ArgMatches<'a>, id: &str) -> Option<&'a str>
    ensures { option_map (λ text. text.now) result ≡ first_of id.now (rows_of (found_of found.now)) }
{
    found.get_str(id)
}

/// What `run` asks for, without `--log`.
fn runs_task<'a>(found: &ArgMatches<'a>) -> Task<'a>
    ensures { meaning result ≡ runs_in (rows_of (found_of found.now)) }
{
    let sample = is_given(value_of(found, "sample"));
    let quiet = is_given(value_of(found, "quiet"));
    let sent = is_given(value_of(found, "sent"));
    let totals = is_given(value_of(found, "totals"));
    let config = value_of(found, "CONFIG");
    let script = value_of(found, "SCRIPT");
    let cut = value_of(found, "N");
    if is_given(value_of(found, "nodes")) {
        return nodes_task(sample, quiet, sent, totals, cut_of(cut), config, script);
    }
    uncut(cut, run_task(sample, quiet, sent, totals, config, script))
}

/// What `run` asks for.
fn run_task_of<'a>(found: &ArgMatches<'a>) -> Task<'a>
    ensures { meaning result ≡ run_in (rows_of (found_of found.now)) }
{
    logged(value_of(found, "DIR"), runs_task(found))
}

/// What `debug` asks for, by CONFIG, SCRIPT and the file of commands.
fn debug_task<'a>(
    config: Option<&'a str>,
    script: Option<&'a str>,
    commands: Option<&'a str>,
) -> Task<'a>
    ensures { meaning result ≡ debug_wanted (option_map (λ text. text.now) config.entry)
        (option_map (λ text. text.now) script.entry) (option_map (λ text. text.now) commands.entry) }
{
    match config {
        Some(config) => Task::Debug(config, script, commands),
        None => Task::Nothing(DEBUG_USAGE),
    }
}

/// What `debug` asks for.
fn debug_task_of<'a>(found: &ArgMatches<'a>) -> Task<'a>
    ensures { meaning result ≡ debug_in (rows_of (found_of found.now)) }
{
    let config = value_of(found, "CONFIG");
    let script = value_of(found, "SCRIPT");
    debug_task(config, script, value_of(found, "FILE"))
}

/// What `live` asks for.
fn live_task_of<'a>(found: &ArgMatches<'a>) -> Task<'a>
    ensures { meaning result ≡ live_in (rows_of (found_of found.now)) }
{
    let config = value_of(found, "CONFIG");
    let node = value_of(found, "HOST");
    let seconds = value_of(found, "SECONDS");
    let log = value_of(found, "DIR");
    live_task(
        config,
        node,
        seconds,
        log,
        is_given(value_of(found, "stats")),
    )
}

/// What a command asks for, by its name and what stands behind it.
fn task_of<'a>(name: &str, found: &ArgMatches<'a>) -> Task<'a>
    ensures { meaning result ≡ wanted_of (Some (name.now, rows_of (found_of found.now))) }
{
    if name == "draw" {
        return Task::Draw(value_of(found, "TABLE"));
    }
    if name == "asm" {
        return Task::Assemble(value_of(found, "TABLE"));
    }
    if name == "list" {
        return Task::ListImage(value_of(found, "FILE"));
    }
    if name == "run" {
        return run_task_of(found);
    }
    if name == "debug" {
        return debug_task_of(found);
    }
    if name == "live" {
        return live_task_of(found);
    }
    if name == "walk" {
        let names = is_given(value_of(found, "names"));
        let why = is_given(value_of(found, "why"));
        let role = value_of(found, "NAME");
        walk_task(
            names,
            why,
            role,
            value_of(found, "FROM"),
            value_of(found, "TABLE"),
            value_of(found, "EVENTS"),
        )
    } else {
        let explain = is_given(value_of(found, "explain"));
        let json = is_given(value_of(found, "json"));
        let by_line = is_given(value_of(found, "lines"));
        read_task(
            explain,
            json,
            by_line,
            value_of(found, "DICT"),
            value_of(found, "FILE"),
        )
    }
}

/// What the words ask for; the first of them is the program's name.
pub fn parse_words<'a, S: AsStr>(
    alloc: Global,
    words: &'a [S],
) -> Result<Invocation<'a>, WordsError>
    ensures { IsAsked (map S.text words.entry.now) result }
{
    let matches = match command(alloc)?.try_get_matches_from(words) {
        Ok(matches) => matches,
        Err(error) => return refusal(alloc, &error),
    };
    match matches.subcommand() {
        Some((name, found)) => Ok(Invocation::Task(task_of(name, found))),
        None => Ok(Invocation::Task(Task::Read(Style::Plain, false, None, None))),
    }
}
