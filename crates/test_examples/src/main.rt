//! Reads each example that a word names, in the folder where it runs, and compares what is printed, and the exit
//! status, with `expected/NAME.txt`; of a word `explained/NAME` what is printed in names. Then tries the rows of
//! `rows/`, and messages, texts, readers and writers that are made here. What is not as expected is named, a row by its
//! file and line. If all is, the last line tells how many examples and rows there were.
#![tactic(auto)]

mod commands;
mod explained;
mod faults;
mod inputs;
mod lines;
mod messages;
mod streams;

use base_device::Counting;
use commands::wrong_command;
use dia_show::Glossary;
use explained::wrong_stop;
use faults::wrong_fault;
use inputs::wrong_input;
use lines::wrong_lines;
use messages::{Rows, Wrong, number_of, wrong_row};
use msg_text::{Style, read_on};
use std::alloc::{AllocError, Global};
use std::process::ExitCode;
use std::{env, fs, io};

/// The style in which an example is printed, and its name.
fn styled(word: &str) -> (Style, &str) {
    match word.strip_prefix("explained/") {
        Some(name) => (Style::Explained, name),
        None => (Style::Plain, word),
    }
}

/// Whether the text that is printed of an example, and the status, are the expected ones.
fn is_as_expected(rt: &HostRuntime, word: &str) -> io::Result<bool> {
    let alloc = rt.alloc();
    let (style, name) = styled(word);
    let glossary = Glossary::base(alloc)?;
    let input = format!(in alloc; "{name}.hex")?;
    let wanted = format!(in alloc; "expected/{word}.txt")?;
    let mut source = Counting::new(fs::open(rt, input.as_str())?);
    let mut sink = Counting::new(Vec::new(alloc));
    let status = read_on(style, alloc, &glossary, &mut source, &mut sink);
    let last = format!(in alloc; "status {}\n", status.code())?;
    sink.device.extend_from_slice(last.as_bytes())?;
    Ok(sink.device.as_slice() == fs::read(rt, wanted.as_str())?.as_slice())
}

/// How many rows a file has, if they are as they say; the first that isn't is told, with its line.
fn right_rows(rt: &HostRuntime, file: &str, kind: Rows) -> io::Result<Option<usize>> {
    let rows = fs::read_to_string(rt, file)?;
    match wrong_row(rt.alloc(), kind, rows.as_str())? {
        None => Ok(Some(number_of(rows.as_str()))),
        Some((row, place)) => {
            let line = place.saturating_add(1);
            println!(rt; "{file}:{line}: {row} is not as expected")?;
            Ok(None)
        }
    }
}

/// How many rows all files have, if they are as they say.
fn all_rows(rt: &HostRuntime) -> io::Result<Option<usize>> {
    let refused = right_rows(rt, "rows/refused.rows", Rows::Refused)?;
    let written = right_rows(rt, "rows/written.rows", Rows::Written)?;
    let kept = right_rows(rt, "rows/kept.rows", Rows::Kept)?;
    match (refused, written, kept) {
        (Some(a), Some(b), Some(c)) => Ok(Some(a.saturating_add(b).saturating_add(c))),
        _ => Ok(None),
    }
}

/// What of all that is made here isn't as expected.
fn wrong(alloc: Global) -> Result<Wrong<'static>, AllocError> {
    let command = wrong_command(alloc)?;
    let fault = wrong_fault(alloc)?;
    let input = wrong_input(alloc)?;
    let stop = wrong_stop(alloc)?;
    let lines = wrong_lines(alloc)?;
    Ok(command.or(fault).or(input).or(stop).or(lines))
}

fn main(rt: HostRuntime) -> io::Result<ExitCode> {
    let words: Vec<String> = env::args(&rt)?.collect(rt.alloc())?;
    let mut all = true;
    for name in words.iter().skip(1) {
        if !is_as_expected(&rt, name.as_str())? {
            all = false;
            println!(&rt; "{name} is not as expected")?;
        }
    }
    let rows = all_rows(&rt)?;
    if rows.is_none() {
        all = false;
    }
    if let Some((what, number)) = wrong(rt.alloc())? {
        all = false;
        println!(&rt; "{what} ({number}) is not as expected")?;
    }
    if !all {
        return Ok(ExitCode::FAILURE);
    }
    let count = words.len().saturating_sub(1);
    let rows = rows.unwrap_or(0);
    println!(&rt; "{count} examples and {rows} rows as expected")?;
    Ok(ExitCode::SUCCESS)
}
