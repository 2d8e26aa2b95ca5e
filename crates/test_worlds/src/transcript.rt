//! Transcripts: lines for `bench_play`, and below each, behind `=`, what it prints.
//! Two more lines do what a program has to:
//!
//! | Line | What it does or prints |
//! |---|---|
//! | `flood` | a request for no units by each of 4,096 sessions, of which the first 4,095 are answered |
//! | `again` | the log runs in a second bench, each entry made wrong before, its steps in a third: what goes wrong |
//!
//! Lines that begin with `#`, lines of nodes and empty ones are passed over.
//! The lines between `each A B` and `end` are played for each number from A to B, which stands for `%`.

use crate::flood::flood;
use crate::replay::run_again;
use bench_play::{Play, number_in};
use bench_world::TakesSteps;
use std::alloc::{AllocError, Global};

/// The line that was played last, and what is wanted of it.
struct Wanted {
    text: Vec<u8>,
    line: String,
}

impl Drop for Wanted {
    fn drop(self) {
        let Wanted { text, line } = self;
    }
}

/// Whether a line is played.
pub fn is_played(line: &str) -> bool {
    !line.is_empty() && !line.starts_with('#') && !line.starts_with("node ")
}

/// A line with a number for `%`.
fn numbered(alloc: Global, line: &str, number: u64) -> Result<String, AllocError> {
    let (before, after) = line.split_once('%').unwrap_or((line, ""));
    if before.len() == line.len() {
        String::from_str(alloc, line)
    } else {
        format!(in alloc; "{before}{number}{after}")
    }
}

/// Puts what was printed, where that is not what was wanted; both are gone then.
fn compare<B: TakesSteps + Drop>(
    play: &mut Play<'_, B>,
    wanted: &mut Wanted,
    report: &mut Vec<u8>,
) -> Result<(), AllocError> {
    if play.out.as_slice() != wanted.text.as_slice() {
        report.extend_from_slice(b"  ")?;
        report.extend_from_slice(wanted.line.as_bytes())?;
        report.extend_from_slice(b"\n")?;
        report.extend_from_slice(play.out.as_slice())?;
    }
    play.out.clear();
    wanted.text.clear();
    Ok(())
}

/// Does what a line says.
fn obeys<B: TakesSteps + Drop>(play: &mut Play<'_, B>, line: &str) -> Result<(), AllocError> {
    match line {
        "flood" => flood(play),
        "again" => run_again(play),
        _ => play.obeys(line),
    }
}

/// Plays lines with a number for `%`.
fn plays_lines<B: TakesSteps + Drop>(
    play: &mut Play<'_, B>,
    text: &str,
    number: u64,
    report: &mut Vec<u8>,
) -> Result<(), AllocError> {
    let mut wanted = Wanted {
        text: Vec::new(play.alloc),
        line: String::new(play.alloc),
    };
    for line in text.split('\n') {
        if let Some(more) = line.strip_prefix("=") {
            wanted.text.extend_from_slice(more.as_bytes())?;
            wanted.text.extend_from_slice(b"\n")?;
        } else if is_played(line) {
            compare(play, &mut wanted, report)?;
            wanted.line = numbered(play.alloc, line, number)?;
            obeys(play, wanted.line.as_str())?;
        }
    }
    compare(play, &mut wanted, report)
}

/// Plays lines that are played for each number, and those behind them.
fn plays_each<B: TakesSteps + Drop>(
    play: &mut Play<'_, B>,
    part: &str,
    report: &mut Vec<u8>,
) -> Result<(), AllocError> {
    let (head, body) = part.split_once('\n').unwrap_or((part, ""));
    let (first, last) = head.split_once(' ').unwrap_or((head, ""));
    let (block, rest) = body.split_once("\nend").unwrap_or((body, ""));
    for number in number_in(first)..number_in(last).saturating_add(1) {
        plays_lines(play, block, number, report)?;
    }
    plays_lines(play, rest, 0, report)
}

/// Plays a transcript. Puts each line that does not print what it should, and what it prints.
pub fn plays<B: TakesSteps + Drop>(
    play: &mut Play<'_, B>,
    text: &str,
    report: &mut Vec<u8>,
) -> Result<(), AllocError> {
    let mut parts = text.split("\neach ");
    if let Some(first) = parts.next() {
        plays_lines(play, first, 0, report)?;
    }
    for part in parts {
        plays_each(play, part, report)?;
    }
    Ok(())
}
