//! Plays the transcripts that words name on benches whose callbacks keep their laws and count how often they are asked.
//!
//! | File | What it has |
//! |---|---|
//! | `node` | nodes that are opened, in few words |
//! | `grants` | what callbacks answer |
//! | `transcript` | transcripts, and what they print that they should not |
//! | `flood`, `replay` | more sessions than there is room for; a log that is run again |
//! | `memory` | steps that are refused for memory |
//! | `alike` | the logs of whole transcripts, run again |
//!
//! A word is the path of a transcript. Before it may stand `refusing:`, then steps that are refused are tried before
//! each step; or `again:`, then each node is opened twice, and in the end the log of each bench is run again on its
//! twin, and on itself from its start.
#![tactic(auto)]

mod alike;
mod flood;
mod grants;
mod memory;
mod node;
mod replay;
mod transcript;

use crate::alike::run_alike;
use crate::grants::answer;
use crate::memory::take_in_lockstep;
use crate::node::{NodeError, config_of, long_table, number_said, said};
use crate::transcript::plays;
use base_text::put_number;
use bench_item::Step;
use bench_open::Config;
use bench_play::Play;
use bench_spec::OpeningError;
use bench_world::{TakesSteps, World};
use role_tables::{SERVER_TABLE, all_laws};
use std::alloc::{AllocError, Global};
use std::process::ExitCode;
use std::sync::Arc;
use std::sync::atomic::{AtomicU64, Ordering};
use std::{env, fs, io, str};
use tab_call::{Ask, Calls, Do, Registry, StoredAct, StoredGuard};
use tab_law::{Acted, LawBook, Scene, holds};
use tab_role::TakesRoles;

/// Puts why a bench is not opened, in words.
fn put_error(error: &OpeningError, out: &mut Vec<u8>) -> Result<(), AllocError> {
    let text = match error {
        OpeningError::Limits => b"limits".as_slice(),
        OpeningError::Names => b"names".as_slice(),
        OpeningError::Laws => b"laws".as_slice(),
        OpeningError::Unbound(name) => name.as_slice(),
        OpeningError::Account => b"account".as_slice(),
        OpeningError::NoMemory => b"no memory".as_slice(),
    };
    out.extend_from_slice(b" refused: ")?;
    out.extend_from_slice(text)?;
    out.extend_from_slice(b"\n")
}

/// Puts why a node is not made.
fn put_node_error(error: &NodeError, out: &mut Vec<u8>) -> Result<(), AllocError> {
    match error {
        NodeError::Table(line, code) => {
            put_number(out, b" line ", *line as u64)?;
            put_number(out, b" fault ", u64::from(*code))?;
            out.extend_from_slice(b"\n")
        }
        NodeError::NoMemory => out.extend_from_slice(b" no memory\n"),
    }
}

/// The text of the table of a node's servers: of so many rows, of a file, or the shipped one.
fn server_of(rt: &HostRuntime, line: &str) -> io::Result<String> {
    let rows = number_said(line, "rows");
    let name = said(line, "server");
    if rows > 0 {
        Ok(long_table(rt.alloc(), rows)?)
    } else if name.is_empty() {
        Ok(String::from_str(rt.alloc(), SERVER_TABLE)?)
    } else {
        let file = format!(in rt.alloc(); "tables/{name}.tbl")?;
        fs::read_to_string(rt, file.as_str())
    }
}

/// Adds what the nodes of a transcript are opened with. Why one is not made is put.
fn add_configs(
    rt: &HostRuntime,
    text: &str,
    configs: &mut Vec<Config>,
    out: &mut Vec<u8>,
) -> io::Result<()> {
    for line in text.split('\n') {
        if line.starts_with("node ") {
            let server = server_of(rt, line)?;
            match config_of(rt.alloc(), line, server.as_str()) {
                Ok(config) => configs.push(config)?,
                Err(error) => put_node_error(&error, out)?,
            }
        }
    }
    Ok(())
}

/// What the nodes of a transcript are opened with; of one whose log is run again, each twice.
fn configs_of(
    rt: &HostRuntime,
    manner: &str,
    text: &str,
    out: &mut Vec<u8>,
) -> io::Result<Vec<Config>> {
    let mut configs = Vec::new(rt.alloc());
    add_configs(rt, text, &mut configs, out)?;
    if manner == "again" {
        add_configs(rt, text, &mut configs, out)?;
    }
    Ok(configs)
}

/// How many shards the nodes have.
fn shards_of(configs: &[Config]) -> u64 {
    let mut count = 0u64;
    for config in configs {
        count = count.saturating_add(config.shards);
    }
    count
}

/// Plays a transcript in a manner, or its steps on two benches alike.
fn tries<B: TakesSteps + Drop>(
    play: &mut Play<'_, B>,
    manner: &str,
    word: &str,
    text: &str,
    report: &mut Vec<u8>,
) -> Result<(), AllocError> {
    if word.starts_with("memory/") {
        return take_in_lockstep(play, text, report);
    }
    if manner == "refusing" {
        play.refuse();
    }
    plays(play, text, report)?;
    if manner == "again" {
        run_alike(play, report)?;
    }
    Ok(())
}

/// Opens the benches of a transcript, each with the next of as many registries as there are shards,
/// and plays it. Answers what goes wrong.
fn tried(
    alloc: Global,
    laws: &LawBook,
    list: &str,
    manner: &str,
    word: &str,
    text: &str,
    configs: Vec<Config>,
    refused: Vec<u8>,
) -> Result<Vec<u8>, AllocError> {
    let asks = Arc::new(alloc, AtomicU64::new(0))?;
    let mut registries = Vec::new(alloc);
    for _ in 0..shards_of(&configs) {
        let mut guards = Vec::new(alloc);
        for entry in laws.guards().as_slice() {
            let own = entry.value.copy(alloc)?;
            let count = Arc::try_clone(&asks)?;
            let ask: Ask = Box::new(alloc, move |scene: &Scene| {
                count.fetch_add(1, Ordering::SeqCst);
                holds(&own, scene)
            })?;
            guards.push(StoredGuard::new(entry.value.copy(alloc)?, ask))?;
        }
        let mut acts = Vec::new(alloc);
        for entry in laws.acts().as_slice() {
            let own = entry.value.copy(alloc)?;
            let count = Arc::try_clone(&asks)?;
            let is_sparing = word.ends_with("_sparing")
                && entry.name.as_slice() == b"Reserve".as_slice();
            let act: Do = Box::new(alloc, move |scene: &Scene, room: &mut Acted| {
                count.fetch_add(1, Ordering::SeqCst);
                answer(&own, scene, is_sparing, room);
            })?;
            acts.push(StoredAct::new(entry.value.copy(alloc)?, act))?;
        }
        let mut registry = Registry::new(alloc);
        if registry.register(laws, Calls { guards, acts }).is_err() {
            return Err(AllocError);
        }
        registries.push(registry)?;
    }
    let mut out = refused;
    let mut worlds = Vec::new(alloc);
    let mut left = registries.into_iter();
    for config in configs {
        let mut own = Vec::new(alloc);
        for _ in 0..config.shards {
            if let Some(registry) = left.next() {
                own.push(registry)?;
            }
        }
        match World::new(alloc, config, own) {
            Ok(mut world) => {
                world.each_is_own_run();
                world.is_legal_at_each_place();
                world.is_never_over();
                if world.step_and_back(Step::Joined).is_err() {
                    out.extend_from_slice(b" no line is opened\n")?;
                }
                worlds.push(world)?;
            }
            Err(error) => put_error(&error, &mut out)?,
        }
    }
    let mut report = Vec::new(alloc);
    let mut play = Play::new(alloc, list, worlds, asks, out);
    tries(&mut play, manner, word, text, &mut report)?;
    Ok(report)
}

/// What goes wrong with the transcript that a word names.
fn wrong(rt: &HostRuntime, laws: &LawBook, list: &str, word: &str) -> io::Result<Vec<u8>> {
    let (manner, name) = word.split_once(':').unwrap_or(("", word));
    let file = format!(in rt.alloc(); "{name}.txt")?;
    let text = fs::read_to_string(rt, file.as_str())?;
    let mut refused = Vec::new(rt.alloc());
    let configs = configs_of(rt, manner, text.as_str(), &mut refused)?;
    let report = tried(
        rt.alloc(),
        laws,
        list,
        manner,
        name,
        text.as_str(),
        configs,
        refused,
    )?;
    Ok(report)
}

fn main(rt: HostRuntime) -> io::Result<ExitCode> {
    let words: Vec<String> = env::args(&rt)?.collect(rt.alloc())?;
    let laws = all_laws(rt.alloc())?;
    let list = fs::read_to_string(&rt, "words.txt")?;
    let mut wrong_count = 0u64;
    for word in words.iter().skip(1) {
        let report = wrong(&rt, &laws, list.as_str(), word.as_str())?;
        if !report.is_empty() {
            wrong_count = wrong_count.saturating_add(1);
            let text = str::from_utf8(report.as_slice()).unwrap_or("no text");
            println!(&rt; "{word}:\n{text}")?;
        }
    }
    let count = words.len().saturating_sub(1);
    if wrong_count > 0 {
        println!(&rt; "{wrong_count} of {count} transcripts are not as they say")?;
        return Ok(ExitCode::FAILURE);
    }
    println!(&rt; "{count} transcripts are as they say")?;
    Ok(ExitCode::SUCCESS)
}
