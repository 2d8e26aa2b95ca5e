//! Benches that are played by a transcript.
//!
//! A line is a step as in a script of `script_text`, but what came on a line is told by words, of which `came L
//! first N WORDS` takes the first so many octets. A step that is refused prints the number of its fault. Other lines
//! look, or do more than a step:
//!
//! | Line | What it does or prints |
//! |---|---|
//! | `show KEY`, `timer KEY`, `totals ACCOUNT`, `line L`, `place` | what stands there |
//! | `sent L WORDS`, `tail L WORDS` | whether these are the octets that were sent, or the last of them |
//! | `last COUNT` | the last so many entries of the log |
//! | `fate` | what became of the item that was handled last |
//! | `names` | the names of kinds of events and of each role's states, and the machines by number |
//! | `read` | whether the text of the log is read back |
//! | `back COUNT` | so many steps are taken back: where that led to |
//! | `pause S`, `resume S` | a shard stops, and goes on |
//! | `carry SRC` | what waits is lifted and dropped, once |
//! | `settle` | all that waits is carried and worked, what connections have first |
//! | `bench N` | the lines behind it are for that bench |
//! | `pass L FROM M` | the octets that were sent on a line, from that place on, come on line M of the other bench |
//! | `asked` | whether a callback was asked since the last such line |
//! | `trace` | what is shown is kept at each place from now on |
//! | `retrace` | back there, forward by replay and back again: whether each place shows the same, no callback asked |

use crate::looks::{
    number_in, put_all, put_back, put_fate, put_last, put_line, put_names, put_read_back,
    put_sent_is, put_shown, put_tail_is, put_timer, put_totals, short_in,
};
use crate::refusing::are_refused;
use crate::words::joined;
use base_list::Octets;
use base_text::put_number;
use bench_core::Core;
use bench_item::{Entry, Source, Step};
use bench_world::TakesSteps;
use script_text::{ScriptStep, read_key, read_line};
use std::alloc::{AllocError, Global};
use std::sync::Arc;
use std::sync::atomic::{AtomicU64, Ordering};

/// The most that is carried or worked by one line.
const MAX_CARRIED: u32 = 100_000;

/// Benches, of which one is played, and what was printed.
pub struct Play<'a, B: TakesSteps + Drop> {
    pub alloc: Global,
    /// What words of octets stand for.
    pub list: &'a str,
    pub worlds: Vec<B>,
    at: usize,
    pub out: Vec<u8>,
    asks: Arc<AtomicU64>,
    seen_asks: u64,
    traces: bool,
    seen: Vec<Vec<u8>>,
    refuses: bool,
}

impl<'a, B: TakesSteps + Drop> Drop for Play<'a, B> {
    fn drop(self) {
        let Play {
            alloc: _,
            list: _,
            worlds,
            at: _,
            out,
            asks,
            seen_asks: _,
            traces: _,
            seen,
            refuses: _,
        } = self;
    }
}

/// All that a bench shows.
pub fn all_of(alloc: Global, core: &Core) -> Result<Vec<u8>, AllocError> {
    let mut out = Vec::new(alloc);
    put_all(alloc, core, &mut out)?;
    Ok(out)
}

/// What a line asks for, as a step. None where it has another form, or its machine is not there.
fn step_in(alloc: Global, core: &Core, line: &str) -> Result<Option<Step>, AllocError> {
    match read_line(alloc, core.laws(), line.as_bytes())? {
        Some(ScriptStep::Step(step)) => Ok(Some(step)),
        Some(ScriptStep::Fired { key, generation }) => Ok(match core.number_of(&key) {
            Some(machine) => Some(Step::Fired {
                machine,
                generation,
            }),
            None => None,
        }),
        None => Ok(None),
    }
}

/// The octets of words; behind `first N` only so many of them.
fn came_octets(alloc: Global, list: &str, words: &str) -> Result<Vec<u8>, AllocError> {
    let Some(rest) = words.strip_prefix("first ") else {
        return joined(alloc, list, words);
    };
    let (count, words) = rest.split_once(' ').unwrap_or((rest, ""));
    let mut octets = joined(alloc, list, words)?;
    octets.truncate(number_in(count) as usize);
    Ok(octets)
}

/// The step of a line, also where it tells octets by words.
pub fn step_of(
    alloc: Global,
    list: &str,
    core: &Core,
    line: &str,
) -> Result<Option<Step>, AllocError> {
    let Some(rest) = line.strip_prefix("came ") else {
        return step_in(alloc, core, line);
    };
    let (number, words) = rest.split_once(' ').unwrap_or((rest, ""));
    let octets = came_octets(alloc, list, words)?;
    Ok(Some(Step::Came {
        line: short_in(number),
        piece: Octets::new(octets),
    }))
}

/// The number of the machine of a key.
fn number_of(alloc: Global, core: &Core, word: &str) -> Result<u64, AllocError> {
    let number = match read_key(alloc, word.as_bytes())? {
        Some(key) => core.number_of(&key),
        None => None,
    };
    Ok(number.unwrap_or(u64::MAX))
}

/// The octets that a bench has sent on a line, from a place on.
fn sent_from(alloc: Global, core: &Core, line: u32, from: usize) -> Result<Vec<u8>, AllocError> {
    let mut octets = Vec::new(alloc);
    if let Some(tail) = core.sent(line).get(from..) {
        octets.extend_from_slice(tail)?;
    }
    Ok(octets)
}

/// The entries of a log from a place on.
fn entries_from(alloc: Global, core: &Core, first: usize) -> Result<Vec<Entry>, AllocError> {
    let mut entries = Vec::new(alloc);
    for place in first..core.place() {
        if let Some(entry) = core.log().entry(place, alloc)? {
            entries.push(entry)?;
        }
    }
    Ok(entries)
}

/// Puts a line that looks at a bench. Whether its word is one of these.
fn puts_look(
    alloc: Global,
    list: &str,
    core: &Core,
    verb: &str,
    rest: &str,
    out: &mut Vec<u8>,
) -> Result<bool, AllocError> {
    let (line, words) = rest.split_once(' ').unwrap_or((rest, ""));
    match verb {
        "show" => put_shown(alloc, core, rest, out)?,
        "timer" => put_timer(core, number_of(alloc, core, rest)?, out)?,
        "totals" => put_totals(alloc, core, number_in(rest), out)?,
        "line" => put_line(core, short_in(rest), out)?,
        "place" => put_place(core, out)?,
        "sent" => put_sent_is(core, short_in(line), &joined(alloc, list, words)?, out)?,
        "tail" => put_tail_is(core, short_in(line), &joined(alloc, list, words)?, out)?,
        "last" => put_last(alloc, core, number_in(rest) as usize, out)?,
        "fate" => put_fate(alloc, core, out)?,
        "names" => put_names(core, out)?,
        "read" => put_read_back(alloc, core, out)?,
        _ => return Ok(false),
    }
    Ok(true)
}

/// Puts how many steps were taken.
fn put_place(core: &Core, out: &mut Vec<u8>) -> Result<(), AllocError> {
    put_number(out, b" at ", core.place() as u64)?;
    out.extend_from_slice(b"\n")
}

/// Puts where there is no shard.
fn put_shard_is(there: bool, out: &mut Vec<u8>) -> Result<(), AllocError> {
    if there {
        return Ok(());
    }
    out.extend_from_slice(b" no shard\n")
}

impl<'a, B: TakesSteps + Drop> Play<'a, B> {
    /// Benches of which the first is played, and what was printed of them before.
    pub fn new(
        alloc: Global,
        list: &'a str,
        worlds: Vec<B>,
        asks: Arc<AtomicU64>,
        out: Vec<u8>,
    ) -> Play<'a, B> {
        Play {
            alloc,
            list,
            worlds,
            at: 0,
            out,
            asks,
            seen_asks: 0,
            traces: false,
            seen: Vec::new(alloc),
            refuses: false,
        }
    }

    /// From now on steps that are refused are tried before each step.
    pub fn refuse(&mut self) {
        self.refuses = true;
    }

    /// Tries steps that are refused, where that is wanted.
    fn tries_refused(&mut self) -> Result<(), AllocError> {
        if !self.refuses {
            return Ok(());
        }
        let Some(world) = self.worlds.get_mut(self.at) else {
            return Ok(());
        };
        if !are_refused(self.alloc, world)? {
            self.out.extend_from_slice(b" not refused\n")?;
        }
        Ok(())
    }

    /// Takes a step; whether it was taken. A fault is printed where that is wanted.
    pub fn take(&mut self, step: Step, tells: bool) -> Result<bool, AllocError> {
        self.tries_refused()?;
        let Some(world) = self.worlds.get_mut(self.at) else {
            return Ok(false);
        };
        match world.step(step) {
            Ok(()) => {
                self.keep_shown()?;
                Ok(true)
            }
            Err(fault) => {
                self.tell_changed()?;
                if tells {
                    put_number(&mut self.out, b" refused ", u64::from(fault.number()))?;
                    self.out.extend_from_slice(b"\n")?;
                }
                Ok(false)
            }
        }
    }

    /// Keeps what is shown, while each place is traced.
    fn keep_shown(&mut self) -> Result<(), AllocError> {
        if self.traces {
            let shown = self.shown()?;
            self.seen.push(shown)?;
        }
        Ok(())
    }

    /// Says that what was refused changed what is shown, while each place is traced.
    fn tell_changed(&mut self) -> Result<(), AllocError> {
        if self.traces && !self.is_as_seen(self.seen.len().saturating_sub(1))? {
            self.out
                .extend_from_slice(b" changed by what was refused\n")?;
        }
        Ok(())
    }

    /// Carries what waits at a source; how much was carried.
    fn carry(&mut self, source: Source) -> Result<u32, AllocError> {
        let mut count = 0u32;
        for _ in 0..MAX_CARRIED {
            if !self.take(Step::Lift(source), false)? {
                break;
            }
            if !self.take(Step::Drop(source), true)? {
                break;
            }
            count = count.saturating_add(1);
        }
        Ok(count)
    }

    /// Has all shards work what waits; how much was worked.
    fn work(&mut self) -> Result<u32, AllocError> {
        let mut count = 0u32;
        for shard in 0..16u32 {
            for _ in 0..MAX_CARRIED {
                if !self.take(Step::Work(shard), false)? {
                    break;
                }
                count = count.saturating_add(1);
            }
        }
        Ok(count)
    }

    /// Carries what connections have put out; how much.
    fn carry_lines(&mut self) -> Result<u32, AllocError> {
        let mut count = 0u32;
        for line in 1..8u32 {
            count = count.saturating_add(self.carry(Source::Line(line))?);
        }
        Ok(count)
    }

    /// Carries what desks, the clock and shards have put out; how much.
    fn carry_others(&mut self) -> Result<u32, AllocError> {
        let mut count = self.carry(Source::Clock)?;
        for place in 0..16u32 {
            count = count.saturating_add(self.carry(Source::Desk(place))?);
            count = count.saturating_add(self.carry(Source::Shard(place))?);
        }
        Ok(count)
    }

    /// Carries and works all that waits, what connections have first.
    pub fn settle(&mut self) -> Result<(), AllocError> {
        for _ in 0..MAX_CARRIED {
            let lines = self.carry_lines()?;
            let others = self.carry_others()?;
            let worked = self.work()?;
            if lines == 0 && others == 0 && worked == 0 {
                break;
            }
        }
        Ok(())
    }

    /// What the bench that is played shows.
    fn shown(&self) -> Result<Vec<u8>, AllocError> {
        match self.worlds.get(self.at) {
            Some(world) => all_of(self.alloc, world.core()),
            None => Ok(Vec::new(self.alloc)),
        }
    }

    /// Whether what is shown is what was kept at that place.
    fn is_as_seen(&self, place: usize) -> Result<bool, AllocError> {
        let shown = self.shown()?;
        Ok(match self.seen.get(place) {
            Some(seen) => seen.as_slice() == shown.as_slice(),
            None => false,
        })
    }

    /// Takes the last step back; whether there was one.
    fn goes_back(&mut self) -> bool {
        match self.worlds.get_mut(self.at) {
            Some(world) => world.back(),
            None => false,
        }
    }

    /// Adds an entry; whether it may follow.
    fn adds(&mut self, entry: Entry) -> bool {
        match self.worlds.get_mut(self.at) {
            Some(world) => world.replay(entry).is_ok(),
            None => false,
        }
    }

    /// Back to the place from which on what is shown was kept: whether the same is shown at each place.
    fn is_back_as_seen(&mut self, count: usize) -> Result<bool, AllocError> {
        let mut same = true;
        for gone in 0..count {
            same = same && self.is_as_seen(count - gone)?;
            same = same && self.goes_back();
        }
        Ok(same && self.is_as_seen(0)?)
    }

    /// Adds entries anew: whether each may follow and the same is shown at each place.
    fn is_forth_as_seen(&mut self, entries: Vec<Entry>) -> Result<bool, AllocError> {
        let mut same = true;
        for (place, entry) in entries.into_iter().enumerate() {
            same = same && self.adds(entry);
            same = same && self.is_as_seen(place.saturating_add(1))?;
        }
        Ok(same)
    }

    /// The entries of the bench that is played, the last so many of them.
    fn last_entries(&self, count: usize) -> Result<Vec<Entry>, AllocError> {
        match self.worlds.get(self.at) {
            Some(world) => {
                let first = world.core().place().saturating_sub(count);
                entries_from(self.alloc, world.core(), first)
            }
            None => Ok(Vec::new(self.alloc)),
        }
    }

    /// Back, forth and back again, without a callback that is asked.
    fn retraces(&mut self) -> Result<bool, AllocError> {
        self.traces = false;
        let asks = self.asked();
        let count = self.seen.len().saturating_sub(1);
        let entries = self.last_entries(count)?;
        let is_all = entries.len() == count && count > 0;
        let back = self.is_back_as_seen(count)?;
        let forth = self.is_forth_as_seen(entries)?;
        let again = self.is_back_as_seen(count)?;
        Ok(is_all && back && forth && again && self.asked() == asks)
    }

    /// Puts a word for each outcome.
    fn tell(&mut self, holds: bool, yes: &str, no: &str) -> Result<(), AllocError> {
        let text = if holds { yes } else { no };
        self.out.extend_from_slice(text.as_bytes())
    }

    /// How often a callback was asked.
    pub fn asked(&self) -> u64 {
        self.asks.load(Ordering::SeqCst)
    }

    /// Says whether a callback was asked since the last time.
    fn tell_asked(&mut self) -> Result<(), AllocError> {
        let now = self.asked();
        let changed = now != self.seen_asks;
        self.seen_asks = now;
        self.tell(changed, " asked\n", " not asked\n")
    }

    /// What is shown is kept at each place from now on.
    fn trace(&mut self) -> Result<(), AllocError> {
        let shown = self.shown()?;
        self.seen.clear();
        self.seen.push(shown)?;
        self.traces = true;
        Ok(())
    }

    /// The octets that the bench that is played has sent on a line, from a place on.
    fn sent(&self, line: &str, from: &str) -> Result<Vec<u8>, AllocError> {
        match self.worlds.get(self.at) {
            Some(world) => {
                let from = number_in(from) as usize;
                sent_from(self.alloc, world.core(), short_in(line), from)
            }
            None => Ok(Vec::new(self.alloc)),
        }
    }

    /// Octets that one bench has sent come on a line of the other.
    fn pass(&mut self, words: &str) -> Result<(), AllocError> {
        let (from_line, rest) = words.split_once(' ').unwrap_or((words, ""));
        let (from, to) = rest.split_once(' ').unwrap_or((rest, ""));
        let piece = Octets::new(self.sent(from_line, from)?);
        let at = self.at;
        self.at = if at == 0 { 1 } else { 0 };
        let line = short_in(to);
        self.take(Step::Came { line, piece }, true)?;
        self.at = at;
        Ok(())
    }

    /// Looks at the bench that is played. Whether the word is one of these.
    fn looks(&mut self, verb: &str, rest: &str) -> Result<bool, AllocError> {
        match self.worlds.get(self.at) {
            Some(world) => puts_look(
                self.alloc,
                self.list,
                world.core(),
                verb,
                rest,
                &mut self.out,
            ),
            None => Ok(false),
        }
    }

    /// Takes steps back, or changes which shards are paused. Whether the word is one of these.
    fn moves(&mut self, verb: &str, rest: &str) -> Result<bool, AllocError> {
        let Some(world) = self.worlds.get_mut(self.at) else {
            return Ok(false);
        };
        match verb {
            "back" => put_back(world, number_in(rest), &mut self.out)?,
            "pause" => put_shard_is(world.pause(short_in(rest)), &mut self.out)?,
            "resume" => put_shard_is(world.resume(short_in(rest)), &mut self.out)?,
            _ => return Ok(false),
        }
        Ok(true)
    }

    /// Does more than a step. Whether the word is one of these.
    fn does(&mut self, verb: &str, rest: &str) -> Result<bool, AllocError> {
        match verb {
            "settle" => self.settle()?,
            "bench" => self.at = number_in(rest) as usize,
            "pass" => self.pass(rest)?,
            "asked" => self.tell_asked()?,
            "carry" => self.carries(rest)?,
            "trace" => self.trace()?,
            "retrace" => {
                let same = self.retraces()?;
                self.tell(same, " the same\n", " not the same\n")?;
            }
            _ => return Ok(false),
        }
        Ok(true)
    }

    /// The step that a line asks for.
    fn step_of(&self, line: &str) -> Result<Option<Step>, AllocError> {
        match self.worlds.get(self.at) {
            Some(world) => step_of(self.alloc, self.list, world.core(), line),
            None => Ok(None),
        }
    }

    /// Lifts and drops once.
    fn carries(&mut self, rest: &str) -> Result<(), AllocError> {
        for verb in ["lift ", "drop "] {
            let line = format!(in self.alloc; "{verb}{rest}")?;
            self.steps(line.as_str())?;
        }
        Ok(())
    }

    /// Takes the step of a line. What asks for no step is refused as unknown.
    fn steps(&mut self, line: &str) -> Result<(), AllocError> {
        match self.step_of(line)? {
            Some(step) => {
                self.take(step, true)?;
                Ok(())
            }
            None => self.tell(true, " refused 2\n", ""),
        }
    }

    /// Does what a line says.
    pub fn obeys(&mut self, line: &str) -> Result<(), AllocError> {
        let (verb, rest) = line.split_once(' ').unwrap_or((line, ""));
        if self.looks(verb, rest)? || self.moves(verb, rest)? || self.does(verb, rest)? {
            return Ok(());
        }
        self.steps(line)
    }
}
