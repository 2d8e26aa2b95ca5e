//! A debugger: its bench, its place in the script, one step and back.
ghost use Rattle.std.specs.Prelude.{◌≡◌, ◌<◌, ◌-◌, [], IfErr, IfOk, IfSome, IsFalse, IsTrue, MatchBool, MatchOption};
ghost use Rattle.std.specs.Prelude.{OnErr, OnOk, OnSome, None, Some, length, map, option_copied};
ghost use Rattle.std.specs.Prelude.{slice_get, slice_index, vec_len};
ghost use Rattle.bench_script.specs.Printed.{taken_text};
ghost use Rattle.bench_script.specs.Ran.{IsRunBy};
ghost use Rattle.bench_spec.specs.Refusal.{refusal};
ghost use Rattle.bench_spec.specs.Taken.{GoesBackTo, Takes};

use crate::copying::next_step;
use base_list::Octets;
use bench_core::Core;
use bench_item::{Entry, Step};
use bench_script::put_taken;
use debug_text::{Breakpoint, CommandFault, Reply};
use script_text::ScriptStep;
use std::alloc::{AllocError, Global};
use tab_call::Registry;
use tab_step::Stepped;

/// The greatest number of a breakpoint.
pub(crate) const MAX_NUMBER: u64 = u64::MAX;

/// A breakpoint that is set, and its number.
#[derive(Drop)]
pub struct SetBreakpoint {
    pub number: u64,
    pub breakpoint: Breakpoint,
}

/// Where a debugger stands in its script, and which breakpoints are set.
#[derive(Drop)]
pub struct Progress {
    pub(crate) script: Vec<ScriptStep>,
    // The place in the script of the next step.
    pub(crate) next: usize,
    // Of each step that was taken the place in the script.
    pub(crate) taken: Vec<usize>,
    pub(crate) set: Vec<SetBreakpoint>,
    // How many breakpoints ever were set.
    pub(crate) count: u64,
}

/// A debugger: a bench, a script whose steps it takes there and takes back, and breakpoints.
///
/// In: `command`. Looks: `core`.
pub struct Debugger {
    pub(crate) alloc: Global,
    pub(crate) core: Core,
    // Where a move is decided.
    pub(crate) room: Box<Stepped>,
    pub(crate) progress: Progress,
}

// A derived `drop` is proved anew in each crate that holds a debugger; this one is a call.
impl Drop for Debugger {
    fn drop(self) {
        let Debugger {
            alloc: _,
            core,
            room,
            progress,
        } = self;
    }
}

/// What a script asks for at a place.
fn ask_at(script: &[ScriptStep], place: usize) -> Option<&ScriptStep>
    ensures asked { option_copied result ≡ slice_get script.now place }
    ensures within { OnSome result (place < length script.now) }
{
    script.get(place)
}

/// The last of numbers, 0 where there is none.
fn last_of(numbers: &[usize]) -> usize
    ensures { result ≡ slice_index numbers.now (length numbers.now - 1) }
{
    if numbers.is_empty() {
        0
    } else {
        numbers[numbers.len() - 1]
    }
}

/// The text of an entry.
fn taken_text(alloc: Global, core: &Core, entry: &Entry) -> Result<Octets, AllocError>
    ensures { IfOk result (λ text. text ≡ taken_text core.now entry.now) }
{
    let mut out = Vec::new(alloc);
    put_taken(alloc, core, entry, &mut out)?;
    Ok(Octets::new(out))
}

impl Debugger {
    ghost use Rattle.bench_debug.specs.Debug.{Advances, IsAtEnd, Refuses, Steps, StepsTo, refused_at};
    ghost use Rattle.bench_debug.specs.Debug.{started, with_back, with_taken};
    ghost use Rattle.bench_debug.specs.Seen.{seen};

    /// A debugger of a bench, at the start of a script.
    pub fn new(alloc: Global, core: Core, script: Vec<ScriptStep>) -> Result<Debugger, AllocError>
        ensures { IfOk result (λ d. seen d ≡ started core script.items) }
    {
        let room = Box::new(alloc, Stepped::new())?;
        Ok(Debugger {
            alloc,
            core,
            room,
            progress: Progress {
                script,
                next: 0,
                taken: Vec::new(alloc),
                set: Vec::new(alloc),
                count: 0,
            },
        })
    }

    /// The bench at its place.
    pub fn core(&self) -> &Core
        ensures { result.now ≡ (seen self.now).world }
    {
        &self.core
    }

    /// Takes the last step back; says whether there was one. Takes no memory.
    pub(crate) fn undo(&mut self) -> bool
        ensures ok { IsTrue result
            → GoesBackTo self.old.core self.new.core × (seen self.new ≡ with_back (seen self.old) self.new.core) }
        ensures none { IsFalse result → (self.old.core.log ≡ []) × (seen self.new ≡ seen self.old) }
    {
        if !self.core.back() {
            return false;
        }
        self.progress.next = last_of(&self.progress.taken);
        self.progress.taken.pop();
        true
    }

    /// Takes a step. Where memory lacks, nothing changes.
    fn take_step(&mut self, registries: &[Registry], step: Step) -> Result<(), AllocError>
        requires by { IsRunBy self.old.core (map (λ r. r.book) registries.now) }
        requires next { self.old.progress.next < vec_len self.old.progress.script }
        requires could { refusal self.old.core.settings self.old.core.log self.old.core.paused step ≡ None }
        ensures ok { OnOk result (Takes self.old.core self.new.core step
            × (seen self.new ≡ with_taken (seen self.old) self.new.core)) }
        ensures err { OnErr result (seen self.new ≡ seen self.old) }
    {
        self.progress.taken.push(self.progress.next)?;
        if self.core.step(registries, step, &mut self.room).is_err() {
            self.progress.taken.pop();
            return Err(AllocError);
        }
        self.progress.next += 1;
        Ok(())
    }

    /// The script goes past a step that was refused.
    fn pass(&mut self, fault: CommandFault)
        requires { self.old.progress.next < vec_len self.old.progress.script }
        ensures { seen self.new ≡ refused_at (seen self.old) fault }
    {
        if let CommandFault::StepRefused(_) = fault {
            self.progress.next += 1;
        }
    }

    /// Takes the step that the script asks for next; says whether there was one.
    /// Why it isn't taken: it is refused, and the script goes past it; or memory lacks, and nothing changes.
    pub(crate) fn advance(&mut self, registries: &[Registry]) -> Result<bool, CommandFault>
        requires { IsRunBy self.old.core (map (λ r. r.book) registries.now) }
        ensures step { IfOk result (λ took. MatchBool took (Advances (seen self.old) (seen self.new))
            (IsAtEnd (seen self.old) × (seen self.new ≡ seen self.old))) }
        ensures within { IfOk result (λ took. IsTrue took → self.old.progress.next < vec_len self.old.progress.script) }
        ensures fault { IfErr result (Refuses (seen self.old) (seen self.new)) }
    {
        let Some(ask) = ask_at(&self.progress.script, self.progress.next) else {
            return Ok(false);
        };
        match next_step(self.alloc, &self.core, ask) {
            Ok(step) => match self.take_step(registries, step) {
                Ok(()) => Ok(true),
                Err(_) => Err(CommandFault::NoMemory),
            },
            Err(fault) => {
                self.pass(fault);
                Err(fault)
            }
        }
    }

    /// The last entry; none where there is none, or where memory lacks.
    fn last_entry(&self) -> Option<Entry>
        ensures { IfSome result (λ entry. Some entry ≡ slice_get self.now.core.log (length self.now.core.log - 1)) }
    {
        match self.core.log().last(self.alloc) {
            Ok(entry) => entry,
            Err(_) => None,
        }
    }

    /// The same, and reads the entry of the step; none at the script's end.
    /// Where memory lacks for the entry, the step is taken back.
    pub(crate) fn take(&mut self, registries: &[Registry]) -> Result<Option<Entry>, CommandFault>
        requires { IsRunBy self.old.core (map (λ r. r.book) registries.now) }
        ensures step { IfOk result (λ entry. MatchOption entry
            (IsAtEnd (seen self.old) × (seen self.new ≡ seen self.old)) (StepsTo (seen self.old) (seen self.new))) }
        ensures within { IfOk result (λ entry. OnSome entry (self.old.progress.next
            < vec_len self.old.progress.script)) }
        ensures fault { IfErr result (Refuses (seen self.old) (seen self.new)) }
    {
        if self.advance(registries)? {
            match self.last_entry() {
                Some(entry) => Ok(Some(entry)),
                None => {
                    self.undo();
                    Err(CommandFault::NoMemory)
                }
            }
        } else {
            Ok(None)
        }
    }

    /// `step`: takes the next step. Where its text finds no memory, it is taken back.
    pub(crate) fn step(&mut self, registries: &[Registry]) -> Result<Reply, CommandFault>
        requires { IsRunBy self.old.core (map (λ r. r.book) registries.now) }
        ensures { Steps (seen self.old) (seen self.new) result }
    {
        let Some(entry) = self.take(registries)? else {
            return Ok(Reply::End);
        };
        match taken_text(self.alloc, &self.core, &entry) {
            Ok(text) => Ok(Reply::Text(text)),
            Err(_) => {
                self.undo();
                Err(CommandFault::NoMemory)
            }
        }
    }
}
