//! A quiet run, of which somebody is told how far it is.
ghost use Rattle.std.specs.Prelude.{◌≡◌, ◌≢◌, ◌<◌, ◌≤◌, ◌+◌, ◌*◌, ◌-◌, ◌^◌, [], IfOk, IfSome, None, false, map, max};
ghost use Rattle.base_device.specs.Devices.{IsRun};
ghost use Rattle.cmd_bench.specs.Met.{IsRunMet};
ghost use Rattle.cmd_run.specs.Watched.{AskForQuiet, quiet_wanted};
ghost use Rattle.cmd_words.specs.Invocations.{meaning};
ghost use Rattle.cmd_words.specs.Words.{wanted, word_faults};

use crate::run::shown_of;
use base_device::{ByteSink, FileSource, MAX_IDLE_WRITES, MAX_READS, Status};
use base_progress::Progress;
use cmd_bench::run_watched;
use cmd_words::{Invocation, Task, WordsError, parse_words};
use std::alloc::{AllocError, Global};
use std::convert::AsStr;

/// The words of `run --quiet`.
#[derive(Clone, Copy)]
pub struct QuietWords<'a> {
    pub sent: bool,
    pub totals: bool,
    pub config: &'a str,
    pub script: Option<&'a str>,
}

/// The words of a quiet run of one node, where a command asks for one.
fn quiet_in<'a>(task: Task<'a>) -> Option<QuietWords<'a>>
    ensures some { IfSome result (λ asked. meaning task.entry ≡ quiet_wanted asked) }
    ensures none { result ≡ None → AskForQuiet (meaning task.entry) → ⊥ }
{
    match task {
        Task::Run(true, sent, totals, config, script) => Some(QuietWords {
            sent,
            totals,
            config,
            script,
        }),
        _ => None,
    }
}

/// The words of a quiet run of one node; None where they are refused or ask for anything else.
pub fn quiet_words<'a, S: AsStr>(
    alloc: Global,
    words: &'a [S],
) -> Result<Option<QuietWords<'a>>, AllocError>
    ensures asked { IfOk result (λ found. IfSome found (λ asked. (word_faults (map S.text words.entry.now) ≡ [])
        × (wanted (map S.text words.entry.now) ≡ quiet_wanted asked))) }
    ensures none { IfOk result (λ found. found ≡ None → word_faults (map S.text words.entry.now) ≡ []
        → AskForQuiet (wanted (map S.text words.entry.now)) → ⊥) }
{
    match parse_words(alloc, words) {
        Ok(Invocation::Task(task)) => Ok(quiet_in(task)),
        Ok(Invocation::Text(_)) | Err(WordsError::Refused(_)) => Ok(None),
        Err(WordsError::NoMemory) => Err(AllocError),
    }
}

/// Does what the words of `run --quiet` ask for, as `main_on` does, and `progress` is told how far the run is.
pub fn run_quietly<I: FileSource, O: ByteSink, P: Progress>(
    alloc: Global,
    words: QuietWords<'_>,
    source: &mut I,
    sink: &mut O,
    progress: &mut P,
) -> Status
    requires reads { I.reads source.old + 6 * MAX_READS < 2 ^ 64 }
    requires read_failures { I.failures source.old < 2 ^ 64 - 1 }
    requires idle { O.idle sink.old ≡ 0 }
    requires write_failures { O.failures sink.old < 2 ^ 64 - 1 }
    ensures reads { I.reads source.new ≤ I.reads source.old + 6 * MAX_READS }
    ensures row { O.most_idle sink.new ≤ max (O.most_idle sink.old) MAX_IDLE_WRITES }
    ensures run { IsRun I.reads I.failures O.failures O.idle source.old source.new sink.old sink.new result }
    ensures as_asked { result ≢ Status.Fault
        → IsRunMet I.remaining I.reads I.failures O.contents O.failures O.idle
        (record { steps = false; lines = words.entry.sent; totals = words.entry.totals })
        source.old source.new sink.old sink.new result }
    ensures words { result ≢ Status.Usage }
{
    let shown = shown_of(true, words.sent, words.totals);
    run_watched(
        alloc,
        words.config,
        words.script,
        shown,
        source,
        sink,
        progress,
    )
}
