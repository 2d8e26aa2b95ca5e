//! A run that writes logs beside what it prints.
ghost use Rattle.std.specs.Prelude.{◌≡◌, ◌≢◌, ◌⊎◌, ◌<◌, ◌≤◌, ◌+◌, ◌*◌, ◌-◌, ◌^◌, [], IfOk, IfSome, None, map, max};
ghost use Rattle.std.specs.Prelude.{not};
ghost use Rattle.base_device.specs.Devices.{IsRun};
ghost use Rattle.cmd_bench.specs.Logged.{IsLoggedMet, TellsUnwritten};
ghost use Rattle.cmd_run.specs.Logged.{AskForLogs, wanted_by};
ghost use Rattle.cmd_words.specs.Invocations.{meaning};
ghost use Rattle.cmd_words.specs.Words.{wanted, word_faults};

use crate::run::shown_of;
use base_device::{ByteSink, FileSource, MAX_IDLE_WRITES, MAX_READS, Status};
use cmd_bench::run_logged_nodes;
use cmd_words::{Invocation, Task, WordsError, parse_words};
use node_logs::FileSink;
use std::alloc::{AllocError, Global};
use std::convert::AsStr;

/// The words of `run --nodes --log`.
#[derive(Clone, Copy)]
pub struct LogWords<'a> {
    /// Where the logs are written.
    pub folder: &'a str,
    pub quiet: bool,
    pub sent: bool,
    pub totals: bool,
    /// How many octets come at once.
    pub cut: u64,
    pub config: &'a str,
    pub script: Option<&'a str>,
}

/// The words of a run that writes logs, where a command asks for one.
fn logged_in<'a>(task: Task<'a>) -> Option<LogWords<'a>>
    ensures some { IfSome result (λ asked. meaning task.entry ≡ wanted_by asked) }
    ensures none { result ≡ None → AskForLogs (meaning task.entry) → ⊥ }
{
    match task {
        Task::Logged(folder, quiet, sent, totals, cut, config, script) => Some(LogWords {
            folder,
            quiet,
            sent,
            totals,
            cut,
            config,
            script,
        }),
        _ => None,
    }
}

/// The words of a run that writes logs; None where they are refused or ask for anything else.
pub fn log_words<'a, S: AsStr>(
    alloc: Global,
    words: &'a [S],
) -> Result<Option<LogWords<'a>>, AllocError>
    ensures asked { IfOk result (λ found. IfSome found (λ asked. (word_faults (map S.text words.entry.now) ≡ [])
        × (wanted (map S.text words.entry.now) ≡ wanted_by asked))) }
    ensures none { IfOk result (λ found. found ≡ None → word_faults (map S.text words.entry.now) ≡ []
        → AskForLogs (wanted (map S.text words.entry.now)) → ⊥) }
{
    match parse_words(alloc, words) {
        Ok(Invocation::Task(task)) => Ok(logged_in(task)),
        Ok(Invocation::Text(_)) | Err(WordsError::Refused(_)) => Ok(None),
        Err(WordsError::NoMemory) => Err(AllocError),
    }
}

/// Does what the words of `run --nodes --log` ask for: the logs go to `files`, all else as in `main_on`.
pub fn run_logged<I: FileSource, O: ByteSink, F: FileSink>(
    alloc: Global,
    words: LogWords<'_>,
    source: &mut I,
    sink: &mut O,
    files: &mut F,
) -> Status
    requires reads { I.reads source.old + 258 * MAX_READS < 2 ^ 64 }
    requires read_failures { I.failures source.old < 2 ^ 64 - 1 }
    requires idle { O.idle sink.old ≡ 0 }
    requires write_failures { O.failures sink.old < 2 ^ 64 - 1 }
    ensures reads { I.reads source.new ≤ I.reads source.old + 258 * MAX_READS }
    ensures row { O.most_idle sink.new ≤ max (O.most_idle sink.old) MAX_IDLE_WRITES }
    // A fault comes only where a device failed, a bound was met, or a log can't be written, which is told of the file
    // that failed.
    ensures run { IsRun I.reads I.failures O.failures O.idle source.old source.new sink.old sink.new result
        ⊎ TellsUnwritten O.contents O.failures O.idle (F.failed files.new) sink.old sink.new result }
    ensures as_asked { result ≢ Status.Fault
        → IsLoggedMet I.remaining I.reads I.failures O.contents O.failures O.idle F.files words.entry.cut
        (record { steps = not words.entry.quiet; lines = words.entry.sent; totals = words.entry.totals })
        source.old source.new sink.old sink.new files.old files.new result }
    ensures words { result ≢ Status.Usage }
{
    let shown = shown_of(words.quiet, words.sent, words.totals);
    run_logged_nodes(
        alloc,
        words.cut as usize,
        words.config,
        words.script,
        shown,
        source,
        sink,
        files,
    )
}
