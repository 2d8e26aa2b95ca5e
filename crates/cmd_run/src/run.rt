//! One run of the program: from words, an input and an output to a status.
ghost use Rattle.std.specs.Prelude.{◌≡◌, ◌≢◌, ◌⊎◌, ◌<◌, ◌≤◌, ◌+◌, ◌*◌, ◌-◌, ◌^◌, [], map, max, not};
ghost use Rattle.base_device.specs.Devices.{IsRun, Tells};
ghost use Rattle.cmd_words.specs.Invocations.{meaning};
ghost use Rattle.cmd_read.specs.Reads.{TellsNoMemory};
ghost use Rattle.cmd_run.specs.Runs.{IsMet};
ghost use Rattle.cmd_words.specs.Words.{AreRefused, AskForText, wanted, word_faults};
ghost use Rattle.cmd_run.specs.Ends.{AsksInVain, no_words_status, no_words_text};

use crate::asm::assemble;
use crate::draw::draw;
use crate::list::list;
use crate::walk::{tell_names, tell_table, walk};
use base_device::{ByteSink, FileSource, MAX_IDLE_WRITES, MAX_READS, Status, tell};
use cmd_bench::{Shown, run as run_script, run_all_nodes, tell_sample};
use cmd_debug::debug;
use cmd_read::read;
use cmd_words::{Invocation, NoWords, Task, WordsError, parse_words};
use std::alloc::Global;
use std::convert::AsStr;

/// What is told where nodes are to live: that takes threads and sockets, and here are none (`cmd_live` has them).
const NO_SOCKETS: &str = "live wants threads and sockets\n";

/// What is told where logs are to be written: that takes files, and here are none (`run_logged` has them).
const NO_FILES: &str = "--log wants files that can be written\n";

/// Tells why there are no words: memory ran out, or they aren't understood since one of them isn't UTF-8.
pub fn tell_no_words<O: ByteSink>(why: NoWords, sink: &mut O) -> Status
    requires idle { O.idle sink.old ≡ 0 }
    requires failures { O.failures sink.old < 2 ^ 64 - 1 }
    ensures told { Tells O.contents O.failures O.idle sink.old sink.new (no_words_text why)
        (no_words_status why) result }
    ensures row { O.most_idle sink.new ≤ max (O.most_idle sink.old) MAX_IDLE_WRITES }
{
    match why {
        NoWords::NoMemory => tell(sink, b"no memory\n", Status::NoMemory),
        NoWords::NotText => tell(sink, b"a word isn't UTF-8\n", Status::Usage),
    }
}

/// What is printed of a run.
pub(crate) fn shown_of(quiet: bool, sent: bool, totals: bool) -> Shown
    ensures { result ≡ record { steps = not quiet; lines = sent; totals = totals } }
{
    Shown {
        steps: !quiet,
        lines: sent,
        totals,
    }
}

/// Does what a command asks for.
fn run<I: FileSource, O: ByteSink>(
    alloc: Global,
    task: Task<'_>,
    source: &mut I,
    sink: &mut O,
) -> Status
    requires reads { I.reads source.old + 258 * MAX_READS < 2 ^ 64 }
    requires read_failures { I.failures source.old < 2 ^ 64 - 1 }
    requires idle { O.idle sink.old ≡ 0 }
    requires write_failures { O.failures sink.old < 2 ^ 64 - 1 }
    ensures reads { I.reads source.new ≤ I.reads source.old + 258 * MAX_READS }
    ensures row { O.most_idle sink.new ≤ max (O.most_idle sink.old) MAX_IDLE_WRITES }
    ensures run { IsRun I.reads I.failures O.failures O.idle source.old source.new sink.old sink.new result }
    ensures as_asked { result ≢ Status.Fault
        → IsMet I.remaining I.reads I.failures O.contents O.failures O.idle (meaning task.entry) source.old source.new
        sink.old sink.new result }
    ensures usage { result ≡ Status.Usage → AsksInVain (meaning task.entry) × (source.new ≡ source.old) }
{
    match task {
        Task::Read(style, by_line, dictionary, file) => {
            read(alloc, style, by_line, dictionary, file, source, sink)
        }
        Task::Walk(why, from, table, events) => {
            walk(alloc, why, from, table, events, source, sink)
        }
        Task::Names => tell_names(alloc, sink),
        Task::Table(name) => tell_table(name, sink),
        Task::Draw(table) => draw(alloc, table, source, sink),
        Task::Assemble(table) => assemble(alloc, table, source, sink),
        Task::ListImage(image) => list(alloc, image, source, sink),
        Task::Run(quiet, sent, totals, config, script) => {
            let shown = shown_of(quiet, sent, totals);
            run_script(alloc, config, script, shown, source, sink)
        }
        Task::Debug(config, script, commands) => {
            debug(alloc, config, script, commands, source, sink)
        }
        Task::Nodes(quiet, sent, totals, cut, config, script) => {
            let shown = shown_of(quiet, sent, totals);
            run_all_nodes(alloc, cut as usize, config, script, shown, source, sink)
        }
        Task::Logged(..) => tell(sink, NO_FILES.as_bytes(), Status::Usage),
        Task::Sample => tell_sample(sink),
        Task::Live(..) => tell(sink, NO_SOCKETS.as_bytes(), Status::Usage),
        Task::Nothing(usage) => tell(sink, usage.as_bytes(), Status::Usage),
    }
}

/// Runs the program: `words` are the command line's, the program's name first; `source` is standard input, and opens
/// files; every text goes to `sink`. Logs are not written here: `run_logged` does that.
pub fn main_on<S: AsStr, I: FileSource, O: ByteSink>(
    alloc: Global,
    words: &[S],
    source: &mut I,
    sink: &mut O,
) -> Status
    requires reads { I.reads source.old + 258 * MAX_READS < 2 ^ 64 }
    requires read_failures { I.failures source.old < 2 ^ 64 - 1 }
    requires idle { O.idle sink.old ≡ 0 }
    requires write_failures { O.failures sink.old < 2 ^ 64 - 1 }

    // The bounds on reads, of which a run of all nodes has those of 258 inputs,
    // and on writes in a row that take nothing.
    ensures reads { I.reads source.new ≤ I.reads source.old + 258 * MAX_READS }
    ensures row { O.most_idle sink.new ≤ max (O.most_idle sink.old) MAX_IDLE_WRITES }

    // A fault comes only where a device failed or a bound was met, and a device's failure is told.
    ensures run { IsRun I.reads I.failures O.failures O.idle source.old source.new sink.old sink.new result }

    // Words are refused only where something is wrong with them, or they ask for nothing that is there,
    // and then nothing is read.
    ensures usage { result ≡ Status.Usage
        → (AreRefused (map S.text words.now)
        ⊎ ((word_faults (map S.text words.now) ≡ []) × AsksInVain (wanted (map S.text words.now))))
        × (source.new ≡ source.old) }

    // Where the words are a command, what it asks for is done, or there is no memory to understand them.
    ensures as_asked { result ≢ Status.Fault → word_faults (map S.text words.now) ≡ []
        → IsMet I.remaining I.reads I.failures O.contents O.failures O.idle (wanted (map S.text words.now))
        source.old source.new sink.old sink.new result
        ⊎ ((source.new ≡ source.old) × TellsNoMemory O.contents O.failures O.idle sink.old sink.new result) }

    // It is done only where they ask for a text or are a command; input is refused only where they are a command.
    ensures done { result ≡ Status.Done
        → AskForText (map S.text words.now) ⊎ (word_faults (map S.text words.now) ≡ []) }
    ensures refused { result ≡ Status.Refused → word_faults (map S.text words.now) ≡ [] }
{
    match parse_words(alloc, words) {
        Ok(Invocation::Task(task)) => run(alloc, task, source, sink),
        Ok(Invocation::Text(text)) => tell(sink, text.as_bytes(), Status::Done),
        Err(WordsError::Refused(text)) => tell(sink, text.as_bytes(), Status::Usage),
        Err(WordsError::NoMemory) => tell(sink, b"no memory\n", Status::NoMemory),
    }
}
