//! A test bench for Diameter online charging: the program.
#![tactic(auto)]

ghost use Rattle.std.specs.Prelude.{◌≡◌, ◌<◌, ◌+◌, ◌*◌, ◌-◌, ◌^◌, [], IfOk, IfSome, None, map};
ghost use Rattle.cmd_words.specs.Invocations.{meaning};
ghost use Rattle.cmd_words.specs.Words.{wanted, word_faults};
ghost use Rattle.dbench.specs.Living.{AskToLive, live_wanted_by};
ghost use Rattle.live_threads.specs.Together.{AreTogether};

use base_device::{ByteSink, Counting, FileSource, Inputs, MAX_READS, Status, tell};
use base_progress::ProgressLine;
use base_prompt::Prompted;
use cmd_live::{LiveWords, live};
use cmd_run::{log_words, main_on, quiet_words, run_logged, run_quietly, tell_no_words};
use cmd_words::{Invocation, Task, WordsError, given_words, parse_words};
use live_threads::live_one;
use node_logs::Folder;
use std::alloc::{AllocError, Global};
use std::convert::AsStr;
use std::io::IsTerminal;
use std::process::ExitCode;
use std::{io, thread};

/// Whether the first word behind the program's name is that of a command that talks.
fn is_dialog(words: &[String]) -> bool {
    match words.get(1) {
        Some(word) => word.as_str() == "debug",
        None => false,
    }
}

/// The words of `live`, where a command asks for that.
fn live_in<'a>(task: Task<'a>) -> Option<LiveWords<'a>>
    ensures some { IfSome result (λ asked. meaning task.entry ≡ live_wanted_by asked) }
    ensures none { result ≡ None → AskToLive (meaning task.entry) → ⊥ }
{
    match task {
        Task::Live(config, node, seconds, log, stats) => Some(LiveWords {
            config,
            node,
            seconds,
            log,
            stats,
        }),
        _ => None,
    }
}

/// The words of `live`; None where they are refused or ask for anything else.
fn live_words<'a, S: AsStr>(
    alloc: Global,
    words: &'a [S],
) -> Result<Option<LiveWords<'a>>, AllocError>
    ensures asked { IfOk result (λ found. IfSome found (λ asked. (word_faults (map S.text words.entry.now) ≡ [])
        × (wanted (map S.text words.entry.now) ≡ live_wanted_by asked))) }
    ensures none { IfOk result (λ found. found ≡ None → word_faults (map S.text words.entry.now) ≡ []
        → AskToLive (wanted (map S.text words.entry.now)) → ⊥) }
{
    match parse_words(alloc, words) {
        Ok(Invocation::Task(task)) => Ok(live_in(task)),
        Ok(Invocation::Text(_)) | Err(WordsError::Refused(_)) => Ok(None),
        Err(WordsError::NoMemory) => Err(AllocError),
    }
}

/// Does what the words ask for, threads and sockets aside:
/// with files of the system where logs are to be written, and with a line at the terminal where a run is quiet.
fn run_words<I: FileSource, O: ByteSink>(
    rt: &HostRuntime,
    words: &[String],
    source: &mut I,
    sink: &mut O,
) -> Status
    requires reads { I.reads source.old + 258 * MAX_READS < 2 ^ 64 }
    requires read_failures { I.failures source.old < 2 ^ 64 - 1 }
    requires idle { O.idle sink.old ≡ 0 }
    requires write_failures { O.failures sink.old < 2 ^ 64 - 1 }
{
    match log_words(rt.alloc(), words) {
        Ok(Some(asked)) => {
            let mut folder = Folder::new(rt, asked.folder);
            return run_logged(rt.alloc(), asked, source, sink, &mut folder);
        }
        Ok(None) => {}
        Err(AllocError) => return tell(sink, b"no memory\n", Status::NoMemory),
    }
    if rt.stderr().is_terminal() {
        if let Ok(Some(asked)) = quiet_words(rt.alloc(), words) {
            let mut line = ProgressLine::new(rt.alloc(), rt, rt.stderr());
            let status = run_quietly(rt.alloc(), asked, source, sink, &mut line);
            line.erase();
            return status;
        }
    }
    main_on(rt.alloc(), words, source, sink)
}

fn main(rt: HostRuntime) -> ExitCode {
    let mut sink = Counting::new(io::writer(&rt));
    let status = match given_words(&rt) {
        Ok(words) => {
            let prompts = if is_dialog(&words) && rt.stdin().is_terminal() {
                Some(rt.stderr())
            } else {
                None
            };
            let standard = Prompted::new(rt.stdin(), prompts);
            let mut source = Counting::new(Inputs::new(&rt, standard));
            match live_words(rt.alloc(), &words) {
                Ok(Some(asked)) => {
                    let together = |livings|
                        ensures { IfOk result (λ lived. AreTogether livings.items lived.items) }
                    {
                        thread::map_vec(
                            &rt,
                            livings,
                            &|living| live_one(&rt, rt.alloc(), rt.stderr(), living),
                        )
                    };
                    // Without the word nothing is written there.
                    let mut folder = Folder::new(&rt, asked.log.unwrap_or("."));
                    live(&rt, asked, &mut source, &mut sink, &together, &mut folder)
                }
                Ok(None) => run_words(&rt, &words, &mut source, &mut sink),
                Err(AllocError) => tell(&mut sink, b"no memory\n", Status::NoMemory),
            }
        }
        Err(why) => tell_no_words(why, &mut sink),
    };
    ExitCode::from(status.code())
}
