//! The commands of a file or of standard input, done on the bench of a configuration.
ghost use Rattle.std.specs.Prelude.{◌≡◌, ◌≢◌, ◌<◌, ◌≤◌, ◌+◌, ◌-◌, ◌^◌, max};
ghost use Rattle.base_device.specs.Devices.{IsRun};
ghost use Rattle.cmd_bench.specs.Told.{opened_with};
ghost use Rattle.cmd_debug.specs.Told.{IsDebugOn};

use crate::opening::{Opened, count_of, open};
use crate::session::Session;
use base_device::{ByteSink, FileSource, MAX_IDLE_WRITES, MAX_READS, Status, tell};
use base_dialog::answer_input;
use bench_open::Config;
use std::alloc::{AllocError, Global};

/// Opens a bench with callbacks that answer by the laws of all roles, and a debugger of it at the start of a script;
/// then reads the commands of the file of that name, or of standard input, a line each, and prints what is replied to
/// each, before more is read. Refused are, in this order, an opening, and a line of the script that has another form,
/// the first of them; then no command is read.
pub fn debug_on<I: FileSource, O: ByteSink>(
    alloc: Global,
    config: Config,
    script: &[u8],
    commands: Option<&str>,
    source: &mut I,
    sink: &mut O,
) -> Status
    requires reads { I.reads source.old + MAX_READS < 2 ^ 64 }
    requires read_failures { I.failures source.old < 2 ^ 64 - 1 }
    requires idle { O.idle sink.old ≡ 0 }
    requires write_failures { O.failures sink.old < 2 ^ 64 - 1 }
    ensures reads { I.reads source.new ≤ I.reads source.old + MAX_READS }
    ensures row { O.most_idle sink.new ≤ max (O.most_idle sink.old) MAX_IDLE_WRITES }
    ensures run { IsRun I.reads I.failures O.failures O.idle source.old source.new sink.old sink.new result }
    ensures as_asked { result ≢ Status.Fault
        → IsDebugOn I.remaining I.reads I.failures O.contents O.failures O.idle (opened_with config) script.now
        source.old source.new sink.old sink.new result }
    ensures words { result ≢ Status.Usage }
{
    let count = count_of(&config);
    match open(alloc, config, script) {
        Ok(Opened::Ready(debugger)) => {
            let session = Session {
                alloc,
                count,
                debugger,
            };
            answer_input(alloc, commands, session, source, sink)
        }
        Ok(Opened::Refused(text)) => tell(sink, &text, Status::Refused),
        Err(AllocError) => tell(sink, b"no memory\n", Status::NoMemory),
    }
}
