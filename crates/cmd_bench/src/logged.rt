//! All nodes of a CONFIG opened, a script run on them, their logs written to files, and that told.
ghost use Rattle.std.specs.Prelude.{◌≡◌, ◌≢◌, ◌⊎◌, ◌<◌, ◌≤◌, ◌+◌, ◌-◌, ◌*◌, ◌^◌, max, replicate};
ghost use Rattle.base_device.specs.Devices.{IsRun};
ghost use Rattle.role_tables.specs.Roles.{all_laws};
ghost use Rattle.cmd_bench.specs.Logged.{IsLoggedMet, IsLoggedRunOn, IsToldEnded, IsToldWhy, TellsUnwritten};

use crate::nodes::{AllReady, Ended, read_all_nodes, run_setups};
use crate::shown::Shown;
use base_device::{ByteSink, FileSource, MAX_IDLE_WRITES, MAX_READS, Status, tell};
use bench_item::MAX_SHARDS;
use bench_setup::{Setup, tell_halt};
use node_logs::{FileSink, LogError, unwritten_text, write_logs};
use std::alloc::{AllocError, Global};

/// Tells why logs are not written.
fn tell_unwritten<O: ByteSink>(alloc: Global, error: LogError, sink: &mut O) -> Status
    requires idle { O.idle sink.old ≡ 0 }
    requires failures { O.failures sink.old < 2 ^ 64 - 1 }
    ensures told { IsToldWhy O.contents O.failures O.idle error sink.old sink.new result }
    ensures row { O.most_idle sink.new ≤ max (O.most_idle sink.old) MAX_IDLE_WRITES }
{
    match error {
        LogError::Failed(name) => match unwritten_text(alloc, &name) {
            Ok(text) => tell(sink, &text, Status::Fault),
            Err(AllocError) => tell(sink, b"no memory\n", Status::NoMemory),
        },
        LogError::NoMemory => tell(sink, b"no memory\n", Status::NoMemory),
    }
}

/// Writes the logs of nodes that ran, unless the run is refused, and then tells what was printed.
fn tell_ended<O: ByteSink, F: FileSink>(
    alloc: Global,
    ended: Ended,
    sink: &mut O,
    files: &mut F,
) -> Status
    requires idle { O.idle sink.old ≡ 0 }
    requires failures { O.failures sink.old < 2 ^ 64 - 1 }
    ensures told { IsToldEnded O.contents O.failures O.idle F.files F.failed
        ended.nodes.items ended.run.text.items ended.run.refused
        sink.old sink.new files.old files.new result }
    ensures row { O.most_idle sink.new ≤ max (O.most_idle sink.old) MAX_IDLE_WRITES }
{
    let Ended { run, nodes } = ended;
    if run.refused {
        return tell(sink, &run.text, run.status());
    }
    match write_logs(alloc, &nodes, files) {
        Ok(()) => tell(sink, &run.text, run.status()),
        Err(error) => tell_unwritten(alloc, error, sink),
    }
}

/// As `run_nodes_on`, and before that is printed each node's log is written to the file of its host, unless the run is
/// refused. Where one can't be written, that is told in place of all else, as a fault.
pub fn run_logged_on<O: ByteSink, F: FileSink>(
    alloc: Global,
    cut: usize,
    setups: Vec<Setup>,
    script: &[u8],
    shown: Shown,
    sink: &mut O,
    files: &mut F,
) -> Status
    requires idle { O.idle sink.old ≡ 0 }
    requires failures { O.failures sink.old < 2 ^ 64 - 1 }
    ensures run { IsLoggedRunOn O.contents O.failures O.idle F.files F.failed
        (replicate MAX_SHARDS all_laws) cut setups.items script.now shown
        sink.old sink.new files.old files.new result }
    ensures row { O.most_idle sink.new ≤ max (O.most_idle sink.old) MAX_IDLE_WRITES }
{
    match run_setups(alloc, cut, setups, script, shown) {
        Ok(ended) => tell_ended(alloc, ended, sink, files),
        Err(AllocError) => tell(sink, b"no memory\n", Status::NoMemory),
    }
}

/// Runs a script on the nodes that it is for, and writes their logs.
fn run_logged_ready<O: ByteSink, F: FileSink>(
    alloc: Global,
    cut: usize,
    ready: AllReady,
    shown: Shown,
    sink: &mut O,
    files: &mut F,
) -> Status
    requires idle { O.idle sink.old ≡ 0 }
    requires failures { O.failures sink.old < 2 ^ 64 - 1 }
    ensures run { IsLoggedRunOn O.contents O.failures O.idle F.files F.failed
        (replicate MAX_SHARDS all_laws) cut ready.setups.items ready.script.items shown
        sink.old sink.new files.old files.new result }
    ensures row { O.most_idle sink.new ≤ max (O.most_idle sink.old) MAX_IDLE_WRITES }
{
    let AllReady { setups, script } = ready;
    run_logged_on(alloc, cut, setups, &script, shown, sink, files)
}

/// As `run_all_nodes`, and each node's log is written as `run_logged_on` does.
pub fn run_logged_nodes<I: FileSource, O: ByteSink, F: FileSink>(
    alloc: Global,
    cut: usize,
    config: &str,
    script: Option<&str>,
    shown: Shown,
    source: &mut I,
    sink: &mut O,
    files: &mut F,
) -> Status
    requires reads { I.reads source.old + 258 * MAX_READS < 2 ^ 64 }
    requires read_failures { I.failures source.old < 2 ^ 64 - 1 }
    requires idle { O.idle sink.old ≡ 0 }
    requires write_failures { O.failures sink.old < 2 ^ 64 - 1 }
    ensures reads { I.reads source.new ≤ I.reads source.old + 258 * MAX_READS }
    ensures row { O.most_idle sink.new ≤ max (O.most_idle sink.old) MAX_IDLE_WRITES }
    ensures run { IsRun I.reads I.failures O.failures O.idle source.old source.new sink.old sink.new result
        ⊎ TellsUnwritten O.contents O.failures O.idle (F.failed files.new) sink.old sink.new result }
    ensures as_asked { result ≢ Status.Fault
        → IsLoggedMet I.remaining I.reads I.failures O.contents O.failures O.idle F.files cut shown
        source.old source.new sink.old sink.new files.old files.new result }
    ensures words { result ≢ Status.Usage }
{
    match read_all_nodes(alloc, config, script, source) {
        Ok(ready) => run_logged_ready(alloc, cut, ready, shown, sink, files),
        Err(halt) => tell_halt(alloc, halt, sink),
    }
}
