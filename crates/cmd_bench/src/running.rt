//! `run`: a bench opened by what files say, and a script run on it.
ghost use Rattle.std.specs.Prelude.{◌≡◌, ◌≢◌, ◌<◌, ◌≤◌, ◌+◌, ◌-◌, ◌*◌, ◌^◌, IfErr, IfOk, OnOk, max};
ghost use Rattle.base_device.specs.Devices.{IsRun, Tells};
ghost use Rattle.bench_setup.specs.Halts.{IsHalt};
ghost use Rattle.cmd_bench.specs.Met.{AreInputs, IsRunMet};
ghost use Rattle.cmd_bench.specs.Told.{IsRunOn, opened_with};

use crate::opening::run_watched_on;
use crate::shown::Shown;
use base_device::{ByteSink, FileSource, MAX_IDLE_WRITES, MAX_READS, Status, tell};
use base_progress::{Progress, Unwatched};
use bench_setup::{Halt, Setup, read_first, read_named, tell_halt};
use config_text::SAMPLE;
use std::alloc::Global;

/// What a run needs.
#[derive(Drop)]
struct Ready {
    setup: Setup,
    script: Vec<u8>,
}

/// Reads a CONFIG and the files that it names, and then a script.
fn read_all<I: FileSource>(
    alloc: Global,
    config: &str,
    script: Option<&str>,
    source: &mut I,
) -> Result<Ready, Halt>
    requires reads { I.reads source.old + 6 * MAX_READS < 2 ^ 64 }
    requires failures { I.failures source.old < 2 ^ 64 - 1 }
    ensures reads { I.reads source.new ≤ I.reads source.old + 6 * MAX_READS }
    ensures sound { OnOk result (I.failures source.new ≡ I.failures source.old) }
    ensures ready { IfOk result (λ ready. AreInputs I.remaining I.reads I.failures source.old source.new ready.setup
        ready.script.items) }
    ensures halt { IfErr result (IsHalt I.remaining I.reads I.failures source.old source.new) }
{
    let setup = read_first(alloc, config, source)?;
    match read_named(alloc, script, source) {
        Ok(script) => Ok(Ready { setup, script }),
        Err(halt) => Err(halt),
    }
}

/// Runs a script on the bench that it is for.
fn run_ready<O: ByteSink, P: Progress>(
    alloc: Global,
    ready: Ready,
    shown: Shown,
    sink: &mut O,
    progress: &mut P,
) -> Status
    requires idle { O.idle sink.old ≡ 0 }
    requires failures { O.failures sink.old < 2 ^ 64 - 1 }
    ensures run { IsRunOn O.contents O.failures O.idle (opened_with ready.setup.bench) ready.script.items shown
        sink.old sink.new result }
    ensures row { O.most_idle sink.new ≤ max (O.most_idle sink.old) MAX_IDLE_WRITES }
{
    let Ready { setup, script } = ready;
    let Setup { node, bench } = setup;
    run_watched_on(alloc, bench, &script, shown, sink, progress)
}

/// Reads a CONFIG, the files that it names beside it, and a script of a file or of standard input, and runs the script
/// on a bench of the CONFIG's first node. Refused are, in this order, what is read before the script,
/// and then what `run_on` refuses.
pub fn run<I: FileSource, O: ByteSink>(
    alloc: Global,
    config: &str,
    script: Option<&str>,
    shown: Shown,
    source: &mut I,
    sink: &mut O,
) -> Status
    requires reads { I.reads source.old + 6 * MAX_READS < 2 ^ 64 }
    requires read_failures { I.failures source.old < 2 ^ 64 - 1 }
    requires idle { O.idle sink.old ≡ 0 }
    requires write_failures { O.failures sink.old < 2 ^ 64 - 1 }
    ensures reads { I.reads source.new ≤ I.reads source.old + 6 * MAX_READS }
    ensures row { O.most_idle sink.new ≤ max (O.most_idle sink.old) MAX_IDLE_WRITES }
    ensures run { IsRun I.reads I.failures O.failures O.idle source.old source.new sink.old sink.new result }
    ensures as_asked { result ≢ Status.Fault
        → IsRunMet I.remaining I.reads I.failures O.contents O.failures O.idle shown source.old source.new
        sink.old sink.new result }
    ensures words { result ≢ Status.Usage }
{
    run_watched(alloc, config, script, shown, source, sink, &mut Unwatched)
}

/// The same, and `progress` is told how far the run is.
pub fn run_watched<I: FileSource, O: ByteSink, P: Progress>(
    alloc: Global,
    config: &str,
    script: Option<&str>,
    shown: Shown,
    source: &mut I,
    sink: &mut O,
    progress: &mut P,
) -> Status
    requires reads { I.reads source.old + 6 * MAX_READS < 2 ^ 64 }
    requires read_failures { I.failures source.old < 2 ^ 64 - 1 }
    requires idle { O.idle sink.old ≡ 0 }
    requires write_failures { O.failures sink.old < 2 ^ 64 - 1 }
    ensures reads { I.reads source.new ≤ I.reads source.old + 6 * MAX_READS }
    ensures row { O.most_idle sink.new ≤ max (O.most_idle sink.old) MAX_IDLE_WRITES }
    ensures run { IsRun I.reads I.failures O.failures O.idle source.old source.new sink.old sink.new result }
    ensures as_asked { result ≢ Status.Fault → IsRunMet I.remaining I.reads I.failures O.contents O.failures O.idle
        shown source.old source.new sink.old sink.new result }
    ensures words { result ≢ Status.Usage }
{
    match read_all(alloc, config, script, source) {
        Ok(ready) => run_ready(alloc, ready, shown, sink, progress),
        Err(halt) => tell_halt(alloc, halt, sink),
    }
}

/// Prints a small CONFIG that runs.
pub fn tell_sample<O: ByteSink>(sink: &mut O) -> Status
    requires idle { O.idle sink.old ≡ 0 }
    requires failures { O.failures sink.old < 2 ^ 64 - 1 }
    ensures told { Tells O.contents O.failures O.idle sink.old sink.new SAMPLE.now Status.Done result }
    ensures row { O.most_idle sink.new ≤ max (O.most_idle sink.old) MAX_IDLE_WRITES }
{
    tell(sink, SAMPLE.as_bytes(), Status::Done)
}
