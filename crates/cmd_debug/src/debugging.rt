//! `debug`: from the names of files to a status.
ghost use Rattle.std.specs.Prelude.{◌≡◌, ◌≢◌, ◌<◌, ◌≤◌, ◌+◌, ◌-◌, ◌*◌, ◌^◌, IfErr, IfOk, OnOk, max, option_map};
ghost use Rattle.base_device.specs.Devices.{IsRun};
ghost use Rattle.bench_setup.specs.Halts.{IsHalt};
ghost use Rattle.cmd_bench.specs.Told.{opened_with};
ghost use Rattle.cmd_debug.specs.Met.{AreInputsOf, IsDebugMet, IsScriptFrom};
ghost use Rattle.cmd_debug.specs.Told.{IsDebugOn};

use crate::commands::debug_on;
use base_device::{ByteSink, FileSource, MAX_IDLE_WRITES, MAX_READS, Status};
use bench_setup::{Halt, Setup, read_first, read_named, tell_halt};
use std::alloc::Global;

/// What a debugger needs.
#[derive(Drop)]
struct Ready {
    setup: Setup,
    script: Vec<u8>,
}

/// Reads a script, which is empty where no file is named.
fn read_script_of<I: FileSource>(
    alloc: Global,
    name: Option<&str>,
    source: &mut I,
) -> Result<Vec<u8>, Halt>
    requires reads { I.reads source.old + MAX_READS < 2 ^ 64 }
    requires failures { I.failures source.old < 2 ^ 64 - 1 }
    ensures reads { I.reads source.new ≤ I.reads source.old + MAX_READS }
    ensures made { I.reads source.old ≤ I.reads source.new }
    ensures sound { OnOk result (I.failures source.new ≡ I.failures source.old) }
    ensures script { IfOk result
        (λ script. IsScriptFrom I.remaining I.reads I.failures
        (option_map (λ name. name.now) name.entry) source.old source.new script.items) }
    ensures halt { IfErr result (IsHalt I.remaining I.reads I.failures source.old source.new) }
{
    match name {
        Some(_) => read_named(alloc, name, source),
        None => Ok(Vec::new(alloc)),
    }
}

/// Reads a CONFIG and the files that it names, and then a script.
fn read_all<I: FileSource>(
    alloc: Global,
    config: &str,
    script: Option<&str>,
    source: &mut I,
) -> Result<Ready, Halt>
    requires reads { I.reads source.old + 6 * MAX_READS < 2 ^ 64 }
    requires failures { I.failures source.old < 2 ^ 64 - 1 }
    ensures reads { I.reads source.new ≤ I.reads source.old + 6 * MAX_READS }
    ensures made { I.reads source.old ≤ I.reads source.new }
    ensures sound { OnOk result (I.failures source.new ≡ I.failures source.old) }
    ensures ready { IfOk result
        (λ ready. AreInputsOf I.remaining I.reads I.failures
        (option_map (λ name. name.now) script.entry) source.old source.new ready.setup ready.script.items) }
    ensures halt { IfErr result (IsHalt I.remaining I.reads I.failures source.old source.new) }
{
    let setup = read_first(alloc, config, source)?;
    match read_script_of(alloc, script, source) {
        Ok(script) => Ok(Ready { setup, script }),
        Err(halt) => Err(halt),
    }
}

/// Does the commands of a file or of standard input.
fn debug_ready<I: FileSource, O: ByteSink>(
    alloc: Global,
    ready: Ready,
    commands: Option<&str>,
    source: &mut I,
    sink: &mut O,
) -> Status
    requires reads { I.reads source.old + MAX_READS < 2 ^ 64 }
    requires read_failures { I.failures source.old < 2 ^ 64 - 1 }
    requires idle { O.idle sink.old ≡ 0 }
    requires write_failures { O.failures sink.old < 2 ^ 64 - 1 }
    ensures reads { I.reads source.new ≤ I.reads source.old + MAX_READS }
    ensures row { O.most_idle sink.new ≤ max (O.most_idle sink.old) MAX_IDLE_WRITES }
    ensures run { IsRun I.reads I.failures O.failures O.idle source.old source.new sink.old sink.new result }
    ensures as_asked { result ≢ Status.Fault
        → IsDebugOn I.remaining I.reads I.failures O.contents O.failures O.idle (opened_with ready.setup.bench)
        ready.script.items source.old source.new sink.old sink.new result }
    ensures words { result ≢ Status.Usage }
{
    let Ready { setup, script } = ready;
    let Setup { node: _, bench } = setup;
    debug_on(alloc, bench, &script, commands, source, sink)
}

/// Reads a CONFIG, the files that it names beside it, and a script of a file, which is empty where none is named;
/// then does the commands of the file of the name `commands`, or of standard input, with a debugger on a bench of the
/// CONFIG's first node. Refused are, in this order, what is read before the commands, and then what `debug_on`
/// refuses.
pub fn debug<I: FileSource, O: ByteSink>(
    alloc: Global,
    config: &str,
    script: Option<&str>,
    commands: Option<&str>,
    source: &mut I,
    sink: &mut O,
) -> Status
    requires reads { I.reads source.old + 7 * MAX_READS < 2 ^ 64 }
    requires read_failures { I.failures source.old < 2 ^ 64 - 1 }
    requires idle { O.idle sink.old ≡ 0 }
    requires write_failures { O.failures sink.old < 2 ^ 64 - 1 }
    ensures reads { I.reads source.new ≤ I.reads source.old + 7 * MAX_READS }
    ensures row { O.most_idle sink.new ≤ max (O.most_idle sink.old) MAX_IDLE_WRITES }
    ensures run { IsRun I.reads I.failures O.failures O.idle source.old source.new sink.old sink.new result }
    ensures as_asked { result ≢ Status.Fault
        → IsDebugMet I.remaining I.reads I.failures O.contents O.failures O.idle
        (option_map (λ name. name.now) script.entry) source.old source.new sink.old sink.new result }
    ensures words { result ≢ Status.Usage }
{
    match read_all(alloc, config, script, source) {
        Ok(ready) => debug_ready(alloc, ready, commands, source, sink),
        Err(halt) => tell_halt(alloc, halt, sink),
    }
}
