//! `asm`: a table as an image.
ghost use Rattle.std.specs.Prelude.{◌≡◌, ◌≢◌, ◌⊎◌, ◌<◌, ◌≤◌, ◌+◌, ◌-◌, ◌^◌, max};
ghost use Rattle.base_device.specs.Devices.{IsRun};
ghost use Rattle.cmd_read.specs.Reads.{TellsNoMemory};
ghost use Rattle.cmd_run.specs.Runs.{AssemblesTable};

use crate::walk::tell_no_memory;
use base_device::{
    ByteSink, FileSource, MAX_IDLE_WRITES, MAX_READS, Status, read_input, tell_unread,
};
use image_text::assemble_on;
use role_tables::all_laws;
use std::alloc::Global;

/// Reads the table of a file or of standard input, and prints its image, over the names of all roles.
pub(crate) fn assemble<I: FileSource, O: ByteSink>(
    alloc: Global,
    table: Option<&str>,
    source: &mut I,
    sink: &mut O,
) -> Status
    requires reads { I.reads source.old + MAX_READS < 2 ^ 64 }
    requires read_failures { I.failures source.old < 2 ^ 64 - 1 }
    requires idle { O.idle sink.old ≡ 0 }
    requires write_failures { O.failures sink.old < 2 ^ 64 - 1 }
    ensures reads { I.reads source.new ≤ I.reads source.old + MAX_READS }
    ensures row { O.most_idle sink.new ≤ max (O.most_idle sink.old) MAX_IDLE_WRITES }
    ensures run { IsRun I.reads I.failures O.failures O.idle source.old source.new sink.old sink.new result }
    ensures as_asked { result ≢ Status.Fault
        → AssemblesTable I.remaining I.reads I.failures O.contents O.failures O.idle source.old source.new
        sink.old sink.new result
        ⊎ TellsNoMemory O.contents O.failures O.idle sink.old sink.new result }
    ensures words { result ≢ Status.Usage }
{
    let text = match read_input(alloc, table, source) {
        Ok(text) => text,
        Err(why) => return tell_unread(alloc, table, why, sink),
    };
    match all_laws(alloc) {
        Ok(laws) => assemble_on(alloc, &text, &laws, sink),
        Err(_) => tell_no_memory(sink),
    }
}
