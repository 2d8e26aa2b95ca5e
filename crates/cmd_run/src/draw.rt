//! `draw`: a table as a graph.
ghost use Rattle.std.specs.Prelude.{◌≡◌, ◌≢◌, ◌⊎◌, ◌<◌, ◌≤◌, ◌+◌, ◌-◌, ◌^◌, max};
ghost use Rattle.base_device.specs.Devices.{IsRun};
ghost use Rattle.cmd_read.specs.Reads.{TellsNoMemory};
ghost use Rattle.cmd_run.specs.Runs.{DrawsTable};

use base_device::{
    ByteSink, FileSource, MAX_IDLE_WRITES, MAX_READS, Status, read_input, tell_unread,
};
use std::alloc::Global;
use tab_draw::draw_on;

/// Reads the table of a file or of standard input, and prints its graph.
pub(crate) fn draw<I: FileSource, O: ByteSink>(
    alloc: Global,
    table: Option<&str>,
    source: &mut I,
    sink: &mut O,
) -> Status
    requires reads { I.reads source.old + MAX_READS < 2 ^ 64 }
    requires read_failures { I.failures source.old < 2 ^ 64 - 1 }
    requires idle { O.idle sink.old ≡ 0 }
    requires write_failures { O.failures sink.old < 2 ^ 64 - 1 }
    ensures reads { I.reads source.new ≤ I.reads source.old + MAX_READS }
    ensures row { O.most_idle sink.new ≤ max (O.most_idle sink.old) MAX_IDLE_WRITES }
    ensures run { IsRun I.reads I.failures O.failures O.idle source.old source.new sink.old sink.new result }
    ensures as_asked { result ≢ Status.Fault
        → DrawsTable I.remaining I.reads I.failures O.contents O.failures O.idle source.old source.new sink.old sink.new
        result
        ⊎ TellsNoMemory O.contents O.failures O.idle sink.old sink.new result }
    ensures words { result ≢ Status.Usage }
{
    match read_input(alloc, table, source) {
        Ok(text) => draw_on(alloc, &text, sink),
        Err(why) => tell_unread(alloc, table, why, sink),
    }
}
