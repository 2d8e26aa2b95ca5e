//! A file or standard input, answered line by line, to a status.
ghost use Rattle.std.specs.Prelude.{◌≡◌, ◌≢◌, ◌<◌, ◌≤◌, ◌+◌, ◌-◌, ◌^◌, [], max};
ghost use Rattle.base_device.specs.Devices.{IsRun, failures_after};
ghost use Rattle.base_dialog.specs.Told.{IsAnswered, IsAnsweredFrom};

use crate::answerer::Answerer;
use crate::pour::pour;
use base_device::{
    ByteSink, FileSource, InputError, MAX_IDLE_WRITES, MAX_READS, OpenError, Status, WriteFault,
    tell_unread,
};
use std::alloc::Global;

/// How many octets are read at once.
const PIECE: usize = 65_536;

/// Turns a source to a file, or to standard input.
fn turn_to<I: FileSource>(source: &mut I, name: Option<&str>) -> Result<(), OpenError>
    requires { I.failures source.old < 2 ^ 64 - 1 }
    ensures reads { I.reads source.new ≡ I.reads source.old }
    ensures failures { I.failures source.new ≡ failures_after result (I.failures source.old) }
{
    match name {
        Some(name) => source.open(name),
        None => {
            source.standard();
            Ok(())
        }
    }
}

/// Answers what a source gives.
fn answer_source<T: Answerer, I: FileSource, O: ByteSink>(
    alloc: Global,
    name: Option<&str>,
    answerer: T,
    source: &mut I,
    sink: &mut O,
) -> Status
    requires stands { T.stands answerer }
    requires start { T.has_answered answerer answerer [] [] }
    requires reads { I.reads source.old + MAX_READS < 2 ^ 64 }
    requires read_failures { I.failures source.old < 2 ^ 64 - 1 }
    requires idle { O.idle sink.old ≡ 0 }
    requires write_failures { O.failures sink.old < 2 ^ 64 - 1 }
    ensures reads { I.reads source.new ≤ I.reads source.old + MAX_READS }
    ensures row { O.most_idle sink.new ≤ max (O.most_idle sink.old) MAX_IDLE_WRITES }
    ensures run { IsRun I.reads I.failures O.failures O.idle source.old source.new sink.old sink.new result }
    ensures as_asked { result ≢ Status.Fault → IsAnsweredFrom T.has_answered answerer I.remaining I.failures O.contents
        O.failures O.idle source.old source.new sink.old sink.new result }
    ensures words { result ≢ Status.Usage }
{
    let Ok(mut piece) = vec![in alloc; 0u8; PIECE] else {
        return tell_unread(alloc, name, InputError::NoMemory, sink);
    };
    match pour(alloc, answerer, &mut piece, source, sink) {
        Ok(Ok(())) => Status::Done,
        Ok(Err(why)) => tell_unread(alloc, name, why, sink),
        Err(WriteFault) => Status::Fault,
    }
}

/// Reads the file of that name, or standard input, to its end, and answers each line. The answers to the lines that a
/// read ends are written out before the next read. Want of memory and read faults are told behind them.
pub fn answer_input<T: Answerer, I: FileSource, O: ByteSink>(
    alloc: Global,
    name: Option<&str>,
    answerer: T,
    source: &mut I,
    sink: &mut O,
) -> Status
    requires stands { T.stands answerer }
    requires start { T.has_answered answerer answerer [] [] }
    requires reads { I.reads source.old + MAX_READS < 2 ^ 64 }
    requires read_failures { I.failures source.old < 2 ^ 64 - 1 }
    requires idle { O.idle sink.old ≡ 0 }
    requires write_failures { O.failures sink.old < 2 ^ 64 - 1 }
    ensures reads { I.reads source.new ≤ I.reads source.old + MAX_READS }
    ensures row { O.most_idle sink.new ≤ max (O.most_idle sink.old) MAX_IDLE_WRITES }
    ensures run { IsRun I.reads I.failures O.failures O.idle source.old source.new sink.old sink.new result }
    ensures as_asked { result ≢ Status.Fault → IsAnswered T.has_answered answerer I.remaining I.reads I.failures
        O.contents O.failures O.idle source.old source.new sink.old sink.new result }
    ensures words { result ≢ Status.Usage }
{
    match turn_to(source, name) {
        Ok(()) => answer_source(alloc, name, answerer, source, sink),
        Err(why) => tell_unread(alloc, name, InputError::NotOpened(why), sink),
    }
}
