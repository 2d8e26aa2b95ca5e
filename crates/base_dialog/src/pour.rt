//! Each piece of an input read, answered, and the answers written out.
ghost use Rattle.std.specs.Prelude.{◌≡◌, ◌<◌, ◌≤◌, ◌+◌, ◌-◌, ◌^◌, [], IfOk, OnErr, OnOk, length, max};
ghost use Rattle.base_device.specs.Devices.{HasWriteCause};
ghost use Rattle.base_dialog.specs.Poured.{Closes, IsPoured};

use crate::answerer::Answerer;
use crate::dialog::{Dialog, end, take_piece};
use base_device::{
    ByteSink, ByteSource, InputError, MAX_IDLE_WRITES, MAX_READS, WriteFault, write_whole,
};
use std::alloc::{AllocError, Global};

/// Answers the last line, and writes that out.
fn close<T: Answerer, O: ByteSink>(
    alloc: Global,
    dialog: Dialog<T>,
    sink: &mut O,
) -> Result<Result<(), InputError>, WriteFault>
    requires stands { T.stands dialog.answerer }
    requires idle { O.idle sink.old ≡ 0 }
    requires failures { O.failures sink.old < 2 ^ 64 - 1 }
    ensures closed { IfOk result (Closes T.has_answered dialog O.contents sink.old sink.new) }
    ensures sound { OnOk result ((O.failures sink.new ≡ O.failures sink.old) × (O.idle sink.new ≡ 0)) }
    ensures cause { OnErr result (HasWriteCause O.failures O.idle sink.old sink.new) }
    ensures row { O.most_idle sink.new ≤ max (O.most_idle sink.old) MAX_IDLE_WRITES }
{
    match end(alloc, dialog) {
        Ok(text) => {
            write_whole(sink, &text)?;
            Ok(Ok(()))
        }
        Err(AllocError) => Ok(Err(InputError::NoMemory)),
    }
}

/// Reads to the end of an input, and writes out the answers to the lines that each read ends.
pub(crate) fn pour<T: Answerer, I: ByteSource, O: ByteSink>(
    alloc: Global,
    answerer: T,
    piece: &mut [u8],
    source: &mut I,
    sink: &mut O,
) -> Result<Result<(), InputError>, WriteFault>
    requires room { 0 < length piece.old }
    requires stands { T.stands answerer }
    requires start { T.has_answered answerer answerer [] [] }
    requires reads { I.reads source.old + MAX_READS < 2 ^ 64 }
    requires read_failures { I.failures source.old < 2 ^ 64 - 1 }
    requires idle { O.idle sink.old ≡ 0 }
    requires write_failures { O.failures sink.old < 2 ^ 64 - 1 }
    ensures poured { IfOk result
        (IsPoured T.has_answered answerer I.remaining I.reads I.failures O.contents
        source.old source.new sink.old sink.new) }
    ensures sound { OnOk result ((O.failures sink.new ≡ O.failures sink.old) × (O.idle sink.new ≡ 0)) }
    ensures cause { OnErr result
        (HasWriteCause O.failures O.idle sink.old sink.new × (I.failures source.new ≡ I.failures source.old)) }
    ensures reads { I.reads source.new ≤ I.reads source.old + MAX_READS }
    ensures made { I.reads source.old ≤ I.reads source.new }
    ensures row { O.most_idle sink.new ≤ max (O.most_idle sink.old) MAX_IDLE_WRITES }
{
    let mut dialog = Dialog {
        answerer,
        begun: Vec::new(alloc),
    };
    'reads: for _ in 0..MAX_READS {
        let count = match source.read(piece) {
            Err(_) => return Ok(Err(InputError::Failed)),
            Ok(None) => continue,
            Ok(Some(0)) => return close(alloc, dialog, sink),
            Ok(Some(count)) => count,
        };
        let Ok(answered) = take_piece(alloc, dialog, &piece[..count]) else {
            return Ok(Err(InputError::NoMemory));
        };
        dialog = answered.answerer;
        write_whole(sink, &answered.text)?;
    }
    Ok(Err(InputError::NoEnd))
}
