//! `read`: messages from hexadecimal digits, printed as they come, whole or line by line.
ghost use Rattle.std.specs.Prelude.{false, true, ◌≡◌, ◌≢◌, ◌⊎◌, ◌<◌, ◌≤◌, ◌+◌, ◌-◌, ◌^◌, max};
ghost use Rattle.std.specs.Io.KnownBytes.{IsAtEnd};
ghost use Rattle.base_device.specs.Devices.{HasWriteCause, IsRun};
ghost use Rattle.msg_input.specs.Inputs.{IsReport};
ghost use Rattle.msg_text.specs.Styles.{end_in, printed_in};

use crate::explaining::Explaining;
use crate::json::Json;
use crate::plain::Plain;
use base_device::{ByteSink, ByteSource, MAX_IDLE_WRITES, MAX_READS, Status};
use dia_show::Glossary;
use msg_input::{Style, read_in, read_lines_in};
use std::alloc::Global;

/// Reads messages in hexadecimal to the end of `source`, and prints them to `sink` in a style, by a
/// glossary.
pub fn read_on<I: ByteSource, O: ByteSink>(
    style: Style,
    alloc: Global,
    glossary: &Glossary,
    source: &mut I,
    sink: &mut O,
) -> Status
    requires reads { I.reads source.old + MAX_READS < 2 ^ 64 }
    requires read_failures { I.failures source.old < 2 ^ 64 - 1 }
    requires idle { O.idle sink.old ≡ 0 }
    requires write_failures { O.failures sink.old < 2 ^ 64 - 1 }

    // The bounds on reads, and on writes in a row that take nothing.
    ensures reads { I.reads source.new ≤ I.reads source.old + MAX_READS }
    ensures row { O.most_idle sink.new ≤ max (O.most_idle sink.old) MAX_IDLE_WRITES }

    // A fault comes only where a device failed or a bound was met, and a device's failure is told.
    ensures run { IsRun I.reads I.failures O.failures O.idle source.old source.new sink.old sink.new result }

    // What was written out is what the text that was read prints: its messages in order, and then its end.
    ensures report { IsReport (printed_in style false glossary.now) (end_in style) I.remaining O.contents
        source.old source.new sink.old sink.new result
        ⊎ (HasWriteCause O.failures O.idle sink.old sink.new × (result ≡ Status.Fault)) }

    // It is done only where nothing is left to read, and refused only where something was read.
    ensures whole { result ≡ Status.Done → IsAtEnd (I.remaining source.new) }
    ensures refused { result ≡ Status.Refused → I.reads source.old < I.reads source.new }
    ensures words { result ≢ Status.Usage }
{
    match style {
        Style::Plain => read_in::<Plain, I, O>(alloc, glossary, source, sink),
        Style::Explained => read_in::<Explaining, I, O>(alloc, glossary, source, sink),
        Style::Json => read_in::<Json, I, O>(alloc, glossary, source, sink),
    }
}

/// Reads lines to the end of `source`, each of which is messages in hexadecimal by itself,
/// and prints them to `sink` in a style, by a glossary.
pub fn read_lines<I: ByteSource, O: ByteSink>(
    style: Style,
    alloc: Global,
    glossary: &Glossary,
    source: &mut I,
    sink: &mut O,
) -> Status
    requires reads { I.reads source.old + MAX_READS < 2 ^ 64 }
    requires read_failures { I.failures source.old < 2 ^ 64 - 1 }
    requires idle { O.idle sink.old ≡ 0 }
    requires write_failures { O.failures sink.old < 2 ^ 64 - 1 }

    // The bounds on reads, and on writes in a row that take nothing.
    ensures reads { I.reads source.new ≤ I.reads source.old + MAX_READS }
    ensures row { O.most_idle sink.new ≤ max (O.most_idle sink.old) MAX_IDLE_WRITES }

    // A fault comes only where a device failed or a bound was met, and a device's failure is told.
    ensures run { IsRun I.reads I.failures O.failures O.idle source.old source.new sink.old sink.new result }

    // What was written out is what each line of the text that was read prints by itself, in order, and then its end.
    ensures report { IsReport (printed_in style true glossary.now) (end_in style) I.remaining O.contents
        source.old source.new sink.old sink.new result
        ⊎ (HasWriteCause O.failures O.idle sink.old sink.new × (result ≡ Status.Fault)) }

    // It is done only where nothing is left to read, and refused only where something was read.
    ensures whole { result ≡ Status.Done → IsAtEnd (I.remaining source.new) }
    ensures refused { result ≡ Status.Refused → I.reads source.old < I.reads source.new }
    ensures words { result ≢ Status.Usage }
{
    match style {
        Style::Plain => read_lines_in::<Plain, I, O>(alloc, glossary, source, sink),
        Style::Explained => read_lines_in::<Explaining, I, O>(alloc, glossary, source, sink),
        Style::Json => read_lines_in::<Json, I, O>(alloc, glossary, source, sink),
    }
}
