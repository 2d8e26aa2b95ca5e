//! Messages from lines of hexadecimal digits, each line by itself, printed as they come.
ghost use Rattle.std.specs.Prelude.{◌≡◌, ◌≢◌, ◌⊎◌, ◌<◌, ◌≤◌, ◌+◌, ◌-◌, ◌^◌, ◌++◌, [], max, length, IfOk, OnOk, OnErr};
ghost use Rattle.std.specs.Io.KnownBytes.{IsAtEnd};
ghost use Rattle.dia_show.specs.Glossary.{Meanings};
ghost use Rattle.base_device.specs.Devices.{HasWriteCause, IsRun, Tells};
ghost use Rattle.msg_input.specs.ByLine.{AreLinesOf, says_by};
ghost use Rattle.msg_input.specs.ByLineSoFar.{LinesSoFar, end_of};
ghost use Rattle.msg_input.specs.Ends.{EndsBy, end_status};
ghost use Rattle.msg_input.specs.Inputs.{IsReport};
ghost use Rattle.msg_input.specs.Readings.{IsPoured, place_of};

use crate::by_line::ByLine;
use crate::ends::{End, Refusal};
use crate::printer::Printer;
use crate::read::{TEXT, tell_end, tell_no_memory};
use base_device::{
    ByteSink, ByteSource, MAX_IDLE_WRITES, MAX_READS, Status, WriteFault, write_whole,
};
use dia_show::Glossary;
use std::alloc::{AllocError, Global};

// How an input ends whose last line is ended, or isn't for want of memory.
fn end_of(ended: Result<(), AllocError>) -> End
    ensures { result ≡ end_of ended }
{
    match ended {
        Ok(()) => End::Whole,
        Err(AllocError) => End::Refused(Refusal::NoMemory),
    }
}

// Reads to the end of the input, and writes out the texts of the lines that each read completes.
fn pour_lines<M: Printer, I: ByteSource, O: ByteSink>(
    glossary: &Glossary,
    lines: &mut ByLine<M>,
    text: &mut [u8],
    source: &mut I,
    sink: &mut O,
) -> Result<End, WriteFault>
    requires room { 0 < length text.old }
    requires few { length text.old ≤ TEXT }
    requires begun { lines.old.reading.characters ≡ 0 }
    requires start { LinesSoFar (says_by (M.Says glossary.now)) M.line_text lines.old [] [] }
    requires reads { I.reads source.old + MAX_READS < 2 ^ 64 }
    requires read_failures { I.failures source.old < 2 ^ 64 - 1 }
    requires idle { O.idle sink.old ≡ 0 }
    requires write_failures { O.failures sink.old < 2 ^ 64 - 1 }
    ensures end { IfOk result (EndsBy I.remaining I.reads I.failures source.old source.new) }
    ensures report { IfOk result (IsPoured (AreLinesOf (says_by (M.Says glossary.now)) M.line_text) I.remaining
        O.contents source.old source.new sink.old sink.new
        lines.new.out.items lines.new.refused (place_of lines.new.reading)) }
    ensures some { OnOk result (I.reads source.old < I.reads source.new) }
    ensures sound { OnOk result ((O.failures sink.new ≡ O.failures sink.old) × (O.idle sink.new ≡ 0)) }
    ensures cause { OnErr result (HasWriteCause O.failures O.idle sink.old sink.new
        × (I.failures source.new ≡ I.failures source.old)) }
    ensures reads { I.reads source.new ≤ I.reads source.old + MAX_READS }
    ensures row { O.most_idle sink.new ≤ max (O.most_idle sink.old) MAX_IDLE_WRITES }
{
    'reads: for _ in 0..MAX_READS {
        let count = match source.read(text) {
            Err(_) => return Ok(End::ReadFailed),
            Ok(None) => continue,
            Ok(Some(0)) => return Ok(end_of(lines.end(glossary))),
            Ok(Some(count)) => count,
        };
        if let Err(AllocError) = lines.take_text(glossary, &text[..count]) {
            return Ok(End::Refused(Refusal::NoMemory));
        }
        write_whole(sink, lines.text())?;
        lines.clear();
    }
    Ok(End::TooManyReads)
}

// Writes out what is left, and what the end prints.
fn close_lines<M: Printer, O: ByteSink>(lines: &ByLine<M>, end: End, sink: &mut O) -> Status
    requires idle { O.idle sink.old ≡ 0 }
    requires write_failures { O.failures sink.old < 2 ^ 64 - 1 }
    ensures closes { Tells O.contents O.failures O.idle sink.old sink.new
        (lines.now.out.items ++ M.end_text end (place_of lines.now.reading))
        (end_status end lines.now.refused) result }
    ensures row { O.most_idle sink.new ≤ max (O.most_idle sink.old) MAX_IDLE_WRITES }
{
    tell_end::<M, O>(sink, lines.text(), end, lines.place(), lines.has_refused())
}

// What is known before the first read, and room for what is read at once.
fn begun<M: Printer>(alloc: Global) -> Result<(ByLine<M>, Vec<u8>), AllocError>
    ensures begun { IfOk result (λ begun. begun.0.reading.characters ≡ 0) }
    ensures start { IfOk result (λ begun. (g : Meanings) → LinesSoFar (says_by (M.Says g)) M.line_text begun.0 [] []) }
    ensures room { IfOk result (λ begun. length begun.1.items ≡ TEXT) }
{
    let lines = ByLine::new(alloc)?;
    Ok((lines, vec![in alloc; 0u8; TEXT]?))
}

/// Reads lines to the end of `source`, each of which is an input by itself,
/// and prints them to `sink` by a printer, by a glossary.
pub fn read_lines_in<M: Printer, I: ByteSource, O: ByteSink>(
    alloc: Global,
    glossary: &Glossary,
    source: &mut I,
    sink: &mut O,
) -> Status
    requires reads { I.reads source.old + MAX_READS < 2 ^ 64 }
    requires read_failures { I.failures source.old < 2 ^ 64 - 1 }
    requires idle { O.idle sink.old ≡ 0 }
    requires write_failures { O.failures sink.old < 2 ^ 64 - 1 }
    ensures reads { I.reads source.new ≤ I.reads source.old + MAX_READS }
    ensures row { O.most_idle sink.new ≤ max (O.most_idle sink.old) MAX_IDLE_WRITES }
    ensures run { IsRun I.reads I.failures O.failures O.idle source.old source.new sink.old sink.new result }
    ensures report { IsReport (AreLinesOf (says_by (M.Says glossary.now)) M.line_text) M.end_text I.remaining O.contents
        source.old source.new sink.old sink.new result
        ⊎ (HasWriteCause O.failures O.idle sink.old sink.new × (result ≡ Status.Fault)) }
    ensures whole { result ≡ Status.Done → IsAtEnd (I.remaining source.new) }
    ensures refused { result ≡ Status.Refused → I.reads source.old < I.reads source.new }
    ensures words { result ≢ Status.Usage }
{
    let Ok((mut lines, mut text)) = begun::<M>(alloc) else {
        return tell_no_memory::<M, O>(sink);
    };
    match pour_lines(glossary, &mut lines, &mut text, source, sink) {
        Ok(end) => close_lines(&lines, end, sink),
        Err(WriteFault) => Status::Fault,
    }
}
