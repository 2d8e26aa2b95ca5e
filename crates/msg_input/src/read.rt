//! Messages from hexadecimal digits, printed as they come.
ghost use Rattle.std.specs.Prelude.{◌≡◌, ◌≢◌, ◌⊎◌, ◌<◌, ◌≤◌, ◌+◌, ◌-◌, ◌^◌, ◌++◌, [], None, max, length};
ghost use Rattle.std.specs.Prelude.{IfOk, OnOk, OnErr};
ghost use Rattle.std.specs.Io.KnownBytes.{IsAtEnd};
ghost use Rattle.dia_show.specs.Glossary.{Meanings};
ghost use Rattle.base_device.specs.Devices.{HasWriteCause, IsRun, TakesWhole, Tells};
ghost use Rattle.msg_input.specs.Ends.{EndsBy, end_status, place_text, words_of};
ghost use Rattle.msg_input.specs.Inputs.{IsPrintedOf, IsReport};
ghost use Rattle.msg_input.specs.Readings.{IsPoured, SoFar, place_of};

use crate::ends::{End, EndWords, Place, Refusal};
use crate::printer::Printer;
use crate::reading::Reading;
use base_device::{
    ByteSink, ByteSource, MAX_IDLE_WRITES, MAX_READS, Status, WriteFault, write_whole,
};
use dia_show::Glossary;
use std::alloc::{AllocError, Global};

/// How many characters are read at once.
pub(crate) const TEXT: usize = 65_536;

// Reads to the end of the input, and writes out the text of what each read completes.
fn pour<M: Printer, I: ByteSource, O: ByteSink>(
    glossary: &Glossary,
    reading: &mut Reading<M>,
    text: &mut [u8],
    source: &mut I,
    sink: &mut O,
) -> Result<End, WriteFault>
    requires room { 0 < length text.old }
    requires few { length text.old ≤ TEXT }
    requires start { SoFar (M.Says glossary.now None) 0 reading.old [] [] None }
    requires reads { I.reads source.old + MAX_READS < 2 ^ 64 }
    requires read_failures { I.failures source.old < 2 ^ 64 - 1 }
    requires idle { O.idle sink.old ≡ 0 }
    requires write_failures { O.failures sink.old < 2 ^ 64 - 1 }
    ensures end { IfOk result (EndsBy I.remaining I.reads I.failures source.old source.new) }
    ensures report { IfOk result (IsPoured (IsPrintedOf (M.Says glossary.now None) 0) I.remaining O.contents
        source.old source.new sink.old sink.new
        reading.new.report.out.items reading.new.report.refused (place_of reading.new)) }
    ensures some { OnOk result (I.reads source.old < I.reads source.new) }
    ensures sound { OnOk result ((O.failures sink.new ≡ O.failures sink.old) × (O.idle sink.new ≡ 0)) }
    ensures cause { OnErr result (HasWriteCause O.failures O.idle sink.old sink.new
        × (I.failures source.new ≡ I.failures source.old)) }
    ensures reads { I.reads source.new ≤ I.reads source.old + MAX_READS }
    ensures row { O.most_idle sink.new ≤ max (O.most_idle sink.old) MAX_IDLE_WRITES }
{
    'reads: for _ in 0..MAX_READS {
        let count = match source.read(text) {
            Err(_) => return Ok(End::ReadFailed),
            Ok(None) => continue,
            Ok(Some(0)) => return Ok(reading.end(glossary, None)),
            Ok(Some(count)) => count,
        };
        if let Err(refusal) = reading.take_text(glossary, None, &text[..count]) {
            return Ok(End::Refused(refusal));
        }
        write_whole(sink, reading.text())?;
        reading.clear();
    }
    Ok(End::TooManyReads)
}

// Writes out a number in decimal, where there is one.
fn write_place<O: ByteSink>(sink: &mut O, place: Option<u64>) -> Result<(), WriteFault>
    requires idle { O.idle sink.old ≡ 0 }
    requires failures { O.failures sink.old < 2 ^ 64 - 1 }
    ensures whole { OnOk result (TakesWhole O.contents O.failures O.idle sink.old sink.new (place_text place)) }
    ensures cause { OnErr result (HasWriteCause O.failures O.idle sink.old sink.new) }
    ensures row { O.most_idle sink.new ≤ max (O.most_idle sink.old) MAX_IDLE_WRITES }
{
    let mut digits = itoa::Buffer::new();
    match place {
        None => write_whole(sink, b""),
        Some(place) => write_whole(sink, digits.format(place).as_bytes()),
    }
}

// Writes out two texts.
fn write_both<O: ByteSink>(sink: &mut O, first: &[u8], second: &[u8]) -> Result<(), WriteFault>
    requires idle { O.idle sink.old ≡ 0 }
    requires failures { O.failures sink.old < 2 ^ 64 - 1 }
    ensures whole { OnOk result (TakesWhole O.contents O.failures O.idle sink.old sink.new (first.now ++ second.now)) }
    ensures cause { OnErr result (HasWriteCause O.failures O.idle sink.old sink.new) }
    ensures row { O.most_idle sink.new ≤ max (O.most_idle sink.old) MAX_IDLE_WRITES }
{
    write_whole(sink, first)?;
    write_whole(sink, second)
}

// Writes out a number and a text behind it.
fn write_placed<O: ByteSink>(
    sink: &mut O,
    place: Option<u64>,
    after: &[u8],
) -> Result<(), WriteFault>
    requires idle { O.idle sink.old ≡ 0 }
    requires failures { O.failures sink.old < 2 ^ 64 - 1 }
    ensures whole { OnOk result (TakesWhole O.contents O.failures O.idle sink.old sink.new
        (place_text place ++ after.now)) }
    ensures cause { OnErr result (HasWriteCause O.failures O.idle sink.old sink.new) }
    ensures row { O.most_idle sink.new ≤ max (O.most_idle sink.old) MAX_IDLE_WRITES }
{
    write_place(sink, place)?;
    write_whole(sink, after)
}

// Writes out a text, and words behind it.
fn write_words<O: ByteSink>(sink: &mut O, text: &[u8], words: &EndWords) -> Result<(), WriteFault>
    requires idle { O.idle sink.old ≡ 0 }
    requires failures { O.failures sink.old < 2 ^ 64 - 1 }
    ensures whole { OnOk result (TakesWhole O.contents O.failures O.idle sink.old sink.new (text.now
        ++ words_of words.now)) }
    ensures cause { OnErr result (HasWriteCause O.failures O.idle sink.old sink.new) }
    ensures row { O.most_idle sink.new ≤ max (O.most_idle sink.old) MAX_IDLE_WRITES }
{
    write_both(sink, text, words.before)?;
    write_placed(sink, words.place, words.after)
}

// Writes out a text, and what the end prints.
pub(crate) fn tell_end<M: Printer, O: ByteSink>(
    sink: &mut O,
    text: &[u8],
    end: End,
    place: Place,
    refused: bool,
) -> Status
    requires idle { O.idle sink.old ≡ 0 }
    requires write_failures { O.failures sink.old < 2 ^ 64 - 1 }
    ensures told { Tells O.contents O.failures O.idle sink.old sink.new (text.now ++ M.end_text end place)
        (end_status end refused) result }
    ensures row { O.most_idle sink.new ≤ max (O.most_idle sink.old) MAX_IDLE_WRITES }
{
    let words = M::end_words(end, place);
    match write_words(sink, text, &words) {
        Ok(()) => end.status(refused),
        Err(WriteFault) => Status::Fault,
    }
}

// Writes out what is left, and what the end prints.
fn close<M: Printer, O: ByteSink>(reading: &Reading<M>, end: End, sink: &mut O) -> Status
    requires idle { O.idle sink.old ≡ 0 }
    requires write_failures { O.failures sink.old < 2 ^ 64 - 1 }
    ensures closes { Tells O.contents O.failures O.idle sink.old sink.new
        (reading.now.report.out.items ++ M.end_text end (place_of reading.now))
        (end_status end reading.now.report.refused) result }
    ensures row { O.most_idle sink.new ≤ max (O.most_idle sink.old) MAX_IDLE_WRITES }
{
    tell_end::<M, O>(
        sink,
        reading.text(),
        end,
        reading.place(),
        reading.has_refused(),
    )
}

// Nothing was read, since there was no memory to begin with.
pub(crate) fn tell_no_memory<M: Printer, O: ByteSink>(sink: &mut O) -> Status
    requires idle { O.idle sink.old ≡ 0 }
    requires write_failures { O.failures sink.old < 2 ^ 64 - 1 }
    ensures told { Tells O.contents O.failures O.idle sink.old sink.new
        ([] ++ M.end_text (End.Refused Refusal.NoMemory) (record { messages = 0; octets = 0; characters = 0 }))
        Status.NoMemory result }
    ensures row { O.most_idle sink.new ≤ max (O.most_idle sink.old) MAX_IDLE_WRITES }
{
    let start = Place {
        messages: 0,
        octets: 0,
        characters: 0,
    };
    tell_end::<M, O>(sink, b"", End::Refused(Refusal::NoMemory), start, false)
}

// What is known before the first read, and room for what is read at once.
fn begun<M: Printer>(alloc: Global) -> Result<(Reading<M>, Vec<u8>), AllocError>
    ensures start { IfOk result (λ begun. (g : Meanings) → SoFar (M.Says g None) 0 begun.0 [] [] None) }
    ensures room { IfOk result (λ begun. length begun.1.items ≡ TEXT) }
{
    let reading = Reading::new(alloc)?;
    Ok((reading, vec![in alloc; 0u8; TEXT]?))
}

/// Reads messages to the end of `source`, and prints them to `sink` by a printer, by a glossary.
pub fn read_in<M: Printer, I: ByteSource, O: ByteSink>(
    alloc: Global,
    glossary: &Glossary,
    source: &mut I,
    sink: &mut O,
) -> Status
    requires reads { I.reads source.old + MAX_READS < 2 ^ 64 }
    requires read_failures { I.failures source.old < 2 ^ 64 - 1 }
    requires idle { O.idle sink.old ≡ 0 }
    requires write_failures { O.failures sink.old < 2 ^ 64 - 1 }
    ensures reads { I.reads source.new ≤ I.reads source.old + MAX_READS }
    ensures row { O.most_idle sink.new ≤ max (O.most_idle sink.old) MAX_IDLE_WRITES }
    ensures run { IsRun I.reads I.failures O.failures O.idle source.old source.new sink.old sink.new result }
    ensures report { IsReport (IsPrintedOf (M.Says glossary.now None) 0) M.end_text I.remaining O.contents
        source.old source.new sink.old sink.new result
        ⊎ (HasWriteCause O.failures O.idle sink.old sink.new × (result ≡ Status.Fault)) }
    ensures whole { result ≡ Status.Done → IsAtEnd (I.remaining source.new) }
    ensures refused { result ≡ Status.Refused → I.reads source.old < I.reads source.new }
    ensures words { result ≢ Status.Usage }
{
    let Ok((mut reading, mut text)) = begun::<M>(alloc) else {
        return tell_no_memory::<M, O>(sink);
    };
    match pour(glossary, &mut reading, &mut text, source, sink) {
        Ok(end) => close(&reading, end, sink),
        Err(WriteFault) => Status::Fault,
    }
}
