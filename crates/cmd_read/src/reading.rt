//! `read`: messages of a file or of standard input, by the dictionary of another file or without one.
ghost use Rattle.std.specs.Prelude.{◌≡◌, ◌≢◌, ◌⊎◌, ◌<◌, ◌≤◌, ◌+◌, ◌*◌, ◌-◌, ◌^◌, None, max, option_map};
ghost use Rattle.std.specs.Io.KnownBytes.{IsAtEnd};
ghost use Rattle.base_device.specs.Devices.{HasWriteCause, IsRun, Tells};
ghost use Rattle.dia_show.specs.Glossary.{base_meanings};
ghost use Rattle.dict_text.specs.Told.{wrong_text};
ghost use Rattle.dict_text.specs.Wrong.{seen_line};
ghost use Rattle.msg_text.specs.Inputs.{IsReport};
ghost use Rattle.msg_text.specs.Styles.{end_in, printed_in};
ghost use Rattle.cmd_read.specs.Reads.{ReadsByDictionary, ReadsMessages, ReadsWith, TellsNoMemory};

use base_device::{
    ByteSink, ByteSource, FileSource, MAX_IDLE_WRITES, MAX_READS, Status, read_input, tell,
    tell_not_opened, tell_unread,
};
use dia_show::Glossary;
use dict_text::{DictError, WrongLine, read_dictionary, wrong_text};
use msg_input::Style;
use msg_text::{read_lines, read_on};
use std::alloc::{AllocError, Global};

// Reads messages of what the source gives now.
fn read_messages<I: ByteSource, O: ByteSink>(
    alloc: Global,
    glossary: &Glossary,
    style: Style,
    by_line: bool,
    source: &mut I,
    sink: &mut O,
) -> Status
    requires reads { I.reads source.old + MAX_READS < 2 ^ 64 }
    requires read_failures { I.failures source.old < 2 ^ 64 - 1 }
    requires idle { O.idle sink.old ≡ 0 }
    requires write_failures { O.failures sink.old < 2 ^ 64 - 1 }
    ensures reads { I.reads source.new ≤ I.reads source.old + MAX_READS }
    ensures row { O.most_idle sink.new ≤ max (O.most_idle sink.old) MAX_IDLE_WRITES }
    ensures run { IsRun I.reads I.failures O.failures O.idle source.old source.new sink.old sink.new result }
    ensures report { IsReport (printed_in style by_line glossary.now) (end_in style) I.remaining O.contents
        source.old source.new sink.old sink.new result
        ⊎ (HasWriteCause O.failures O.idle sink.old sink.new × (result ≡ Status.Fault)) }
    ensures whole { result ≡ Status.Done → IsAtEnd (I.remaining source.new) }
    ensures refused { result ≡ Status.Refused → I.reads source.old < I.reads source.new }
    ensures words { result ≢ Status.Usage }
{
    if by_line {
        read_lines(style, alloc, glossary, source, sink)
    } else {
        read_on(style, alloc, glossary, source, sink)
    }
}

fn read_file<I: FileSource, O: ByteSink>(
    alloc: Global,
    glossary: &Glossary,
    style: Style,
    by_line: bool,
    name: &str,
    source: &mut I,
    sink: &mut O,
) -> Status
    requires reads { I.reads source.old + MAX_READS < 2 ^ 64 }
    requires read_failures { I.failures source.old < 2 ^ 64 - 1 }
    requires idle { O.idle sink.old ≡ 0 }
    requires write_failures { O.failures sink.old < 2 ^ 64 - 1 }

    // The bounds on reads, and on writes in a row that take nothing.
    ensures reads { I.reads source.new ≤ I.reads source.old + MAX_READS }
    ensures row { O.most_idle sink.new ≤ max (O.most_idle sink.old) MAX_IDLE_WRITES }

    // A fault comes only where a device failed or a bound was met, and a device's failure is told.
    ensures run { IsRun I.reads I.failures O.failures O.idle source.old source.new sink.old sink.new result }

    // What was written out is what the text that was read of the file prints.
    ensures report { result ≢ Status.Fault → (start : I) × (I.reads start ≡ I.reads source.old)
        × IsReport (printed_in style by_line glossary.now) (end_in style) I.remaining O.contents start source.new
        sink.old sink.new result }

    // It is done only where nothing is left to read, and refused only where something was read.
    ensures whole { result ≡ Status.Done → IsAtEnd (I.remaining source.new) }
    ensures refused { result ≡ Status.Refused → I.reads source.old < I.reads source.new }
    ensures words { result ≢ Status.Usage }
{
    match source.open(name) {
        Ok(()) => read_messages(alloc, glossary, style, by_line, source, sink),
        Err(why) => tell_not_opened(alloc, name, why, sink),
    }
}

// Reads messages of a file, or of what the source gives now.
fn read_by<I: FileSource, O: ByteSink>(
    alloc: Global,
    glossary: &Glossary,
    style: Style,
    by_line: bool,
    file: Option<&str>,
    source: &mut I,
    sink: &mut O,
) -> Status
    requires reads { I.reads source.old + MAX_READS < 2 ^ 64 }
    requires read_failures { I.failures source.old < 2 ^ 64 - 1 }
    requires idle { O.idle sink.old ≡ 0 }
    requires write_failures { O.failures sink.old < 2 ^ 64 - 1 }
    ensures reads { I.reads source.new ≤ I.reads source.old + MAX_READS }
    ensures row { O.most_idle sink.new ≤ max (O.most_idle sink.old) MAX_IDLE_WRITES }
    ensures run { IsRun I.reads I.failures O.failures O.idle source.old source.new sink.old sink.new result }
    ensures as_asked { result ≢ Status.Fault
        → ReadsMessages I.remaining I.reads O.contents style by_line glossary.now
        (option_map (λ name. name.now) file.entry) source.old source.new sink.old sink.new result }
    ensures words { result ≢ Status.Usage }
{
    match file {
        None => read_messages(alloc, glossary, style, by_line, source, sink),
        Some(name) => read_file(alloc, glossary, style, by_line, name, source, sink),
    }
}

fn tell_no_memory<O: ByteSink>(sink: &mut O) -> Status
    requires idle { O.idle sink.old ≡ 0 }
    requires failures { O.failures sink.old < 2 ^ 64 - 1 }
    ensures told { TellsNoMemory O.contents O.failures O.idle sink.old sink.new result }
    ensures row { O.most_idle sink.new ≤ max (O.most_idle sink.old) MAX_IDLE_WRITES }
{
    tell(sink, b"no memory\n", Status::NoMemory)
}

// Tells the first wrong line of a dictionary.
fn tell_wrong<O: ByteSink>(alloc: Global, line: &WrongLine<'_>, sink: &mut O) -> Status
    requires idle { O.idle sink.old ≡ 0 }
    requires failures { O.failures sink.old < 2 ^ 64 - 1 }
    ensures told { Tells O.contents O.failures O.idle sink.old sink.new (wrong_text (seen_line line.now)) Status.Refused
        result
        ⊎ TellsNoMemory O.contents O.failures O.idle sink.old sink.new result }
    ensures row { O.most_idle sink.new ≤ max (O.most_idle sink.old) MAX_IDLE_WRITES }
{
    match wrong_text(alloc, line) {
        Ok(text) => tell(sink, &text, Status::Refused),
        Err(AllocError) => tell_no_memory(sink),
    }
}

// Reads the dictionary of a file, and then messages by it.
fn read_with<I: FileSource, O: ByteSink>(
    alloc: Global,
    style: Style,
    by_line: bool,
    dictionary: &str,
    file: Option<&str>,
    source: &mut I,
    sink: &mut O,
) -> Status
    requires reads { I.reads source.old + 2 * MAX_READS < 2 ^ 64 }
    requires read_failures { I.failures source.old < 2 ^ 64 - 1 }
    requires idle { O.idle sink.old ≡ 0 }
    requires write_failures { O.failures sink.old < 2 ^ 64 - 1 }
    ensures reads { I.reads source.new ≤ I.reads source.old + 2 * MAX_READS }
    ensures row { O.most_idle sink.new ≤ max (O.most_idle sink.old) MAX_IDLE_WRITES }
    ensures run { IsRun I.reads I.failures O.failures O.idle source.old source.new sink.old sink.new result }
    ensures as_asked { result ≢ Status.Fault
        → ReadsByDictionary I.remaining I.reads I.failures O.contents O.failures O.idle style by_line
        (option_map (λ name. name.now) file.entry) source.old source.new sink.old sink.new result
        ⊎ TellsNoMemory O.contents O.failures O.idle sink.old sink.new result }
    ensures words { result ≢ Status.Usage }
{
    let text = match read_input(alloc, Some(dictionary), source) {
        Ok(text) => text,
        Err(why) => return tell_unread(alloc, Some(dictionary), why, sink),
    };
    match read_dictionary(alloc, &text) {
        Ok(glossary) => {
            source.standard();
            read_by(alloc, &glossary, style, by_line, file, source, sink)
        }
        Err(DictError::NoMemory) => tell_no_memory(sink),
        Err(DictError::Wrong(line)) => tell_wrong(alloc, &line, sink),
    }
}

// Reads messages without a dictionary.
fn read_plainly<I: FileSource, O: ByteSink>(
    alloc: Global,
    style: Style,
    by_line: bool,
    file: Option<&str>,
    source: &mut I,
    sink: &mut O,
) -> Status
    requires reads { I.reads source.old + MAX_READS < 2 ^ 64 }
    requires read_failures { I.failures source.old < 2 ^ 64 - 1 }
    requires idle { O.idle sink.old ≡ 0 }
    requires write_failures { O.failures sink.old < 2 ^ 64 - 1 }
    ensures reads { I.reads source.new ≤ I.reads source.old + MAX_READS }
    ensures row { O.most_idle sink.new ≤ max (O.most_idle sink.old) MAX_IDLE_WRITES }
    ensures run { IsRun I.reads I.failures O.failures O.idle source.old source.new sink.old sink.new result }
    ensures as_asked { result ≢ Status.Fault
        → ReadsMessages I.remaining I.reads O.contents style by_line base_meanings
        (option_map (λ name. name.now) file.entry) source.old source.new sink.old sink.new result
        ⊎ TellsNoMemory O.contents O.failures O.idle sink.old sink.new result }
    ensures words { result ≢ Status.Usage }
{
    match Glossary::base(alloc) {
        Ok(glossary) => read_by(alloc, &glossary, style, by_line, file, source, sink),
        Err(AllocError) => tell_no_memory(sink),
    }
}

/// Reads messages of a file or of standard input, by the dictionary of a file or without one.
/// The dictionary is read whole before; its first wrong line is told, and then no message is read.
pub fn read<I: FileSource, O: ByteSink>(
    alloc: Global,
    style: Style,
    by_line: bool,
    dictionary: Option<&str>,
    file: Option<&str>,
    source: &mut I,
    sink: &mut O,
) -> Status
    requires reads { I.reads source.old + 2 * MAX_READS < 2 ^ 64 }
    requires read_failures { I.failures source.old < 2 ^ 64 - 1 }
    requires idle { O.idle sink.old ≡ 0 }
    requires write_failures { O.failures sink.old < 2 ^ 64 - 1 }
    ensures reads { I.reads source.new ≤ I.reads source.old + 2 * MAX_READS }
    ensures row { O.most_idle sink.new ≤ max (O.most_idle sink.old) MAX_IDLE_WRITES }
    ensures run { IsRun I.reads I.failures O.failures O.idle source.old source.new sink.old sink.new result }
    ensures as_asked { result ≢ Status.Fault
        → ReadsWith I.remaining I.reads I.failures O.contents O.failures O.idle style by_line
        (option_map (λ name. name.now) dictionary.entry)
        (option_map (λ name. name.now) file.entry) source.old source.new sink.old sink.new result
        ⊎ TellsNoMemory O.contents O.failures O.idle sink.old sink.new result }
    ensures words { result ≢ Status.Usage }
{
    match dictionary {
        None => read_plainly(alloc, style, by_line, file, source, sink),
        Some(name) => read_with(alloc, style, by_line, name, file, source, sink),
    }
}
