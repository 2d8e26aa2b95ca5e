//! A walk: a table, or its image, stepped over a list of events, printed event by event.
ghost use Rattle.std.specs.Prelude.{◌≡◌, ◌≢◌, ◌<◌, ◌≤◌, ◌-◌, ◌^◌, max, Some, codes, IfOk, MatchResult};
ghost use Rattle.base_device.specs.Devices.{HasWriteCause, Tells};
ghost use Rattle.base_text.specs.Digits.{is_blank};
ghost use Rattle.event_text.specs.Events.{events_of};
ghost use Rattle.hex.specs.Hex.{is_hex_digit};
ghost use Rattle.image_text.specs.Images.{refusal_text};
ghost use Rattle.tab_walk.specs.Starts.{start_text};
ghost use Rattle.tab_walk.specs.Walks.{IsImageWalked, IsReady, IsRefused, IsRunBy, IsRunFrom, IsToldWith, IsWalked};
ghost use Rattle.tab_walk.specs.Walks.{IsWalkedOn, StepBy, bind_text, is_image, neither};
ghost use Rattle.tab_walk.specs.Walks.{parse_text, table_text, told_of};

use crate::pour::{Halt, Stepping, pour};
use crate::start::{WalkOptions, start_of};
use crate::steps::{Rules, names_of};
use base_device::{ByteSink, MAX_IDLE_WRITES, Status, tell};
use event_text::first_bad;
use fault_text::{RowPlace, bad_line, known_fault, unbound_place, unbound_text};
use image_text::{ImageError, read_image, refusal_text};
use std::alloc::{AllocError, Global};
use tab_call::Registry;
use tab_law::LawBook;
use tab_step::{MachineState, Unbound, bind};
use tab_text::{ParseError, TextCode, TextFault, parse};

/// What is told where no machine is written as a walk is asked to begin.
#[tactic(auto, unfolding(crate::specs::Starts::start_text))]
fn start_text() -> &'static [u8]
    ensures { result.now ≡ start_text }
{
    b"bad start\n  wanted: STATE rN=V ..: a state of the table, then registers, each once, \
        N at most 63 and V below 2^64\n"
}

/// Whether a character may stand between digits.
fn is_blank(c: u8) -> bool
    ensures { result ≡ is_blank c }
{
    matches!(c, b' ' | b'\t' | b'\n' | b'\r')
}

fn is_hex_digit(c: u8) -> bool
    ensures { result ≡ is_hex_digit c }
{
    matches!(c, b'0'..=b'9' | b'a'..=b'f' | b'A'..=b'F')
}

/// Whether a text is that of an image: its first character that is no blank is a hexadecimal digit.
fn is_image(text: &[u8]) -> bool
    ensures { result ≡ is_image text.now }
{
    for c in text {
        if !is_blank(*c) {
            return is_hex_digit(*c);
        }
    }
    false
}

fn tell_no_memory<O: ByteSink>(sink: &mut O) -> Status
    requires idle { O.idle sink.old ≡ 0 }
    requires failures { O.failures sink.old < 2 ^ 64 - 1 }
    ensures told { Tells O.contents O.failures O.idle sink.old sink.new (codes "no memory\n") Status.NoMemory result }
    ensures row { O.most_idle sink.new ≤ max (O.most_idle sink.old) MAX_IDLE_WRITES }
{
    tell(sink, b"no memory\n", Status::NoMemory)
}

/// Tells a refusal, or that there is no memory for its text.
fn tell_refusal<O: ByteSink>(text: Result<Vec<u8>, AllocError>, sink: &mut O) -> Status
    requires idle { O.idle sink.old ≡ 0 }
    requires failures { O.failures sink.old < 2 ^ 64 - 1 }
    ensures told { MatchResult text
        (λ text. Tells O.contents O.failures O.idle sink.old sink.new text.items Status.Refused result)
        (λ _. Tells O.contents O.failures O.idle sink.old sink.new (codes "no memory\n") Status.NoMemory result) }
    ensures row { O.most_idle sink.new ≤ max (O.most_idle sink.old) MAX_IDLE_WRITES }
{
    match text {
        Ok(text) => tell(sink, &text, Status::Refused),
        Err(AllocError) => tell_no_memory(sink),
    }
}

/// The run of a machine over the events of a text.
fn run<O: ByteSink>(
    alloc: Global,
    by: Stepping<'_>,
    start: &MachineState,
    events: &[u8],
    sink: &mut O,
) -> Status
    requires ready { IsReady by.registry.now.book by.rules }
    requires idle { O.idle sink.old ≡ 0 }
    requires failures { O.failures sink.old < 2 ^ 64 - 1 }
    ensures told { IsToldWith O.contents O.failures O.idle
        (IsRunFrom (StepBy by.entry.registry.now.book by.entry.rules)
        (told_of by.entry.why by.entry.registry.now.book by.entry.rules) start.now
        (events_of by.entry.registry.now.book events.now)) sink.old sink.new result }
    ensures row { O.most_idle sink.new ≤ max (O.most_idle sink.old) MAX_IDLE_WRITES }
{
    match pour(alloc, by, start, events, sink) {
        Ok(()) => Status::Done,
        Err(Halt::NoMemory) => tell_no_memory(sink),
        Err(Halt::WriteFault) => Status::Fault,
    }
}

/// The walk of a machine over the events of a text.
fn walk_by<O: ByteSink>(
    alloc: Global,
    rules: Rules<'_>,
    registry: &Registry,
    options: WalkOptions<'_>,
    events: &[u8],
    sink: &mut O,
) -> Status
    requires ready { IsReady registry.now.book rules }
    requires idle { O.idle sink.old ≡ 0 }
    requires failures { O.failures sink.old < 2 ^ 64 - 1 }
    ensures told { IsToldWith O.contents O.failures O.idle
        (IsRunBy registry.now.book rules.entry options.entry events.now) sink.old sink.new result }
    ensures row { O.most_idle sink.new ≤ max (O.most_idle sink.old) MAX_IDLE_WRITES }
{
    let Some(start) = start_of(names_of(rules), options) else {
        return tell(sink, start_text(), Status::Refused);
    };
    if let Some(line) = first_bad(registry.laws(), events) {
        return tell_refusal(bad_line(alloc, registry.laws(), &line), sink);
    }
    let why = options.why;
    let by = Stepping {
        rules,
        registry,
        why,
    };
    run(alloc, by, &start, events, sink)
}

/// What a text without a header is not.
#[tactic(auto, unfolding(crate::specs::Walks::neither))]
fn neither(code: TextCode) -> &'static [u8]
    ensures { result.now ≡ neither code }
{
    match code {
        TextCode::NoHeader => {
            b"  neither a table nor an image, which begins with a hexadecimal digit\n"
        }
        TextCode::BadByte
        | TextCode::EmptyCell
        | TextCode::NoRowToContinue
        | TextCode::BadName
        | TextCode::TooManyRows
        | TextCode::TooManyNames
        | TextCode::TooManyInRow
        | TextCode::TooLong => b"",
    }
}

/// The first fault of a table's text, and what a text without a header is not.
fn table_text(
    alloc: Global,
    book: &LawBook,
    table: &[u8],
    fault: &TextFault,
) -> Result<Vec<u8>, AllocError>
    ensures { IfOk result (λ text. text.items ≡ table_text book.now table.now fault.now) }
{
    let mut text = known_fault(alloc, book, table, fault)?;
    text.extend_from_slice(neither(fault.code))?;
    Ok(text)
}

/// Tells of a text that gives no table.
fn unparsed<O: ByteSink>(
    alloc: Global,
    book: &LawBook,
    table: &[u8],
    error: &ParseError,
    sink: &mut O,
) -> Status
    requires idle { O.idle sink.old ≡ 0 }
    requires failures { O.failures sink.old < 2 ^ 64 - 1 }
    ensures told { IsToldWith O.contents O.failures O.idle (IsRefused (parse_text book.now table.now error.now))
        sink.old sink.new result }
    ensures row { O.most_idle sink.new ≤ max (O.most_idle sink.old) MAX_IDLE_WRITES }
{
    match error {
        ParseError::NoMemory => tell_no_memory(sink),
        ParseError::Fault(fault) => tell_refusal(table_text(alloc, book, table, fault), sink),
    }
}

/// Tells of a table that names what the book lacks.
fn unbound<O: ByteSink>(
    alloc: Global,
    book: &LawBook,
    place: Option<RowPlace>,
    why: &Unbound,
    sink: &mut O,
) -> Status
    requires idle { O.idle sink.old ≡ 0 }
    requires failures { O.failures sink.old < 2 ^ 64 - 1 }
    ensures told { IsToldWith O.contents O.failures O.idle (IsRefused (bind_text book.now place why.now))
        sink.old sink.new result }
    ensures row { O.most_idle sink.new ≤ max (O.most_idle sink.old) MAX_IDLE_WRITES }
{
    match why {
        Unbound::NoMemory => tell_no_memory(sink),
        Unbound::Missing(name) => tell_refusal(
            unbound_text(alloc, book, place, name.as_slice()),
            sink,
        ),
    }
}

/// The walk of a table.
fn walk_table<O: ByteSink>(
    alloc: Global,
    text: &[u8],
    registry: &Registry,
    options: WalkOptions<'_>,
    events: &[u8],
    sink: &mut O,
) -> Status
    requires idle { O.idle sink.old ≡ 0 }
    requires failures { O.failures sink.old < 2 ^ 64 - 1 }
    ensures told { IsToldWith O.contents O.failures O.idle
        (IsWalked registry.now.book options.entry text.now events.now) sink.old sink.new result }
    ensures row { O.most_idle sink.new ≤ max (O.most_idle sink.old) MAX_IDLE_WRITES }
{
    let book = registry.laws();
    let table = match parse(alloc, text) {
        Ok(table) => table,
        Err(error) => return unparsed(alloc, book, text, &error, sink),
    };
    let place = unbound_place(book, &table);
    match bind(alloc, table, book) {
        Ok(bound) => walk_by(alloc, Rules::Rows(&bound), registry, options, events, sink),
        Err(why) => unbound(alloc, book, place, &why, sink),
    }
}

/// Tells of a text that gives no program.
fn unread<O: ByteSink>(alloc: Global, error: ImageError, sink: &mut O) -> Status
    requires idle { O.idle sink.old ≡ 0 }
    requires failures { O.failures sink.old < 2 ^ 64 - 1 }
    ensures told { IsToldWith O.contents O.failures O.idle (IsRefused (refusal_text error)) sink.old sink.new result }
    ensures row { O.most_idle sink.new ≤ max (O.most_idle sink.old) MAX_IDLE_WRITES }
{
    tell_refusal(refusal_text(alloc, error), sink)
}

/// The walk of an image.
fn walk_image<O: ByteSink>(
    alloc: Global,
    image: &[u8],
    registry: &Registry,
    options: WalkOptions<'_>,
    events: &[u8],
    sink: &mut O,
) -> Status
    requires idle { O.idle sink.old ≡ 0 }
    requires failures { O.failures sink.old < 2 ^ 64 - 1 }
    ensures told { IsToldWith O.contents O.failures O.idle
        (IsImageWalked registry.now.book options.entry image.now events.now) sink.old sink.new result }
    ensures row { O.most_idle sink.new ≤ max (O.most_idle sink.old) MAX_IDLE_WRITES }
{
    match read_image(alloc, image, registry.laws()) {
        Ok(program) => walk_by(
            alloc,
            Rules::Image(&program),
            registry,
            options,
            events,
            sink,
        ),
        Err(error) => unread(alloc, error, sink),
    }
}

/// The walk of a table or an image.
fn walk_either<O: ByteSink>(
    alloc: Global,
    input: &[u8],
    registry: &Registry,
    options: WalkOptions<'_>,
    events: &[u8],
    sink: &mut O,
) -> Status
    requires idle { O.idle sink.old ≡ 0 }
    requires failures { O.failures sink.old < 2 ^ 64 - 1 }
    ensures walk { IsWalkedOn O.contents O.failures O.idle registry.now.book options.entry input.now events.now sink.old
        sink.new result }
    ensures row { O.most_idle sink.new ≤ max (O.most_idle sink.old) MAX_IDLE_WRITES }
{
    if is_image(input) {
        walk_image(alloc, input, registry, options, events, sink)
    } else {
        walk_table(alloc, input, registry, options, events, sink)
    }
}

/// Steps a table over events by the callbacks of a registry, and prints each step as it is taken: the kind, the states
/// before and after it, the row, and a line for each deed. The table is its text, or its image in hexadecimal digits:
/// that is what a text is whose first character that is no blank is a digit. The options say where the machine begins,
/// and whether the registers that changed stand under each step, and of each row of the state and kind before the one
/// that took the event (of an image no rows are told) the first guard that says no.
///
/// A line of `events` is `KIND N=V ..`: a kind of the registry, and facts by number. Refused, with status `Refused`,
/// are a table with a fault (`line N fault C`), one that names what the registry lacks (`unbound NAME`), a start
/// of another form (`bad start`) and a line of another form (`bad line N`), each with what was wanted, an image
/// that isn't digits, two for each octet (`bad hex`), and one with a fault (`at N fault C`); nothing is stepped
/// then. Of the events none is kept: the text is gone over twice. Where memory runs out, what is printed are the
/// first steps and then `no memory`.
pub fn walk_on<O: ByteSink>(
    alloc: Global,
    table: &[u8],
    registry: &Registry,
    options: WalkOptions<'_>,
    events: &[u8],
    sink: &mut O,
) -> Status
    requires idle { O.idle sink.old ≡ 0 }
    requires failures { O.failures sink.old < 2 ^ 64 - 1 }

    // What is printed is the text of the table's run on the events, or the first refusal; want of memory aside, it is
    // done exactly where nothing is refused.
    ensures walk { IsWalkedOn O.contents O.failures O.idle registry.now.book options.entry table.now events.now sink.old
        sink.new result }
    ensures words { result ≢ Status.Usage }

    // A fault comes only where the sink failed, or took nothing in as many writes in a row as the bound says.
    ensures cause { result ≡ Status.Fault → HasWriteCause O.failures O.idle sink.old sink.new }
    ensures row { O.most_idle sink.new ≤ max (O.most_idle sink.old) MAX_IDLE_WRITES }
{
    walk_either(alloc, table, registry, options, events, sink)
}
