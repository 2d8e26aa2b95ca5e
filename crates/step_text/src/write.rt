//! A step as its line.

ghost use Rattle.std.specs.Prelude.{◌≡◌, ◌++◌, ◌∷◌, [], OnOk, decimal};
ghost use Rattle.step_text.specs.Commands.{which};
ghost use Rattle.step_text.specs.Lines.{behind, fact_words, line_of, others_of, piece_words, source_words};
ghost use Rattle.step_text.specs.Names.{key_name, kind_word, machine_word, names_of, shown};

use crate::command::which;
use crate::machines::Machines;
use crate::name::{prefix_of, put_shown};
use base_text::{put_content, put_number};
use bench_item::{Key, Source, Step};
use std::alloc::AllocError;
use tab_law::{LawBook, PLACES};
use tab_step::Event;

/// Puts a word behind a blank.
fn put_word(out: &mut Vec<u8>, name: &[u8]) -> Result<(), AllocError>
    ensures { OnOk result (out.new.items ≡ out.old.items ++ behind (shown name.now ∷ [])) }
{
    out.extend_from_slice(b" ")?;
    put_shown(out, name)
}

/// Puts a key behind a blank, as it is printed.
pub fn put_key(out: &mut Vec<u8>, key: &Key) -> Result<(), AllocError>
    ensures { OnOk result (out.new.items ≡ out.old.items ++ behind (shown (key_name key.now) ∷ [])) }
{
    put_word(out, prefix_of(key.role))?;
    put_shown(out, key.name.as_slice())
}

/// Puts the name of a kind of events behind a blank, `-` where the book has none at that place.
pub fn put_kind(
    out: &mut Vec<u8>,
    laws: &LawBook,
    machines: &Machines,
    kind: u8,
) -> Result<(), AllocError>
    ensures { OnOk result (out.new.items
        ≡ out.old.items ++ behind (kind_word (names_of laws.now machines.now) kind ∷ [])) }
{
    match laws.kinds().as_slice().get(usize::from(kind)) {
        Some(entry) => put_word(out, entry.name.as_slice()),
        None => out.extend_from_slice(b" -"),
    }
}

/// Puts a machine's key, `-` where none has that number.
fn put_machine(
    out: &mut Vec<u8>,
    laws: &LawBook,
    machines: &Machines,
    machine: u64,
) -> Result<(), AllocError>
    ensures { OnOk result (out.new.items
        ≡ out.old.items ++ behind (machine_word (names_of laws.now machines.now) machine ∷ [])) }
{
    for entry in machines.numbers.as_slice() {
        if entry.value == machine {
            return put_word(out, entry.name.as_slice());
        }
    }
    out.extend_from_slice(b" -")
}

/// Puts the facts that are not 0.
fn put_facts(out: &mut Vec<u8>, facts: &[u64; PLACES]) -> Result<(), AllocError>
    ensures { OnOk result (out.new.items ≡ out.old.items ++ behind (fact_words 0 facts.now)) }
{
    for (number, value) in facts.iter().enumerate() {
        if *value != 0 {
            put_number(out, b" ", number as u64)?;
            put_number(out, b"=", *value)?;
        }
    }
    Ok(())
}

/// Puts who puts items out.
fn put_source(out: &mut Vec<u8>, source: Source) -> Result<(), AllocError>
    ensures { OnOk result (out.new.items ≡ out.old.items ++ behind (source_words source)) }
{
    match source {
        Source::Line(line) => put_number(out, b" line ", u64::from(line)),
        Source::Shard(shard) => put_number(out, b" shard ", u64::from(shard)),
        Source::Desk(desk) => put_number(out, b" desk ", u64::from(desk)),
        Source::Clock => out.extend_from_slice(b" clock"),
    }
}

/// Puts what a connection was handed.
fn put_came(out: &mut Vec<u8>, line: u32, piece: &[u8]) -> Result<(), AllocError>
    ensures { OnOk result (out.new.items ≡ out.old.items ++ behind (decimal line ∷ piece_words piece.now)) }
{
    put_number(out, b" ", u64::from(line))?;
    put_content(out, piece)
}

/// Puts what a desk tells.
fn put_told(
    out: &mut Vec<u8>,
    laws: &LawBook,
    machines: &Machines,
    desk: u32,
    key: &Key,
    event: &Event,
) -> Result<(), AllocError>
    ensures { OnOk result (out.new.items ≡ out.old.items ++ behind (decimal desk ∷ shown (key_name key.now)
        ∷ kind_word (names_of laws.now machines.now) event.now.kind ∷ fact_words 0 event.now.facts)) }
{
    put_number(out, b" ", u64::from(desk))?;
    put_key(out, key)?;
    put_kind(out, laws, machines, event.kind)?;
    put_facts(out, &event.facts)
}

/// Puts which timer fires.
fn put_fired(
    out: &mut Vec<u8>,
    laws: &LawBook,
    machines: &Machines,
    machine: u64,
    generation: u64,
) -> Result<(), AllocError>
    ensures { OnOk result (out.new.items
        ≡ out.old.items ++ behind (machine_word (names_of laws.now machines.now) machine ∷ decimal generation ∷ [])) }
{
    put_machine(out, laws, machines, machine)?;
    put_number(out, b" ", generation)
}

/// Puts the words behind the command.
fn put_others(
    out: &mut Vec<u8>,
    laws: &LawBook,
    machines: &Machines,
    step: &Step,
) -> Result<(), AllocError>
    ensures { OnOk result (out.new.items
        ≡ out.old.items ++ behind (others_of (names_of laws.now machines.now) step.now)) }
{
    match step {
        Step::Joined => Ok(()),
        Step::Dialled(number) | Step::Lost(number) | Step::Work(number) => {
            put_number(out, b" ", u64::from(*number))
        }
        Step::Came { line, piece } => put_came(out, *line, piece.as_slice()),
        Step::Told { desk, key, event } => put_told(out, laws, machines, *desk, key, event),
        Step::Fired {
            machine,
            generation,
        } => put_fired(out, laws, machines, *machine, *generation),
        Step::Lift(source) | Step::Drop(source) => put_source(out, *source),
    }
}

/// Puts the line of a step, without a newline, behind what is there: the command and its words with one blank between.
/// A kind or a machine without a name is `-`.
pub fn write_step(
    out: &mut Vec<u8>,
    laws: &LawBook,
    machines: &Machines,
    step: &Step,
) -> Result<(), AllocError>
    ensures { OnOk result (out.new.items ≡ out.old.items ++ line_of (names_of laws.now machines.now) step.now) }
{
    out.extend_from_slice(which(step).name())?;
    put_others(out, laws, machines, step)
}
