//! Breakpoints, read.
ghost use Rattle.std.specs.Prelude.{◌≡◌, ◌<◌, Ok, IfErr, IfOk, IfSome, length, position};
ghost use Rattle.std.specs.Str.{bytes_eq};
ghost use Rattle.script_text.specs.Keys.{key_of};
ghost use Rattle.debug_text.specs.Breaks.{break_by, break_from, kind_break, machine_break, row_break, state_break};
ghost use Rattle.debug_text.specs.Breaks.{state_with, value_break, value_with};
ghost use Rattle.debug_text.specs.Faults.{fault_in};
ghost use Rattle.debug_text.specs.Tables.{tables_of};
ghost use Rattle.debug_text.specs.Words.{register_of};
ghost use Rattle.text_parts.specs.Pieces.{words_left};

use crate::book::TableBook;
use crate::command::{Breakpoint, CommandFault};
use crate::words::{one_key, register_of, role_in, row_of};
use base_list::Octets;
use script_text::read_key;
use std::alloc::Global;
use tab_law::LawBook;
use tab_text::Table;
use text_parts::Words;

/// The place of a name.
fn place_in(names: &[Octets], word: &[u8]) -> Option<usize>
    ensures place { result ≡ position (λ name. bytes_eq name word.now) names.now }
    ensures within { IfSome result (λ i. i < length names.now) }
{
    names.iter().position(|name| name.as_slice() == word)
}

/// The number of the state of that name.
fn state_of(table: &Table, word: &[u8]) -> Option<u8>
    ensures { result ≡ position (λ name. bytes_eq name word.now) table.now.states }
{
    match place_in(table.states().as_slice(), word) {
        Some(state) => Some(state as u8),
        None => None,
    }
}

/// `KEY STATE`
fn state_with(
    alloc: Global,
    book: &TableBook<'_>,
    key: &[u8],
    state: &[u8],
) -> Result<Breakpoint, CommandFault>
    ensures ok { IfOk result (λ b. state_with (tables_of book.now) (key_of key.now) state.now ≡ Ok b) }
    ensures fault { IfErr result (λ f. f ≡ fault_in (state_with (tables_of book.now) (key_of key.now) state.now)) }
{
    let Some(role) = role_in(key) else {
        return Err(CommandFault::UnknownCommand);
    };
    let Some(state) = state_of(book.table(role), state) else {
        return Err(CommandFault::UnknownCommand);
    };
    match read_key(alloc, key) {
        Ok(Some(key)) => Ok(Breakpoint::State { key, state }),
        Ok(None) => Err(CommandFault::UnknownCommand),
        Err(_) => Err(CommandFault::NoMemory),
    }
}

/// `state KEY STATE`, behind its first word.
fn state_break(
    alloc: Global,
    book: &TableBook<'_>,
    words: &mut Words<'_>,
) -> Result<Breakpoint, CommandFault>
    ensures ok { IfOk result (λ b. state_break (tables_of book.now) (words_left words.old) ≡ Ok b) }
    ensures fault { IfErr result (λ f. f ≡ fault_in (state_break (tables_of book.now) (words_left words.old))) }
{
    match (words.next(), words.next(), words.next()) {
        (Some(key), Some(state), None) => state_with(alloc, book, key.octets, state.octets),
        _ => Err(CommandFault::UnknownCommand),
    }
}

/// `row ROLE R`, behind its first word.
fn row_break(words: &mut Words<'_>) -> Result<Breakpoint, CommandFault>
    ensures { result ≡ row_break (words_left words.old) }
{
    match row_of(words) {
        Ok((role, row)) => Ok(Breakpoint::Row { role, row }),
        Err(fault) => Err(fault),
    }
}

/// `kind KIND`, behind its first word.
fn kind_break(laws: &LawBook, words: &mut Words<'_>) -> Result<Breakpoint, CommandFault>
    ensures { result ≡ kind_break laws.now (words_left words.old) }
{
    laws.known();
    let (Some(kind), None) = (words.next(), words.next()) else {
        return Err(CommandFault::UnknownCommand);
    };
    match laws.kinds().find(kind.octets) {
        Some(kind) => Ok(Breakpoint::Kind(kind as u8)),
        None => Err(CommandFault::UnknownCommand),
    }
}

/// `machine KEY`, behind its first word.
#[tactic(auto, using(crate::proofs::KeyLemmas::reads))]
fn machine_break(alloc: Global, words: &mut Words<'_>) -> Result<Breakpoint, CommandFault>
    ensures ok { IfOk result (λ b. machine_break (words_left words.old) ≡ Ok b) }
    ensures fault { IfErr result (λ f. f ≡ fault_in (machine_break (words_left words.old))) }
{
    match one_key(alloc, CommandFault::UnknownCommand, words) {
        Ok(key) => Ok(Breakpoint::Machine(key)),
        Err(fault) => Err(fault),
    }
}

/// The fault of `rR=V`, or want of memory where it has none.
fn short_of(at: &[u8]) -> CommandFault
    ensures { result ≡ fault_in (register_of at.now) }
{
    match register_of(at) {
        Ok(_) => CommandFault::NoMemory,
        Err(fault) => fault,
    }
}

/// `KEY rR=V`
#[tactic(auto, using(crate::proofs::KeyLemmas::reads))]
fn value_with(alloc: Global, key: &[u8], at: &[u8]) -> Result<Breakpoint, CommandFault>
    ensures ok { IfOk result (λ b. value_with (key_of key.now) (register_of at.now) ≡ Ok b) }
    ensures fault { IfErr result (λ f. f ≡ fault_in (value_with (key_of key.now) (register_of at.now))) }
{
    match read_key(alloc, key) {
        Ok(Some(key)) => match register_of(at) {
            Ok((register, value)) => Ok(Breakpoint::Value {
                key,
                register,
                value,
            }),
            Err(fault) => Err(fault),
        },
        Ok(None) => Err(CommandFault::UnknownCommand),
        Err(_) => Err(short_of(at)),
    }
}

/// `value KEY rR=V`, behind its first word.
fn value_break(alloc: Global, words: &mut Words<'_>) -> Result<Breakpoint, CommandFault>
    ensures ok { IfOk result (λ b. value_break (words_left words.old) ≡ Ok b) }
    ensures fault { IfErr result (λ f. f ≡ fault_in (value_break (words_left words.old))) }
{
    match (words.next(), words.next(), words.next()) {
        (Some(key), Some(at), None) => value_with(alloc, key.octets, at.octets),
        _ => Err(CommandFault::UnknownCommand),
    }
}

/// What stands behind `break`, by its first word.
fn break_by(
    alloc: Global,
    book: &TableBook<'_>,
    what: &[u8],
    words: &mut Words<'_>,
) -> Result<Breakpoint, CommandFault>
    ensures ok { IfOk result (λ b. break_by (tables_of book.now) what.now (words_left words.old) ≡ Ok b) }
    ensures fault { IfErr result (λ f. f ≡ fault_in (break_by (tables_of book.now) what.now (words_left words.old))) }
{
    if what == b"row".as_slice() {
        row_break(words)
    } else if what == b"state".as_slice() {
        state_break(alloc, book, words)
    } else if what == b"kind".as_slice() {
        kind_break(book.laws, words)
    } else if what == b"machine".as_slice() {
        machine_break(alloc, words)
    } else if what == b"value".as_slice() {
        value_break(alloc, words)
    } else {
        Err(CommandFault::UnknownCommand)
    }
}

/// What stands behind `break`.
pub(crate) fn break_from(
    alloc: Global,
    book: &TableBook<'_>,
    words: &mut Words<'_>,
) -> Result<Breakpoint, CommandFault>
    ensures ok { IfOk result (λ b. break_from (tables_of book.now) (words_left words.old) ≡ Ok b) }
    ensures fault { IfErr result (λ f. f ≡ fault_in (break_from (tables_of book.now) (words_left words.old))) }
{
    match words.next() {
        Some(what) => break_by(alloc, book, what.octets, words),
        None => Err(CommandFault::UnknownCommand),
    }
}
