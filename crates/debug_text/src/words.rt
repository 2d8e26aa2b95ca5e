//! The parts of commands: numbers, keys, rows of tables, registers.
ghost use Rattle.std.specs.Prelude.{◌≡◌, ◌==◌, Ok, IfErr, IfOk};
ghost use Rattle.std.specs.List.{slice_split};
ghost use Rattle.script_text.specs.Keys.{key_of};
ghost use Rattle.debug_text.specs.Faults.{fault_in};
ghost use Rattle.debug_text.specs.Words.{key_or, one_key, one_number, register_from, register_of, register_with};
ghost use Rattle.debug_text.specs.Words.{role_in, role_of, row_of, row_with};
ghost use Rattle.text_parts.specs.Pieces.{words_left};

use crate::command::CommandFault;
use base_text::number_of;
use bench_item::{Key, Role};
use script_text::read_key;
use std::alloc::Global;
use tab_law::PLACES;
use text_parts::{Pieces, Words};

/// The one number that is left.
pub(crate) fn one_number(words: &mut Words<'_>) -> Result<u64, CommandFault>
    ensures { result ≡ one_number (words_left words.old) }
{
    let Some(word) = words.next() else {
        return Err(CommandFault::UnknownCommand);
    };
    match words.next() {
        None => match number_of(word.octets) {
            Some(number) => Ok(number),
            None => Err(CommandFault::BadNumber),
        },
        Some(_) => Err(CommandFault::UnknownCommand),
    }
}

/// The key of a word, or this fault where it is none.
#[tactic(auto, using(crate::proofs::KeyLemmas::reads))]
pub(crate) fn key_or(alloc: Global, fault: CommandFault, word: &[u8]) -> Result<Key, CommandFault>
    ensures ok { IfOk result (λ key. key_or fault (key_of word.now) ≡ Ok key) }
    ensures fault { IfErr result (λ f. f ≡ fault_in (key_or fault (key_of word.now))) }
{
    match read_key(alloc, word) {
        Ok(Some(key)) => Ok(key),
        Ok(None) => Err(fault),
        Err(_) => Err(CommandFault::NoMemory),
    }
}

/// The one key that is left.
pub(crate) fn one_key(
    alloc: Global,
    fault: CommandFault,
    words: &mut Words<'_>,
) -> Result<Key, CommandFault>
    ensures ok { IfOk result (λ key. one_key fault (words_left words.old) ≡ Ok key) }
    ensures fault { IfErr result (λ f. f ≡ fault_in (one_key fault (words_left words.old))) }
{
    let Some(word) = words.next() else {
        return Err(CommandFault::UnknownCommand);
    };
    match words.next() {
        None => key_or(alloc, fault, word.octets),
        Some(_) => Err(CommandFault::UnknownCommand),
    }
}

/// The role of a word.
fn role_of(word: &[u8]) -> Option<Role>
    ensures { result ≡ role_of word.now }
{
    if word == b"peer".as_slice() {
        Some(Role::Peer)
    } else if word == b"client".as_slice() {
        Some(Role::Client)
    } else if word == b"server".as_slice() {
        Some(Role::Server)
    } else {
        None
    }
}

/// A row of a role's table, where both are there.
fn row_with(role: Option<Role>, row: Option<u64>) -> Result<(Role, u64), CommandFault>
    ensures { result ≡ row_with role row }
{
    match (role, row) {
        (None, _) => Err(CommandFault::UnknownCommand),
        (Some(_), None) => Err(CommandFault::BadNumber),
        (Some(role), Some(row)) => Ok((role, row)),
    }
}

/// The role and the row that are left.
pub(crate) fn row_of(words: &mut Words<'_>) -> Result<(Role, u64), CommandFault>
    ensures { result ≡ row_of (words_left words.old) }
{
    match (words.next(), words.next(), words.next()) {
        (Some(role), Some(row), None) => row_with(role_of(role.octets), number_of(row.octets)),
        _ => Err(CommandFault::UnknownCommand),
    }
}

/// The role that a key's letter names.
pub(crate) fn role_in(word: &[u8]) -> Option<Role>
    ensures { result ≡ role_in word.now }
{
    match word {
        [b'p', b':', ..] => Some(Role::Peer),
        [b'c', b':', ..] => Some(Role::Client),
        [b's', b':', ..] => Some(Role::Server),
        _ => None,
    }
}

/// A register and a value, where both are there.
fn register_with(register: Option<u64>, value: Option<u64>) -> Result<(usize, u64), CommandFault>
    ensures { result ≡ register_with register value }
{
    match (register, value) {
        (Some(register), Some(value)) if register < PLACES as u64 => Ok((register as usize, value)),
        _ => Err(CommandFault::BadNumber),
    }
}

/// The register and the value of `R=V`.
fn register_from(text: &[u8]) -> Result<(usize, u64), CommandFault>
    ensures { result ≡ register_from (slice_split (λ c. c == 61) text.now) }
{
    let mut pieces = Pieces::new(text, b'=');
    match (pieces.next(), pieces.next(), pieces.next()) {
        (Some(register), Some(value), None) => register_with(number_of(register), number_of(value)),
        _ => Err(CommandFault::UnknownCommand),
    }
}

/// The register and the value of `rR=V`.
pub(crate) fn register_of(word: &[u8]) -> Result<(usize, u64), CommandFault>
    ensures { result ≡ register_of word.now }
{
    match word {
        [b'r', rest @ ..] => register_from(rest),
        _ => Err(CommandFault::UnknownCommand),
    }
}
