//! A command, read.
ghost use Rattle.std.specs.Prelude.{◌≡◌, Ok, IfErr, IfOk};
ghost use Rattle.debug_text.specs.Commands.{alone, command_by, command_of};
ghost use Rattle.debug_text.specs.Faults.{fault_in};
ghost use Rattle.debug_text.specs.Tables.{tables_of};
ghost use Rattle.text_parts.specs.Pieces.{words_left};

use crate::book::TableBook;
use crate::breaks::break_from;
use crate::command::{Command, CommandFault};
use crate::verb::{Verb, verb_of};
use crate::words::{one_key, one_number, row_of};
use std::alloc::Global;
use text_parts::Words;

/// A command without words behind it.
fn alone(words: &mut Words<'_>, command: Command) -> Result<Command, CommandFault>
    ensures { result ≡ alone command (words_left words.old) }
{
    match words.next() {
        None => Ok(command),
        Some(_) => Err(CommandFault::UnknownCommand),
    }
}

/// The command of a verb and the words behind it.
#[tactic(auto, using(crate::proofs::KeyLemmas::reads), unfolding(crate::specs::Commands::command_by))]
fn command_by(
    alloc: Global,
    book: &TableBook<'_>,
    verb: Verb,
    words: &mut Words<'_>,
) -> Result<Command, CommandFault>
    ensures ok { IfOk result (λ command. command_by (tables_of book.now) verb (words_left words.old) ≡ Ok command) }
    ensures fault { IfErr result (λ f. f ≡ fault_in (command_by (tables_of book.now) verb (words_left words.old))) }
{
    match verb {
        Verb::Step => alone(words, Command::Step),
        Verb::Back => alone(words, Command::Back),
        Verb::Go => alone(words, Command::Go),
        Verb::ReverseGo => alone(words, Command::ReverseGo),
        Verb::Goto => Ok(Command::Goto(one_number(words)?)),
        Verb::Break => Ok(Command::Break(break_from(alloc, book, words)?)),
        Verb::Clear => Ok(Command::Clear(one_number(words)?)),
        Verb::Show => {
            let key = one_key(alloc, CommandFault::NoSuchMachine, words)?;
            Ok(Command::Show(key))
        }
        Verb::ListRow => {
            let (role, row) = row_of(words)?;
            Ok(Command::ListRow { role, row })
        }
        Verb::TotalsOf => Ok(Command::TotalsOf(one_number(words)?)),
        Verb::Where => alone(words, Command::Where),
        Verb::Help => alone(words, Command::Help),
        Verb::History => {
            let key = one_key(alloc, CommandFault::NoSuchMachine, words)?;
            Ok(Command::History(key))
        }
        Verb::Why => {
            let key = one_key(alloc, CommandFault::NoSuchMachine, words)?;
            Ok(Command::Why(key))
        }
        Verb::Queues => alone(words, Command::Queues),
        Verb::Timers => alone(words, Command::Timers),
        Verb::Lines => alone(words, Command::Lines),
        Verb::Sent => Ok(Command::Sent(one_number(words)?)),
        Verb::Accounts => alone(words, Command::Accounts),
    }
}

/// The command of a line. Why it is none: an unknown word or form, then a bad number;
/// a machine that is to be shown by a word that is no key isn't there; and memory.
#[tactic(auto, unfolding(crate::specs::Commands::command_of))]
pub fn read_command(
    alloc: Global,
    book: &TableBook<'_>,
    line: &[u8],
) -> Result<Command, CommandFault>
    ensures ok { IfOk result (λ command. command_of (tables_of book.now) line.now ≡ Ok command) }

    // Memory can be wanting only for a command.
    ensures fault { IfErr result (λ f. f ≡ fault_in (command_of (tables_of book.now) line.now)) }
{
    let mut words = Words::new(line);
    let Some(word) = words.next() else {
        return Err(CommandFault::UnknownCommand);
    };
    match verb_of(word.octets) {
        Some(verb) => command_by(alloc, book, verb, &mut words),
        None => Err(CommandFault::UnknownCommand),
    }
}
