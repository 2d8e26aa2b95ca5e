//! Replies and faults, printed.
ghost use Rattle.std.specs.Prelude.{◌≡◌, ◌++◌, OnOk, codes, decimal, slice_get};
ghost use Rattle.std.specs.Option.{option_map};
ghost use Rattle.debug_text.specs.Faults.{fault_text};
ghost use Rattle.debug_text.specs.Replies.{help_text, registers_text, reply_text, stands_text, totals_text};
ghost use Rattle.debug_text.specs.Tables.{table_of, tables_of};
ghost use Rattle.step_text.specs.Names.{key_name, shown};

use crate::book::TableBook;
use crate::command::CommandFault;
use crate::reply::Reply;
use acct_totals::Totals;
use base_text::put_number;
use bench_item::{Key, Role};
use event_text::put_name;
use itoa::Buffer;
use std::alloc::{AllocError, Global};
use step_text::put_key;
use tab_law::PLACES;
use tab_step::MachineState;

/// A line for each command.
pub const HELP: &[u8] = b"\
step                      the next step of the script
back                      the last step is taken back
go                        steps up to a breakpoint, or to the end of the script
rgo                       back to the last entry that meets a breakpoint
goto N                    to the place where N steps are taken
break row ROLE R          stop at row R of a table: peer, client or server
break state KEY STATE     stop where a machine comes to stand in a state
break kind KIND           stop where an event of a kind is handled
break machine KEY         stop where an item for a machine is handled
break value KEY rR=V      stop where a register comes to have a value
clear B                   without breakpoint B
show KEY                  where a machine stands: state, registers that aren't 0
history KEY               the moves of a machine
why KEY                   its last move: event, row, guards
list ROLE R               row R of a table
totals ACCOUNT            what stands on an account
accounts                  what stands on each
queues                    what waits in each outbox, hand and inbox
timers                    which timers are armed
lines                     where each connection stands
sent L                    what connection L has sent
where                     the place, and the place in the script
";

/// Puts a number with a label in front, and a newline.
fn put_line(out: &mut Vec<u8>, label: &[u8], number: u64) -> Result<(), AllocError>
    ensures { OnOk result (out.new.items ≡ out.old.items ++ label.now ++ decimal number ++ codes "\n") }
{
    put_number(out, label, number)?;
    out.extend_from_slice(b"\n")
}

/// Puts why a command was refused: `fault N`, and behind it the number of a step's fault.
pub fn put_fault(out: &mut Vec<u8>, fault: CommandFault) -> Result<(), AllocError>
    ensures { OnOk result (out.new.items ≡ out.old.items ++ fault_text fault) }
{
    match fault {
        CommandFault::StepRefused(step) => put_line(out, b"fault 8 ", u64::from(step.number())),
        _ => put_line(out, b"fault ", u64::from(fault.number())),
    }
}

/// Puts a key as a word.
fn put_key_word(alloc: Global, out: &mut Vec<u8>, key: &Key) -> Result<(), AllocError>
    ensures { OnOk result (out.new.items ≡ out.old.items ++ shown (key_name key.now)) }
{
    let mut behind_blank = Vec::new(alloc);
    put_key(&mut behind_blank, key)?;
    match behind_blank.as_slice() {
        [] => Ok(()),
        [_, word @ ..] => out.extend_from_slice(word),
    }
}

/// The name of a state.
fn state_name<'a>(book: &TableBook<'a>, role: Role, state: u8) -> Option<&'a [u8]>
    ensures { option_map (λ name. name.now) result ≡ slice_get (table_of (tables_of book.now) role).states state }
{
    match book.table(role).states().as_slice().get(usize::from(state)) {
        Some(name) => Some(name.as_slice()),
        None => None,
    }
}

/// Puts the registers that aren't 0.
fn put_registers(out: &mut Vec<u8>, registers: &[u64; PLACES]) -> Result<(), AllocError>
    ensures { OnOk result (out.new.items ≡ out.old.items ++ registers_text 0 registers.now) }
{
    for (register, value) in registers.iter().enumerate() {
        if *value != 0 {
            put_number(out, b" r", register as u64)?;
            put_number(out, b"=", *value)?;
        }
    }
    Ok(())
}

/// Puts where a machine stands.
fn put_stands(
    alloc: Global,
    out: &mut Vec<u8>,
    book: &TableBook<'_>,
    key: &Key,
    state: &MachineState,
) -> Result<(), AllocError>
    ensures { OnOk result (out.new.items ≡ out.old.items ++ stands_text (tables_of book.now) key.now state.now) }
{
    put_key_word(alloc, out, key)?;
    let name = state_name(book, key.role, state.state);
    put_name(out, b" ", name, u64::from(state.state))?;
    put_registers(out, &state.regs)?;
    out.extend_from_slice(b"\n")
}

/// Puts a label and a number of up to 128 bits.
fn put_large(out: &mut Vec<u8>, label: &[u8], number: u128) -> Result<(), AllocError>
    ensures { OnOk result (out.new.items ≡ out.old.items ++ label.now ++ decimal number) }
{
    let mut digits = Buffer::new();
    out.extend_from_slice(label)?;
    out.extend_from_slice(digits.format(number).as_bytes())
}

/// Puts what stands on an account.
fn put_totals(out: &mut Vec<u8>, totals: &Totals) -> Result<(), AllocError>
    ensures { OnOk result (out.new.items ≡ out.old.items ++ totals_text totals.now) }
{
    put_number(out, b"given ", totals.given)?;
    put_number(out, b" reserved ", totals.reserved)?;
    put_number(out, b" debited ", totals.debited)?;
    put_large(out, b" unpaid ", totals.unpaid)?;
    out.extend_from_slice(b"\n")
}

/// Puts what each command is for.
#[tactic(auto, unfolding(crate::specs::Replies::help_text))]
fn put_help(out: &mut Vec<u8>) -> Result<(), AllocError>
    ensures { OnOk result (out.new.items ≡ out.old.items ++ help_text) }
{
    out.extend_from_slice(HELP)
}

/// Puts a reply, with its newline.
pub fn put_reply(
    alloc: Global,
    out: &mut Vec<u8>,
    book: &TableBook<'_>,
    reply: &Reply,
) -> Result<(), AllocError>
    ensures { OnOk result (out.new.items ≡ out.old.items ++ reply_text (tables_of book.now) reply.now) }
{
    match reply {
        Reply::Text(text) => out.extend_from_slice(text.as_slice()),
        Reply::End => out.extend_from_slice(b"end\n"),
        Reply::At(place) => put_line(out, b"at ", *place),
        Reply::StoppedAt { place, number } => {
            put_number(out, b"stopped at ", *place)?;
            put_line(out, b" by ", *number)
        }
        Reply::EndAt(place) => put_line(out, b"end at ", *place),
        Reply::WasSet(number) => put_line(out, b"break ", *number),
        Reply::WasCleared(number) => put_line(out, b"cleared ", *number),
        Reply::Stands { key, state } => put_stands(alloc, out, book, key, state),
        Reply::AreTotals(totals) => put_totals(out, totals),
        Reply::IsAt { place, next, last } => {
            put_number(out, b"at ", *place)?;
            put_number(out, b" script ", *next)?;
            put_line(out, b" of ", *last)
        }
        Reply::Help => put_help(out),
    }
}
