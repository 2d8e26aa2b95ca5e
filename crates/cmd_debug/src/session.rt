//! Lines as commands of a debugger, done in order, and what is printed of each.
ghost use Rattle.std.specs.Prelude.{IfOk, OnOk, map, replicate};
ghost use Rattle.bench_debug.specs.Seen.{seen};
ghost use Rattle.bench_script.specs.Ran.{IsRunBy};
ghost use Rattle.role_tables.specs.Roles.{all_laws};
ghost use Rattle.cmd_debug.specs.Sessions.{IsReplied, IsSession};

use base_dialog::{Answered, Answerer};
use base_list::Octets;
use bench_debug::{Debugger, tables_in};
use bench_setup::{WithCalls, with_calls};
use debug_text::{put_fault, put_reply};
use std::alloc::{AllocError, Global};
use tab_call::Registry;

/// Does the command of a line, and puts what is printed of it.
fn reply_to(
    alloc: Global,
    debugger: &mut Debugger,
    registries: &[Registry],
    line: &[u8],
    out: &mut Vec<u8>,
) -> Result<(), AllocError>
    requires { IsRunBy (seen debugger.old).world (map (λ r. r.book) registries.now) }
    ensures replied { OnOk result
        (IsReplied (seen debugger.old) (seen debugger.new) line.now out.old.items out.new.items) }
    ensures by { IsRunBy (seen debugger.new).world (map (λ r. r.book) registries.now) }
{
    match debugger.command(registries, line) {
        Ok(reply) => put_reply(alloc, out, &tables_in(debugger.core()), &reply),
        Err(fault) => put_fault(out, fault),
    }
}

/// Does the commands of lines, in order, and hands out what is printed of them.
fn reply_all(
    alloc: Global,
    debugger: &mut Debugger,
    registries: &[Registry],
    lines: &[Octets],
) -> Result<Vec<u8>, AllocError>
    requires { IsRunBy (seen debugger.old).world (map (λ r. r.book) registries.now) }
    ensures session { IfOk result (λ text. IsSession (seen debugger.old) (seen debugger.new) lines.now text.items) }
    ensures by { OnOk result (IsRunBy (seen debugger.new).world (map (λ r. r.book) registries.now)) }
{
    let mut text = Vec::new(alloc);
    'lines: for line in lines {
        reply_to(alloc, debugger, registries, line.as_slice(), &mut text)?;
    }
    Ok(text)
}

/// Lines whose commands are to be done.
#[derive(Drop)]
struct Batch<'a> {
    alloc: Global,
    debugger: Debugger,
    lines: &'a [Octets],
}

impl WithCalls for Batch<'_> {
    type Answer = Answered<Debugger>;

    ghost fits = { λ batch laws. IsRunBy (seen batch.debugger).world laws };

    ghost answers = { λ batch laws answered.
        IsSession (seen batch.debugger) (seen answered.answerer) batch.lines.now answered.text.items
        × IsRunBy (seen answered.answerer).world laws };

    fn run(self, registries: Vec<Registry>) -> Result<Answered<Debugger>, AllocError> {
        let Batch {
            alloc,
            mut debugger,
            lines,
        } = self;
        let text = reply_all(alloc, &mut debugger, &registries, lines)?;
        Ok(Answered {
            answerer: debugger,
            text,
        })
    }
}

/// A debugger, and how many registries its bench has. A job can't lend out what it reads from and writes to, so the
/// callbacks are made anew for each batch of lines.
#[derive(Drop)]
pub(crate) struct Session {
    pub(crate) alloc: Global,
    pub(crate) count: usize,
    pub(crate) debugger: Debugger,
}

impl Answerer for Session {
    ghost stands = { λ session. IsRunBy (seen session.debugger).world (replicate session.count all_laws) };

    ghost has_answered = { λ start now lines said. IsSession (seen start.debugger) (seen now.debugger) lines said };

    fn answer(self, lines: &[Octets]) -> Result<Answered<Session>, AllocError> {
        let Session {
            alloc,
            count,
            debugger,
        } = self;
        let batch = Batch {
            alloc,
            debugger,
            lines,
        };
        let Answered { answerer, text } = with_calls(alloc, count, batch)?;
        let session = Session {
            alloc,
            count,
            debugger: answerer,
        };
        Ok(Answered {
            answerer: session,
            text,
        })
    }
}
