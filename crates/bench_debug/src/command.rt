//! A command, read and done.
ghost use Rattle.std.specs.Prelude.{◌≡◌, IfNone, IfOk, IfSome, Some, false, map, true};
ghost use Rattle.bench_item.specs.declared.entry.Moved.{Moved as OneMove};
ghost use Rattle.bench_script.specs.Ran.{IsRunBy};
ghost use Rattle.bench_spec.specs.Refusal.{is_line};
ghost use Rattle.bench_show.specs.History.{move_in};
ghost use Rattle.bench_show.specs.Why.{why_text};

use crate::books::tables_in;
use crate::debugger::Debugger;
use base_list::Octets;
use bench_item::{Entry, Key, Role};
use bench_script::line_count;
use bench_show::{
    last_move, put_accounts, put_history, put_line_states, put_queues, put_timers, put_why,
};
use debug_text::{Command, CommandFault, Reply, read_command};
use sent_text::put_messages;
use std::alloc::AllocError;
use tab_call::Registry;
use tab_print::print_row;

impl Debugger {
    ghost use Rattle.bench_debug.specs.Debug.{Answers, Commands, Does, Whys};
    ghost use Rattle.bench_debug.specs.Seen.{seen};
    ghost use Rattle.debug_text.specs.declared.command.Command.TheVariants.{Accounts, Back, History, Lines, ListRow};
    ghost use Rattle.debug_text.specs.declared.command.Command.TheVariants.{Queues, Sent, Show};
    ghost use Rattle.debug_text.specs.declared.command.Command.TheVariants.{Timers, TotalsOf, Where};

    /// `back`
    fn back(&mut self) -> Result<Reply, CommandFault>
        ensures { Answers (seen self.old) (seen self.new) Back result }
    {
        if self.undo() {
            Ok(Reply::At(self.place()))
        } else {
            Err(CommandFault::AtStart)
        }
    }

    /// `show KEY`
    fn show(&self, key: Key) -> Result<Reply, CommandFault>
        ensures { Answers (seen self.now) (seen self.now) (Show key) result }
    {
        match self.core.state_of(&key) {
            Some(state) => Ok(Reply::Stands { key, state }),
            None => Err(CommandFault::NoSuchMachine),
        }
    }

    /// `list ROLE R`
    fn list_row(&self, role: Role, row: u64) -> Result<Reply, CommandFault>
        ensures { Answers (seen self.now) (seen self.now) (ListRow role row) result }
    {
        let table = self.core.table(role);
        if table.rows().len() as u64 <= row {
            return Err(CommandFault::NoSuchRow);
        }
        match print_row(self.alloc, table, row as usize) {
            Ok(Some(line)) => Ok(Reply::Text(Octets::new(line))),
            Ok(None) => unreachable!(),
            Err(_) => Err(CommandFault::NoMemory),
        }
    }

    /// `history KEY`
    fn history(&self, key: &Key) -> Result<Reply, CommandFault>
        ensures { Answers (seen self.now) (seen self.now) (History key.now) result }
    {
        if self.core.state_of(key).is_none() {
            return Err(CommandFault::NoSuchMachine);
        }
        let mut text = Vec::new(self.alloc);
        match put_history(self.alloc, &mut text, &self.core, key) {
            Ok(()) => Ok(Reply::Text(Octets::new(text))),
            Err(_) => Err(CommandFault::NoMemory),
        }
    }

    /// The text of the move in an entry.
    fn why_text(&self, key: &Key, number: u64, entry: &Entry) -> Result<Octets, AllocError>
        ensures { IfOk result (λ text. (moved : OneMove) → move_in key.now entry.now ≡ Some moved
            → text ≡ why_text self.now.core key.now (number, entry.now) moved) }
    {
        let mut text = Vec::new(self.alloc);
        put_why(self.alloc, &mut text, &self.core, key, number, entry)?;
        Ok(Octets::new(text))
    }

    /// `why KEY`
    fn why(&self, key: &Key) -> Result<Reply, CommandFault>
        ensures { Whys (seen self.now) (seen self.now) key.now result }
    {
        match last_move(self.alloc, &self.core, key) {
            Ok(Some((number, entry))) => match self.why_text(key, number, &entry) {
                Ok(text) => Ok(Reply::Text(text)),
                Err(_) => Err(CommandFault::NoMemory),
            },
            Ok(None) => Err(CommandFault::NoSuchMachine),
            Err(_) => Err(CommandFault::NoMemory),
        }
    }

    /// `lines`
    fn lines(&self) -> Result<Reply, CommandFault>
        ensures { Answers (seen self.now) (seen self.now) Lines result }
    {
        let mut text = Vec::new(self.alloc);
        match put_line_states(&mut text, &self.core) {
            Ok(()) => Ok(Reply::Text(Octets::new(text))),
            Err(_) => Err(CommandFault::NoMemory),
        }
    }

    /// `queues`
    fn queues(&self) -> Result<Reply, CommandFault>
        ensures { Answers (seen self.now) (seen self.now) Queues result }
    {
        let mut text = Vec::new(self.alloc);
        match put_queues(&mut text, &self.core) {
            Ok(()) => Ok(Reply::Text(Octets::new(text))),
            Err(_) => Err(CommandFault::NoMemory),
        }
    }

    /// `timers`
    fn timers(&self) -> Result<Reply, CommandFault>
        ensures { Answers (seen self.now) (seen self.now) Timers result }
    {
        let mut text = Vec::new(self.alloc);
        match put_timers(&mut text, &self.core) {
            Ok(()) => Ok(Reply::Text(Octets::new(text))),
            Err(_) => Err(CommandFault::NoMemory),
        }
    }

    /// The number of a connection, if it is there.
    fn line_numbered(&self, line: u64) -> Option<u32>
        ensures there { IfSome result (λ n. (n ≡ line) × (is_line self.now.core.log line ≡ true)) }
        ensures none { IfNone result (is_line self.now.core.log line ≡ false) }
    {
        if line > 0 && line <= u64::from(line_count(&self.core)) {
            Some(line as u32)
        } else {
            None
        }
    }

    /// `sent L`
    fn sent(&self, line: u64) -> Result<Reply, CommandFault>
        ensures { Answers (seen self.now) (seen self.now) (Sent line) result }
    {
        let Some(line) = self.line_numbered(line) else {
            return Err(CommandFault::BadNumber);
        };
        let mut text = Vec::new(self.alloc);
        match put_messages(&mut text, self.core.sent(line)) {
            Ok(()) => Ok(Reply::Text(Octets::new(text))),
            Err(_) => Err(CommandFault::NoMemory),
        }
    }

    /// `totals ACCOUNT`
    fn totals(&self, account: u64) -> Result<Reply, CommandFault>
        ensures { Answers (seen self.now) (seen self.now) (TotalsOf account) result }
    {
        match self.core.totals(account) {
            Some(totals) => Ok(Reply::AreTotals(totals)),
            None => Err(CommandFault::NoSuchAccount),
        }
    }

    /// `accounts`
    fn accounts(&self) -> Result<Reply, CommandFault>
        ensures { Answers (seen self.now) (seen self.now) Accounts result }
    {
        let mut text = Vec::new(self.alloc);
        match put_accounts(&mut text, &self.core) {
            Ok(()) => Ok(Reply::Text(Octets::new(text))),
            Err(_) => Err(CommandFault::NoMemory),
        }
    }

    /// `where`
    fn place_and_script(&self) -> Reply
        ensures { Answers (seen self.now) (seen self.now) Where (Ok result) }
    {
        Reply::IsAt {
            place: self.place(),
            next: self.progress.next as u64,
            last: self.progress.script.len() as u64,
        }
    }

    /// Does a command that was read.
    fn run(&mut self, registries: &[Registry], command: Command) -> Result<Reply, CommandFault>
        requires { IsRunBy self.old.core (map (λ r. r.book) registries.now) }
        ensures { Commands (seen self.old) (seen self.new) command result }
    {
        match command {
            Command::Step => self.step(registries),
            Command::Back => self.back(),
            Command::Go => self.go(registries),
            Command::ReverseGo => self.go_back(),
            Command::Goto(place) => self.go_to(registries, place),
            Command::Break(breakpoint) => self.set_breakpoint(breakpoint),
            Command::Clear(number) => self.clear(number),
            Command::Show(key) => self.show(key),
            Command::ListRow { role, row } => self.list_row(role, row),
            Command::History(key) => self.history(&key),
            Command::Why(key) => self.why(&key),
            Command::Queues => self.queues(),
            Command::Timers => self.timers(),
            Command::Lines => self.lines(),
            Command::Sent(line) => self.sent(line),
            Command::TotalsOf(account) => self.totals(account),
            Command::Accounts => self.accounts(),
            Command::Where => Ok(self.place_and_script()),
            Command::Help => Ok(Reply::Help),
        }
    }

    /// Reads a command and does it. The registries are those that the bench was opened with.
    pub fn command(&mut self, registries: &[Registry], line: &[u8]) -> Result<Reply, CommandFault>
        requires { IsRunBy self.old.core (map (λ r. r.book) registries.now) }
        ensures does { Does (seen self.old) (seen self.new) line.now result }
        ensures by { IsRunBy self.new.core (map (λ r. r.book) registries.now) }
    {
        match read_command(self.alloc, &tables_in(&self.core), line) {
            Ok(command) => self.run(registries, command),
            Err(fault) => Err(fault),
        }
    }
}
