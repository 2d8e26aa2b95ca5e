//! What a world shows: each look is a view of its log.
ghost use Rattle.std.specs.Prelude.{◌≡◌, ◌%◌, ◌+◌, ◌<◌, ◌≤◌, IfOk, IfSome, None, Some, length, map};
ghost use Rattle.std.specs.Prelude.{option_copied, option_map, slice_get};
ghost use Rattle.std.specs.Option.{option_and_then};
ghost use Rattle.acct_book.specs.Book.{Paged, totals_of};
ghost use Rattle.bench_item.specs.Keys.{home, number_at, shard_of};
ghost use Rattle.bench_item.specs.declared.limit.TheConstants.{MAX_MACHINES, MAX_SHARDS};
ghost use Rattle.bench_open.specs.Given.{opened_as};
ghost use Rattle.bench_shard.specs.View.{place_in};
ghost use Rattle.bench_core.specs.Inside.{IsShardCount};
ghost use Rattle.bench_spec.specs.Legal.{IsLegal};
ghost use Rattle.bench_spec.specs.Lines.{openings};
ghost use Rattle.bench_spec.specs.Machines.{key_numbered, number_of};
ghost use Rattle.bench_spec.specs.Settings.{table_of};
ghost use Rattle.bench_spec.specs.Taken.{shown};

use crate::fire::key_numbered;
use crate::keeping::Core;
use acct_book::Page;
use acct_totals::Totals;
use bench_item::{Key, LineState, MAX_MACHINES, Role, home};
use bench_log::Log;
use bench_open::Account;
use bench_shard::ShardState;
use std::alloc::AllocError;
use tab_law::LawBook;
use tab_step::MachineState;
use tab_text::Table;

/// The shard of a machine.
fn home_of<'a>(shards: &'a [ShardState], key: &Key) -> Option<&'a ShardState>
    requires { IsShardCount (length shards.now) }
    ensures { option_copied result ≡ slice_get shards.now (home (length shards.now) key.now.name) }
{
    shards.get(home(shards.len(), key))
}

/// Where a machine stands, if it is there.
fn state_in(shards: &[ShardState], key: &Key) -> Option<MachineState>
    requires { IsShardCount (length shards.now) }
    ensures { result ≡ option_and_then (λ v. option_and_then (slice_get v.states) (place_in v key.now))
        (slice_get shards.now (home (length shards.now) key.now.name)) }
{
    let Some(shard) = home_of(shards, key) else {
        return None;
    };
    match shard.seek(key) {
        None => None,
        Some(place) => shard.state(place),
    }
}

/// The number of the machine at a place of a shard.
fn number_at(shard: usize, place: usize) -> u64
    requires shard { shard ≤ MAX_SHARDS }
    requires place { place ≤ MAX_MACHINES }
    ensures { result ≡ number_at shard place }
{
    (shard * MAX_MACHINES + place) as u64
}

/// The number of a machine, if it is there.
fn number_in(shards: &[ShardState], key: &Key) -> Option<u64>
    requires { IsShardCount (length shards.now) }
    ensures { result
        ≡ option_and_then (λ v. option_map (number_at (home (length shards.now) key.now.name)) (place_in v key.now))
        (slice_get shards.now (home (length shards.now) key.now.name)) }
{
    let home = home(shards.len(), key);
    let Some(shard) = shards.get(home) else {
        return None;
    };
    let _within = shard.machines();
    match shard.seek(key) {
        None => None,
        Some(place) => Some(number_at(home, place)),
    }
}

/// What stands on an account, by its page of so many.
fn totals_in(pages: &[Page], count: u64, account: u64) -> Option<Totals>
    requires { 0 < count }
    ensures value { (page : Paged) → slice_get pages.now (account % count) ≡ Some page
        → result ≡ totals_of page.book account }
    ensures bound { IfSome result (λ t. t.reserved + t.debited ≤ t.given) }
{
    match pages.get((account % count) as usize) {
        None => None,
        Some(page) => page.totals(account),
    }
}

impl Core {
    /// The log is legal, whatever was done.
    pub fn known(&self)
        ensures { IsLegal self.now.settings self.now.log }
    {
        let _entries = self.log.len();
    }

    /// How many steps were taken and not taken back.
    pub fn place(&self) -> usize
        ensures { result ≡ length self.now.log }
    {
        self.log.len()
    }

    /// The entries of all steps that were taken and not taken back.
    pub fn log(&self) -> &Log
        ensures { result.now.entries ≡ self.now.log }
    {
        &self.log
    }

    /// How many shards there are: 1 to 16.
    pub fn shards(&self) -> usize
        ensures count { result ≡ self.now.settings.node.shards }
        ensures few { IsShardCount result }
    {
        self.shards.len()
    }

    /// How many pages the account book has: 1 at least.
    pub fn pages(&self) -> u64
        ensures count { result ≡ self.now.settings.pages }
        ensures some { 0 < result }
    {
        self.page_count
    }

    /// Whether a shard is paused, if it is there.
    pub fn is_paused(&self, shard: u32) -> Option<bool>
        ensures { result ≡ slice_get self.now.paused shard }
    {
        match self.shards.get(shard as usize) {
            None => None,
            Some(own) => Some(own.is_paused()),
        }
    }

    /// Where a machine stands, if it is there. Takes no memory.
    pub fn state_of(&self, key: &Key) -> Option<MachineState>
        ensures { result ≡ (shown self.now).machine_of key.now }
    {
        state_in(&self.shards, key)
    }

    /// The number of a machine, if it is there. Takes no memory.
    pub fn number_of(&self, key: &Key) -> Option<u64>
        ensures { result ≡ number_of self.now.settings.node self.now.log key.now }
    {
        number_in(&self.shards, key)
    }

    /// The machine of a number, if there is one.
    pub fn key(&self, machine: u64) -> Result<Option<Key>, AllocError>
        ensures there { IfOk result (λ key. shard_of machine < self.now.settings.node.shards
            → key ≡ key_numbered self.now.settings.node self.now.log machine) }
        ensures none { IfOk result (λ key. self.now.settings.node.shards ≤ shard_of machine → key ≡ None) }
    {
        key_numbered(self.alloc, &self.shards, machine)
    }

    /// How many connections were opened: they have the numbers from 1 on.
    pub fn lines(&self) -> usize
        ensures { result ≡ length (openings self.now.log) }
    {
        self.lines.count()
    }

    /// Where a connection stands, if it is there. Takes no memory.
    pub fn line(&self, line: u32) -> Option<LineState>
        ensures { result ≡ (shown self.now).line_of line }
    {
        self.lines.state(line as u64)
    }

    /// All that a connection has sent, in octets. Takes no memory.
    pub fn sent(&self, line: u32) -> &[u8]
        ensures { result.now ≡ (shown self.now).sent_of line }
    {
        self.lines.sent(line as u64)
    }

    /// The generation with which a machine's timer is armed, if it is. Takes no memory.
    pub fn timer(&self, machine: u64) -> Option<u64>
        ensures { result ≡ (shown self.now).timer_of machine }
    {
        match self.wheel.armed(machine) {
            None => None,
            Some(timer) => Some(timer.generation),
        }
    }

    /// What stands on an account, if it is there: reserved and debited are never more than given. Takes no memory.
    pub fn totals(&self, account: u64) -> Option<Totals>
        ensures value { result ≡ (shown self.now).totals_at account }
        ensures bound { IfSome result (λ t. t.reserved + t.debited ≤ t.given) }
    {
        totals_in(&self.pages, self.page_count, account)
    }

    /// The accounts that the world was opened with. Takes no memory.
    pub fn accounts(&self) -> &[Account]
        ensures { map opened_as result.now ≡ self.now.settings.accounts }
    {
        &self.accounts
    }

    /// The table of a role. Takes no memory.
    pub fn table(&self, role: Role) -> &Table
        ensures { result.now ≡ table_of self.now.settings role }
    {
        self.roles.table(role)
    }

    /// The laws, and the kinds of events.
    pub fn laws(&self) -> &LawBook
        ensures { result.now ≡ self.now.settings.node.laws }
    {
        self.roles.laws()
    }
}
