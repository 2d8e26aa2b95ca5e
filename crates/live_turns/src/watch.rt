//! What an operator is told each second of a node that lives.
ghost use Rattle.std.specs.Prelude.{◌≡◌, ◌++◌, ◌<◌, ◌/◌, ◌^◌, IfOk, OnOk, codes, drop, length, nat_lt};
ghost use Rattle.bench_item.specs.declared.key.Role.TheVariants.{Peer};
ghost use Rattle.bench_spec.specs.Settings.{table_of};
ghost use Rattle.live_turns.specs.Watched.{debited_at, debited_on, reserved_at, reserved_on, sums_of, sums_over};
ghost use Rattle.live_turns.specs.declared.watch.TheConstants.{SECOND};
ghost use Rattle.live_stats.specs.Lines.{line_text};
ghost use Rattle.live_stats.specs.Tallies.{began_with, next_second, noted_all};
ghost use Rattle.step_text.specs.Names.{shown};

use acct_totals::Totals;
use bench_core::Core;
use bench_item::Role;
use bench_open::Account;
use live_report::put_host;
use live_stats::{Stats, Sums};
use std::alloc::{AllocError, Global};
use std::io::Write;

/// A second in microseconds.
pub const SECOND: u64 = 1_000_000;

/// What is counted of a node's log, and how far.
pub struct Watch {
    // What each line begins with.
    title: Vec<u8>,
    stats: Stats,
    // So many entries of the log were counted.
    seen: usize,
    // The second of the last line.
    second: u64,
}

impl Drop for Watch {
    fn drop(self) {
        let Watch {
            title,
            stats,
            seen: _,
            second: _,
        } = self;
    }
}

/// What stands on an account, if it is there.
fn sums_on(totals: Option<Totals>) -> Sums
    ensures reserved { result.reserved ≡ reserved_on totals }
    ensures debited { result.debited ≡ debited_on totals }
    ensures few { result.reserved < 2 ^ 64 }
    ensures small { result.debited < 2 ^ 64 }
{
    match totals {
        Some(totals) => Sums {
            reserved: u128::from(totals.reserved),
            debited: u128::from(totals.debited),
        },
        None => Sums {
            reserved: 0,
            debited: 0,
        },
    }
}

/// What stands on the account of a number.
#[tactic(auto, unfolding(crate::specs::Watched::reserved_at, crate::specs::Watched::debited_at))]
fn sums_at(core: &Core, id: u64) -> Sums
    ensures reserved { result.reserved ≡ reserved_at core.now id }
    ensures debited { result.debited ≡ debited_at core.now id }
    ensures few { result.reserved < 2 ^ 64 }
    ensures small { result.debited < 2 ^ 64 }
{
    sums_on(core.totals(id))
}

/// What stands on some accounts together.
fn sums_over(core: &Core, accounts: &[Account]) -> Sums
    ensures { result ≡ sums_over core.now accounts.now }
{
    let mut reserved = 0u128;
    let mut debited = 0u128;
    for account in accounts {
        let one = sums_at(core, account.id);
        reserved += one.reserved;
        debited += one.debited;
    }
    Sums { reserved, debited }
}

/// What stands on all accounts together. There are at most 8,192.
fn sums_of(core: &Core) -> Sums
    ensures { result ≡ sums_of core.now }
{
    sums_over(core, core.accounts())
}

impl Watch {
    /// Nothing counted of a node, whose peers all stand in their first state.
    pub fn new(alloc: Global, host: &[u8], core: &Core, peers: usize) -> Result<Watch, AllocError>
        ensures title { IfOk result (λ watch. watch.title.items ≡ codes "stats " ++ shown host.now ++ codes " ") }
        ensures stats { IfOk result (λ watch. watch.stats
            ≡ began_with (table_of core.now.settings Peer).states peers 0) }
        ensures none { IfOk result (λ watch. (watch.seen ≡ 0) × (watch.second ≡ 0)) }
    {
        let mut title = Vec::from_slice(alloc, b"stats ")?;
        put_host(&mut title, host)?;
        title.extend_from_slice(b" ")?;
        let states = core.table(Role::Peer).states().as_slice();
        Ok(Watch {
            title,
            stats: Stats::new(alloc, states, peers as u64, 0)?,
            seen: 0,
            second: 0,
        })
    }

    /// Counts the entries that were added to the log since the last look, as of a moment in microseconds.
    pub(crate) fn look(&mut self, alloc: Global, core: &Core, moment: u64) -> Result<(), AllocError>
        ensures counted { OnOk result (self.new.stats
            ≡ noted_all self.old.stats moment (drop self.old.seen core.now.log)) }
        ensures seen { OnOk result (self.new.seen ≡ length core.now.log) }
    {
        self.stats.note_from(alloc, core.log(), self.seen, moment)?;
        self.seen = core.place();
        Ok(())
    }

    /// Whether the second of a moment is a later one than that of the last line.
    pub(crate) fn is_due(&self, moment: u64) -> bool
        ensures { result ≡ nat_lt self.now.second (moment / SECOND) }
    {
        moment / SECOND > self.second
    }

    /// The line of a moment, and its end; all is counted anew from there on.
    fn line(&mut self, alloc: Global, core: &Core, moment: u64) -> Result<Vec<u8>, AllocError>
        ensures text { IfOk result (λ text. text.items
            ≡ self.old.title.items ++ line_text self.old.stats moment (sums_of core.now)) }
        ensures next { OnOk result (self.new.stats ≡ next_second self.old.stats moment) }
    {
        let mut text = Vec::from_slice(alloc, &self.title)?;
        self.stats.put_line(&mut text, moment, sums_of(core))?;
        Ok(text)
    }

    /// Writes the line of a moment. What can't be written isn't.
    pub(crate) fn tell<W: Write>(
        &mut self,
        alloc: Global,
        core: &Core,
        moment: u64,
        terminal: &mut W,
    ) -> Result<(), AllocError>
        ensures next { OnOk result (self.new.stats ≡ next_second self.old.stats moment) }
        ensures second { OnOk result (self.new.second ≡ moment / SECOND) }
    {
        let text = self.line(alloc, core, moment)?;
        let _told = terminal.write_all(&text);
        self.second = moment / SECOND;
        Ok(())
    }
}
