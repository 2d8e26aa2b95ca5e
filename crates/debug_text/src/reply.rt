//! Replies.

use acct_totals::Totals;
use base_list::Octets;
use bench_item::Key;
use tab_step::MachineState;

/// What a debugger replies. `put_reply` prints it.
#[derive(Drop)]
pub enum Reply {
    /// A text: entries, rows of tables, timers, connections, accounts.
    Text(Octets),
    /// `step`, past the end of the script.
    End,
    /// The place to which steps were taken back: how many are taken.
    At(u64),
    /// The place where a breakpoint was met, and its number.
    StoppedAt { place: u64, number: u64 },
    /// The place where the script ended.
    EndAt(u64),
    /// The number of a breakpoint that was set.
    WasSet(u64),
    /// The number of one that was cleared.
    WasCleared(u64),
    /// Where a machine stands.
    Stands { key: Key, state: MachineState },
    /// What stands on an account.
    AreTotals(Totals),
    /// The place, the place in the script of its next step, and how many the script has.
    IsAt { place: u64, next: u64, last: u64 },
    /// What each command is for.
    Help,
}
