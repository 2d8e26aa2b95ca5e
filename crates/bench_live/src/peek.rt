//! What is looked at of a running bench, of which nothing is kept.
ghost use Rattle.std.specs.Prelude.{◌≡◌, ◌≤◌, ◌+◌, IfSome, None, slice_get};
ghost use Rattle.std.specs.Option.{option_and_then};
ghost use Rattle.bench_shard.specs.View.{place_in};

use crate::shared::Shared;
use acct_totals::Totals;
use base_lock::hold;
use bench_desk::ShardPart;
use bench_item::{Key, LineState, MAX_SHARDS, home};
use live_parts::LinesPart;
use std::sync::Wait;
use std::sync::atomic::Ordering;
use tab_step::MachineState;

/// Where a machine of a shard, whose lock is held, stands, if it is there.
fn state_under(part: &ShardPart, key: &Key) -> Option<MachineState>
    ensures { result ≡ option_and_then (slice_get part.now.shard.states) (place_in part.now.shard key.now) }
{
    match part.shard().seek(key) {
        None => None,
        Some(place) => part.shard().state(place),
    }
}

/// Whether a connection sent more than so many octets, or is closed.
fn has_news(lines: &LinesPart, line: u64, drawn: usize) -> bool {
    let mut next = [0u8];
    lines.lines().unsent(line, drawn, &mut next) > 0
        || matches!(lines.lines().state(line), Some(LineState::Closed))
}

/// The same of each connection, from 1 on, by what was drawn of it, as far as the marks reach; and how many there are.
fn survey_under(lines: &LinesPart, drawn: &[Vec<u8>], marks: &mut [bool]) -> usize {
    let count = lines.lines().count();
    for place in 0..count.min(marks.len()) {
        let from = match drawn.get(place) {
            None => 0,
            Some(text) => text.len(),
        };
        marks[place] = has_news(lines, place as u64 + 1, from);
    }
    count
}

impl Shared {
    /// Where a machine stands, if it is there, under the lock of its shard.
    pub fn state_of<R: Wait>(&self, rt: &R, key: &Key) -> Option<MachineState> {
        let count = self.shards.len();
        if count == 0 || count > MAX_SHARDS {
            return None;
        }
        let shard = self.shards.get(home(count, key))?;
        let slot = hold(rt, &shard.slot);
        state_under(&slot.part, key)
    }

    /// Whether an item of a desk waits in the shard of a machine, under its lock.
    pub fn has_waiting<R: Wait>(&self, rt: &R, desk: u32, key: &Key) -> bool {
        let count = self.shards.len();
        if count == 0 || count > MAX_SHARDS {
            return false;
        }
        match self.shards.get(home(count, key)) {
            Some(shard) => hold(rt, &shard.slot).part.has_waiting(desk),
            None => false,
        }
    }

    /// Says for each connection, from 1 on, whether it sent more than stands in `drawn`, or is closed, as far as
    /// `marks` reach; and how many connections there are.
    pub fn survey<R: Wait>(&self, rt: &R, drawn: &[Vec<u8>], marks: &mut [bool]) -> usize {
        let lines = hold(rt, &self.lines);
        survey_under(&lines, drawn, marks)
    }

    /// How many stamps were drawn: no fewer than there are entries.
    pub fn drawn(&self) -> u64 {
        self.stamps.load(Ordering::SeqCst)
    }

    /// How many entries its parts have, but for those of desks: each part is counted under its lock, one by one.
    pub fn entries<R: Wait>(&self, rt: &R) -> usize {
        let mut count: usize = 0;
        for shard in &self.shards {
            let own = hold(rt, &shard.slot).part.len();
            count = count.saturating_add(own);
        }
        let lines = hold(rt, &self.lines).len();
        let clock = self.clock.lock(rt).part.len();
        count.saturating_add(lines).saturating_add(clock)
    }

    /// The sums of an account, if it is open, under the lock of its page: no more is reserved and debited than was
    /// given.
    pub fn totals<R: Wait>(&self, rt: &R, account: u64) -> Option<Totals>
        ensures never_over { IfSome result (λ t. t.reserved + t.debited ≤ t.given) }
        ensures zero { account ≡ 0 → result ≡ None }
    {
        let page = self.pages.lock(rt, self.pages.page_of(account));
        page.totals(account)
    }
}
