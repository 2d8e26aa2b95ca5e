//! The entries of a log, counted.
ghost use Rattle.std.specs.Prelude.{◌≡◌, ◌+◌, OnOk, drop};
ghost use Rattle.live_stats.specs.Tallies.{noted_all};

use crate::stats::Stats;
use bench_log::Log;
use std::alloc::{AllocError, Global};

impl Stats {
    // Counts the entry at a place; what is to be counted behind it then leads to the same as before.
    fn note_at(
        &mut self,
        alloc: Global,
        log: &Log,
        at: usize,
        moment: u64,
    ) -> Result<(), AllocError>
        ensures { OnOk result (noted_all self.new moment (drop (at + 1) log.now.entries)
            ≡ noted_all self.old moment (drop at log.now.entries)) }
    {
        match log.entry(at, alloc)? {
            Some(entry) => self.note(moment, &entry),
            None => Ok(()),
        }
    }

    /// Counts the entries of a log from a place on, as added at a moment, in microseconds. Each is read once.
    /// Where memory is refused, some of them are counted.
    #[tactic(auto, using(crate::proofs::LogLemmas::noted_end))]
    pub fn note_from(
        &mut self,
        alloc: Global,
        log: &Log,
        place: usize,
        moment: u64,
    ) -> Result<(), AllocError>
        ensures { OnOk result (self.new ≡ noted_all self.old moment (drop place log.now.entries)) }
    {
        'entries: for at in place..log.len() {
            self.note_at(alloc, log, at, moment)?;
        }
        Ok(())
    }
}
