//! Requests of one direction, their answers, and the times between.
ghost use Rattle.std.specs.Prelude.{◌≡◌, OnErr, OnOk, IfOk, nat_eq, replicate};
ghost use Rattle.std.specs.Map.{lookup};
ghost use Rattle.indexmap.specs.IndexMap.{swap_remove_entry};
ghost use Rattle.live_stats.specs.Exchanges.{answered, answers_with, at_rest, no_exchange, others_with, requested};
ghost use Rattle.live_stats.specs.Exchanges.{timed, waiting_with};

use base_times::{Times, clear, count_at, more};
use indexmap::IndexMap;
use std::alloc::{AllocError, Global};
use std::marker::Model;

/// Result-Codes from here on are counted together; the standards have none of them (RFC 6733 section 7.1).
pub const CODES: usize = 6_000;

/// The most requests that wait for their answers with their moments. Where one more comes, all of these are forgotten:
/// their answers are counted, and no times.
pub const MAX_UNANSWERED: usize = 65_536;

/// Requests of one direction, and their answers, which go the other way. A contract sees an `Exchange`.
pub(crate) struct Flow {
    pub(crate) requests: u64,
    // How many answers have each Result-Code.
    pub(crate) answers: Vec<u64>,
    // How many have one from CODES on.
    pub(crate) others: u64,
    // The moment of each request that has no answer yet, by its connection and its Hop-by-Hop Identifier.
    pub(crate) waiting: IndexMap<u64, u64>,
    pub(crate) times: Times,
}

// A derived `drop` is proved anew where a flow is held; this one is a call.
impl Drop for Flow {
    fn drop(self) {
        let Flow {
            requests: _,
            answers,
            others: _,
            waiting,
            times,
        } = self;
    }
}

impl Model for Flow {
    ghost use Rattle.std.specs.Prelude.{◌≡◌, vec_len};
    ghost use Rattle.live_stats.specs.declared.flow.TheConstants.{CODES};
    ghost use Rattle.live_stats.specs.Exchanges.{Exchange};

    ghost Value = { Exchange };

    ghost view = { λ f. record {
      requests = f.requests;
      answers = f.answers.items;
      others = f.others;
      waiting = f.waiting.entries;
      times = f.times;
    } };

    ghost invariant = { λ f. vec_len f.answers ≡ CODES };
}

/// So many counters at 0.
pub(crate) fn zeros(alloc: Global, len: usize) -> Result<Vec<u64>, AllocError>
    ensures { IfOk result (λ zeros. zeros.items ≡ replicate len 0) }
{
    vec![in alloc; 0; len]
}

/// A request waits from a moment on.
fn wait(waiting: &mut IndexMap<u64, u64>, key: u64, moment: u64) -> Result<(), AllocError>
    ensures ok { OnOk result (waiting.new.entries ≡ waiting_with waiting.old.entries key moment) }
    ensures err { OnErr result (waiting.new.entries ≡ waiting.old.entries) }
{
    if waiting.len() >= MAX_UNANSWERED {
        waiting.clear();
    }
    waiting.insert(key, moment)?;
    Ok(())
}

/// The moment of a request, which waits no longer; none where it did not.
fn taken(waiting: &mut IndexMap<u64, u64>, key: u64) -> Option<u64>
    ensures moment { result ≡ lookup (nat_eq key) waiting.old.entries }
    ensures left { waiting.new.entries ≡ swap_remove_entry (nat_eq key) waiting.old.entries }
{
    waiting.swap_remove(&key)
}

/// Counts the time from a moment on, if there is one.
fn time(times: &mut Times, from: Option<u64>, moment: u64)
    ensures { times.new ≡ timed times.old from moment }
{
    if let Some(from) = from {
        times.note(moment.saturating_sub(from));
    }
}

impl Flow {
    /// No requests.
    pub(crate) fn new(alloc: Global) -> Result<Flow, AllocError>
        ensures { IfOk result (λ flow. flow ≡ no_exchange) }
    {
        Ok(Flow {
            requests: 0,
            answers: zeros(alloc, CODES)?,
            others: 0,
            waiting: IndexMap::new(alloc),
            times: Times::new(alloc)?,
        })
    }

    /// A request was made at a moment.
    pub(crate) fn request(&mut self, key: u64, moment: u64) -> Result<(), AllocError>
        ensures ok { OnOk result (self.new ≡ requested self.old key moment) }
        ensures err { OnErr result (self.new ≡ self.old) }
    {
        wait(&mut self.waiting, key, moment)?;
        self.requests = more(self.requests);
        Ok(())
    }

    // Counts an answer by its Result-Code.
    fn count(&mut self, code: u64)
        ensures { self.new ≡ record self.old {
          answers = answers_with self.old.answers code;
          others = others_with self.old.others code;
        } }
    {
        if code < CODES as u64 {
            count_at(&mut self.answers, code as usize);
        } else {
            self.others = more(self.others);
        }
    }

    /// An answer was made at a moment.
    pub(crate) fn answer(&mut self, key: u64, code: u64, moment: u64)
        ensures { self.new ≡ answered self.old key code moment }
    {
        self.count(code);
        let from = taken(&mut self.waiting, key);
        time(&mut self.times, from, moment);
    }

    /// Counts anew; what waits goes on waiting.
    pub(crate) fn rest(&mut self)
        ensures { self.new ≡ at_rest self.old }
    {
        self.requests = 0;
        clear(&mut self.answers);
        self.others = 0;
        self.times.clear();
    }
}
