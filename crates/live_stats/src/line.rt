//! The text of a line.
ghost use Rattle.std.specs.Prelude.{◌≡◌, ◌++◌, OnErr, OnOk, decimal, slice_get};
ghost use Rattle.live_stats.specs.Lines.{answers_text, code_text, codes_text, counts_text, flow_text, line_text};
ghost use Rattle.live_stats.specs.Lines.{name_of, numbers_text, others_text};
ghost use Rattle.live_stats.specs.Tallies.{next_second};
ghost use Rattle.live_stats.specs.Lines.{percentile_text, rate_of, standing_text, state_text, states_text};

use crate::flow::Flow;
use crate::stats::{Stats, Sums};
use base_list::Octets;
use base_text::put_number;
use itoa::Buffer;
use std::alloc::AllocError;

/// Puts a label and a number of up to 128 bits.
fn put_large(out: &mut Vec<u8>, label: &[u8], number: u128) -> Result<(), AllocError>
    ensures { OnOk result (out.new.items ≡ out.old.items ++ label.now ++ decimal number) }
{
    let mut digits = Buffer::new();
    out.extend_from_slice(label)?;
    out.extend_from_slice(digits.format(number).as_bytes())
}

/// Puts a number behind its side and its name.
fn put_named(out: &mut Vec<u8>, side: &[u8], name: &[u8], number: u64) -> Result<(), AllocError>
    ensures { OnOk result (out.new.items ≡ out.old.items ++ side.now ++ name.now ++ decimal number) }
{
    out.extend_from_slice(side)?;
    put_number(out, name, number)
}

/// How many a second so many are in so many microseconds; a span of none counts as one.
fn rate_of(count: u64, micros: u64) -> u64
    ensures { result ≡ rate_of count micros }
{
    let rate = u128::from(count) * 1_000_000 / u128::from(micros.max(1));
    rate.min(u128::from(u64::MAX)) as u64
}

/// Puts a percentile of times, `-` where there are none.
fn put_percentile(
    out: &mut Vec<u8>,
    side: &[u8],
    name: &[u8],
    time: Option<u64>,
) -> Result<(), AllocError>
    ensures { OnOk result (out.new.items ≡ out.old.items ++ percentile_text side.now name.now time) }
{
    out.extend_from_slice(side)?;
    match time {
        Some(time) => put_number(out, name, time),
        None => {
            out.extend_from_slice(name)?;
            out.extend_from_slice(b"-")
        }
    }
}

/// Puts what is counted of the requests of one direction.
#[tactic(auto, unfolding(crate::specs::Lines::flow_text))]
fn put_flow(out: &mut Vec<u8>, side: &[u8], flow: &Flow, micros: u64) -> Result<(), AllocError>
    ensures { OnOk result (out.new.items ≡ out.old.items ++ flow_text side.now flow.now micros) }
{
    put_named(out, side, b"requests ", flow.requests)?;
    put_named(out, side, b"rate ", rate_of(flow.requests, micros))?;
    put_named(out, side, b"waiting ", flow.waiting.len() as u64)?;
    put_percentile(out, side, b"median ", flow.times.percentile(50))?;
    put_percentile(out, side, b"99th ", flow.times.percentile(99))
}

/// Puts how many answers have a Result-Code, where some have.
#[tactic(auto, unfolding(crate::specs::Lines::code_text))]
fn put_code(out: &mut Vec<u8>, side: &[u8], code: usize, count: u64) -> Result<(), AllocError>
    ensures { OnOk result (out.new.items ≡ out.old.items ++ code_text side.now code count) }
{
    if count == 0 {
        return Ok(());
    }
    put_named(out, side, b"", code as u64)?;
    put_number(out, b" ", count)
}

/// Puts how many answers have each Result-Code that some have.
fn put_codes(out: &mut Vec<u8>, side: &[u8], counts: &[u64]) -> Result<(), AllocError>
    ensures { OnOk result (out.new.items ≡ out.old.items ++ codes_text side.now counts.now) }
{
    'codes: for code in 0..counts.len() {
        put_code(out, side, code, counts[code])?;
    }
    Ok(())
}

/// Puts how many answers have other Result-Codes, where some have.
fn put_others(out: &mut Vec<u8>, side: &[u8], count: u64) -> Result<(), AllocError>
    ensures { OnOk result (out.new.items ≡ out.old.items ++ others_text side.now count) }
{
    if count == 0 {
        return Ok(());
    }
    put_named(out, side, b"other ", count)
}

/// Puts how many answers have which Result-Code.
#[tactic(auto, unfolding(crate::specs::Lines::answers_text))]
fn put_answers(out: &mut Vec<u8>, side: &[u8], flow: &Flow) -> Result<(), AllocError>
    ensures { OnOk result (out.new.items ≡ out.old.items ++ answers_text side.now flow.now) }
{
    put_codes(out, side, &flow.answers)?;
    put_others(out, side, flow.others)
}

/// Puts the name of a state, where there is one.
fn put_name(out: &mut Vec<u8>, states: &[Octets], state: usize) -> Result<(), AllocError>
    ensures { OnOk result (out.new.items ≡ out.old.items ++ name_of (slice_get states.now state)) }
{
    match states.get(state) {
        Some(name) => out.extend_from_slice(name.as_slice()),
        None => Ok(()),
    }
}

/// Puts how many peers stand in a state, where some do.
#[tactic(auto, unfolding(crate::specs::Lines::state_text))]
fn put_state(
    out: &mut Vec<u8>,
    states: &[Octets],
    state: usize,
    count: u64,
) -> Result<(), AllocError>
    ensures { OnOk result (out.new.items ≡ out.old.items ++ state_text states.now state count) }
{
    if count == 0 {
        return Ok(());
    }
    out.extend_from_slice(b" peers.")?;
    put_name(out, states, state)?;
    put_number(out, b" ", count)
}

/// Puts how many peers stand in each state in which some do.
fn put_states(out: &mut Vec<u8>, states: &[Octets], counts: &[u64]) -> Result<(), AllocError>
    ensures { OnOk result (out.new.items ≡ out.old.items ++ states_text states.now counts.now) }
{
    'states: for state in 0..counts.len() {
        put_state(out, states, state, counts[state])?;
    }
    Ok(())
}

/// Puts the second, the open sessions, and what stands on all accounts together.
#[tactic(auto, unfolding(crate::specs::Lines::standing_text))]
fn put_standing(out: &mut Vec<u8>, sessions: u64, moment: u64, sums: Sums) -> Result<(), AllocError>
    ensures { OnOk result (out.new.items ≡ out.old.items ++ standing_text sessions moment sums) }
{
    put_number(out, b"second ", moment / 1_000_000)?;
    put_number(out, b" sessions ", sessions)?;
    put_large(out, b" reserved ", sums.reserved)?;
    put_large(out, b" debited ", sums.debited)
}

impl Stats {
    // Puts the numbers that each line has, which stand in the same places.
    fn put_numbers(&self, out: &mut Vec<u8>, moment: u64, sums: Sums) -> Result<(), AllocError>
        ensures { OnOk result (out.new.items ≡ out.old.items ++ numbers_text self.now moment sums) }
    {
        let micros = moment.saturating_sub(self.began);
        put_standing(out, self.sessions, moment, sums)?;
        put_flow(out, b" in.", &self.inward, micros)?;
        put_flow(out, b" out.", &self.outward, micros)
    }

    // Puts what a line has only where it isn't 0.
    fn put_counts(&self, out: &mut Vec<u8>) -> Result<(), AllocError>
        ensures { OnOk result (out.new.items ≡ out.old.items ++ counts_text self.now) }
    {
        put_states(out, &self.states, &self.peers)?;
        put_answers(out, b" in.", &self.inward)?;
        put_answers(out, b" out.", &self.outward)?;
        out.extend_from_slice(b"\n")
    }

    // Counts anew from a moment on.
    fn begin(&mut self, moment: u64)
        ensures { self.new ≡ next_second self.old moment }
    {
        self.inward.rest();
        self.outward.rest();
        self.began = moment;
    }

    /// Puts the line of a moment, in microseconds, behind what `out` holds, and counts anew from there on: requests,
    /// answers and times are those since the last line. Where machines stand, and which requests wait, is kept.
    pub fn put_line(&mut self, out: &mut Vec<u8>, moment: u64, sums: Sums) -> Result<(), AllocError>
        ensures text { OnOk result (out.new.items ≡ out.old.items ++ line_text self.old moment sums) }
        ensures next { OnOk result (self.new ≡ next_second self.old moment) }
        ensures err { OnErr result (self.new ≡ self.old) }
    {
        self.put_numbers(out, moment, sums)?;
        self.put_counts(out)?;
        self.begin(moment);
        Ok(())
    }
}
