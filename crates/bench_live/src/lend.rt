//! What is handed over is lent to who gathers it.
ghost use Rattle.std.specs.Prelude.{◌≡◌, ◌++◌, IfOk, OnOk, length, map};
ghost use Rattle.std.specs.List.{range_with_len};
ghost use Rattle.bench_parts.specs.Views.{kept_in};
ghost use Rattle.bench_live.specs.Ended.{kept_by, kept_of_shard, parts_kept};

use crate::parts::{Logged, Parts};
use bench_desk::{Desk, ShardPart};
use bench_parts::Lent;
use live_parts::{ClockPart, LinesPart};
use std::alloc::{AllocError, Global};

/// The entries of shards.
fn lend_shards<'a>(alloc: Global, shards: &'a [ShardPart]) -> Result<Vec<Lent<'a>>, AllocError>
    ensures { IfOk result (λ lent. map kept_in lent.items ≡ map kept_of_shard shards.now) }
{
    let mut lent = Vec::new(alloc);
    for shard in shards {
        lent.push(shard.lent())?;
    }
    Ok(lent)
}

/// What the desk of that number kept; nothing where there is none.
fn lend_desk<'a>(desks: &'a [Desk], number: usize) -> Lent<'a>
    ensures { kept_in result ≡ kept_by desks.now number }
{
    match desks.iter().find(|desk| desk.number() as usize == number) {
        None => Lent::Notes(&[]),
        Some(desk) => desk.lent(),
    }
}

/// What desks kept, by their numbers, behind the other parts.
fn lend_desks<'a>(lent: &mut Vec<Lent<'a>>, desks: &'a [Desk]) -> Result<(), AllocError>
    ensures { OnOk result (map kept_in lent.new.items
        ≡ map kept_in lent.old.items ++ map (kept_by desks.now) (range_with_len 0 (length desks.now))) }
{
    for number in 0..desks.len() {
        lent.push(lend_desk(desks, number))?;
    }
    Ok(())
}

/// All parts, lent to who gathers them: the shards, by their numbers, the connections, the timers, and the desks, by
/// their numbers.
fn lend<'a>(
    alloc: Global,
    shards: &'a [ShardPart],
    lines: &'a LinesPart,
    clock: &'a ClockPart,
    desks: &'a [Desk],
) -> Result<Vec<Lent<'a>>, AllocError>
    ensures { IfOk result (λ lent. map kept_in lent.items ≡ parts_kept shards.now lines.now clock.now desks.now) }
{
    let mut lent = lend_shards(alloc, shards)?;
    lent.push(lines.lent())?;
    lent.push(clock.lent())?;
    lend_desks(&mut lent, desks)?;
    Ok(lent)
}

impl Logged {
    /// All parts, lent to who gathers them, as those of `Parts`.
    pub fn lent(&self, alloc: Global) -> Result<Vec<Lent<'_>>, AllocError>
        ensures { IfOk result (λ lent. map kept_in lent.items
            ≡ parts_kept self.now.shards.items self.now.lines self.now.clock self.now.desks.items) }
    {
        lend(alloc, &self.shards, &self.lines, &self.clock, &self.desks)
    }
}

impl Parts {
    /// All parts, lent to who gathers them: the shards, by their numbers, the connections, the timers, and the desks,
    /// by their numbers.
    pub fn lent(&self, alloc: Global) -> Result<Vec<Lent<'_>>, AllocError>
        ensures { IfOk result (λ lent. map kept_in lent.items
            ≡ parts_kept self.now.shards.items self.now.lines self.now.clock self.now.desks.items) }
    {
        lend(alloc, &self.shards, &self.lines, &self.clock, &self.desks)
    }
}
