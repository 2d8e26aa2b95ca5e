//! Parts of a bench as they are lent.
ghost use Rattle.std.specs.Prelude.{◌≡◌, length};
ghost use Rattle.bench_parts.specs.Views.{stamped_of};

use bench_item::Key;
use bench_log::{KeptEntry, KeptState, Log};

/// A look: the stamp, the machine, where it stood, and how many items of the desk waited and were handled.
#[derive(Drop)]
pub struct KeptLook {
    pub stamp: u64,
    pub key: Key,
    pub stands: KeptState,
    pub waiting: u64,
    pub handled: u64,
}

/// What a desk keeps: the entry of what it did with its stamp, or what it saw.
#[derive(Drop)]
pub enum Note {
    Did { stamp: u64, entry: KeptEntry },
    Saw(KeptLook),
}

/// A part of a bench, lent.
#[derive(Clone, Copy)]
pub enum Lent<'a> {
    /// The entries of a shard, of the lines or of the clock, each with the stamp at its place.
    Entries { stamps: &'a [u64], log: &'a Log },
    /// What a desk kept.
    Notes(&'a [Note]),
}

/// How many entries have a stamp.
pub(crate) fn stamped_len(stamps: &[u64], log: &Log) -> usize
    ensures { result ≡ length (stamped_of stamps.now log.now.entries) }
{
    let entries = log.len();
    if stamps.len() < entries {
        stamps.len()
    } else {
        entries
    }
}
