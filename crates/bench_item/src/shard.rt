//! The shard where a machine has its place.

ghost use Rattle.std.specs.Prelude.{◌≡◌, ◌<◌, ◌≤◌, ◌%◌};
ghost use Rattle.bench_item.specs.declared.shard.TheConstants.{MANY};
ghost use Rattle.bench_item.specs.Keys.{home};

use crate::key::Key;
use crate::limit::MAX_SHARDS;

/// Below this a sum is not divided: a division takes as long as adding some twenty octets.
const MANY: usize = 65_536;

/// A number below `MANY` that leaves the same as a sum.
fn folded(shards: usize, sum: usize) -> usize
    requires some { 0 < shards }
    requires few { shards ≤ MAX_SHARDS }
    ensures same { result % shards ≡ sum % shards }
    ensures small { result < MANY }
{
    if sum < MANY { sum } else { sum % shards }
}

/// The shard of a name, from 0: the sum of its octets, divided by the count of shards, leaves its number.
pub(crate) fn shard_of(shards: usize, name: &[u8]) -> usize
    requires some { 0 < shards }
    requires few { shards ≤ MAX_SHARDS }
    ensures is { result ≡ home shards name.now }
    ensures within { result < shards }
{
    let mut sum = 0;
    for octet in name {
        sum = folded(shards, sum + usize::from(*octet));
    }
    sum % shards
}

/// The shard of a machine, from 0, by its name alone: its role does not count. Takes no memory.
pub fn home(shards: usize, key: &Key) -> usize
    requires some { 0 < shards }
    requires few { shards ≤ MAX_SHARDS }
    ensures is { result ≡ home shards key.now.name }
    ensures within { result < shards }
{
    shard_of(shards, key.name.as_slice())
}
