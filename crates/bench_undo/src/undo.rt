//! What a step changed: the record from which it is taken back.
use bench_item::Source;
use bench_line::Change;
use bench_shard::ShardRecord;
use tick_wheel::Armed;

/// What the drop of an item changed where it is for.
#[derive(Drop)]
pub enum Arrival {
    /// It came to the inbox of that shard.
    Shard(u32),
    /// The connections changed so.
    Lines(Change),
    /// It opened a connection, behind the others.
    Opened,
    /// The timer of that machine was armed or disarmed; so it was before.
    Timer { machine: u64, old: Option<Armed> },
}

/// What a step changed, from which it is taken back. Taking it back needs no memory.
#[derive(Drop)]
pub enum Undo {
    /// A connection was opened, behind the others.
    Opened,
    /// The connections changed so.
    Lines(Change),
    /// That desk put an item out.
    Told(u32),
    /// The timer of that machine fired, which was armed so; the clock put so many items out.
    Fired {
        machine: u64,
        old: Option<Armed>,
        posted: usize,
    },
    /// An item of the clock, of a desk or of a shard was lifted.
    Lifted(Source),
    /// The item in the hand of that source was dropped.
    Dropped {
        source: Source,
        arrival: Arrival,
    },
    /// That shard handled an item, which booked so many operations on that page.
    Worked {
        shard: u32,
        record: ShardRecord,
        page: u64,
        booked: usize,
    },
}
