//! Who puts items out.

/// Who puts items out. Each source has an outbox, and a hand that holds at most one item on its way.
#[derive(Clone, Copy)]
pub enum Source {
    /// A connection, numbered from 1 in the order of opening.
    Line(u32),
    /// A shard, from 0: what the deeds of its machines post.
    Shard(u32),
    /// A desk, from 0: what it tells machines.
    Desk(u32),
    /// What timers fire.
    Clock,
}
