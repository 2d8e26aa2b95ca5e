//! Every limit of the running bench that is not a table's, a law's or a page's.

/// The most entries of a log.
pub const MAX_ENTRIES: usize = 1_048_576;

/// The most shards.
pub const MAX_SHARDS: usize = 16;

/// The most pages of the account book.
pub const MAX_PAGES: usize = 8;

/// The most configured peers.
pub const MAX_PEERS: usize = 64;

/// The most desks, numbered from 0.
pub const MAX_DESKS: usize = 16;

/// The most connections of one run, closed ones too.
pub const MAX_LINES: usize = 1_024;

/// The most machines of a shard.
pub const MAX_MACHINES: usize = 4_096;

/// The most items that may wait in an inbox, or in the outbox of a line or a shard, before more are let in.
pub const MAX_WAITING: usize = 1_024;

/// The places that must be free in a shard's outbox before it works: one for each deed of a step.
pub const WORK_ROOM: usize = 32;

/// The most breakpoints that are set at one time.
pub const MAX_BREAKPOINTS: usize = 32;
