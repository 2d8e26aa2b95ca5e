//! Why a bench is not opened, memory aside.

/// Why a bench is not opened, memory aside. Where several hold, the first in this order is told.
#[derive(Clone, Copy)]
pub enum OpeningFault<'a> {
    /// No shard or no page, or more shards, pages, desks or peers than there may be; or not one registry for each
    /// shard.
    Limits,
    /// A host or the realm is empty, over 255 octets or not ASCII, or a peer is there twice.
    Names,
    /// The registries' laws differ, or lack a kind of a role's events.
    Laws,
    /// This name of a table is no kind, guard or action of the laws.
    Unbound(&'a [u8]),
    /// An account has the number 0, is there twice, is given more than a page takes, or finds its page full.
    Account,
}
