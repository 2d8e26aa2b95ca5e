//! An item that was lifted.

use bench_item::Key;
use bench_log::KeptItem;

/// An item that was lifted, which the entry of its Lift shares.
/// Where it arms the timer of a machine, the machine's key goes with it.
pub struct Hand {
    pub item: KeptItem,
    pub key: Option<Key>,
    /// Whether the key was looked up, or none is needed; without memory it is still to be.
    pub is_named: bool,
}

// A derived `drop` is proved anew in each crate that holds a hand; this one is a call.
impl Drop for Hand {
    fn drop(self) {
        let Hand {
            item,
            key,
            is_named: _,
        } = self;
    }
}
