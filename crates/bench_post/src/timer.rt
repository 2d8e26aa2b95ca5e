//! Dials and timers.

ghost use Rattle.std.specs.Prelude.{◌≡◌, option_to_list, slice_index};
ghost use Rattle.bench_item.specs.declared.item.Item.TheVariants.{Undial, Arm};
ghost use Rattle.bench_item.specs.Posts.{dial_posts};

use bench_item::{Item, Peers};
use tab_law::Deed;

/// Opens a connection to the peer whose machine has the number of argument 0; nothing where no peer's has. Takes no
/// memory.
pub(crate) fn dial(peers: &Peers, deed: &Deed) -> Option<Item>
    ensures { option_to_list result ≡ dial_posts peers.now deed.now }
{
    deed.known();
    let peer = deed.a[0];
    if peers.numbered(peer).is_none() {
        return None;
    }
    Some(Item::Dial {
        peer,
        generation: deed.a[1],
    })
}

/// Closes the connection of that dial. Takes no memory.
pub(crate) fn undial(deed: &Deed) -> Item
    ensures { result ≡ Undial (slice_index deed.now.a 0) (slice_index deed.now.a 1) }
{
    deed.known();
    Item::Undial {
        peer: deed.a[0],
        generation: deed.a[1],
    }
}

/// Arms the timer of that machine. Takes no memory.
pub(crate) fn arm(machine: u64, deed: &Deed) -> Item
    ensures { result ≡ Arm machine (slice_index deed.now.a 0) (slice_index deed.now.a 1) }
{
    deed.known();
    Item::Arm {
        machine,
        generation: deed.a[0],
        ticks: deed.a[1],
    }
}
