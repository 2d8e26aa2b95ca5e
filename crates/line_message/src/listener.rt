//! Who listens.

ghost use Rattle.std.specs.Prelude.{◌≡◌, IfOk};
ghost use Rattle.base_list.specs.Named.{place_of};
ghost use Rattle.line_message.specs.Hearing.{hearing, places_in};

use bench_item::Peers;
use dia_dict::Dictionary;
use dia_write::Identity;
use peer_rules::peer_laws;
use std::alloc::{AllocError, Global};
use std::marker::Model;
use tab_law::LawBook;

/// What a node's connections know: who the node is, its dictionary and its peers. A contract sees them as a `Hearing`.
pub struct Listener {
    pub(crate) identity: Identity,
    pub(crate) dictionary: Dictionary,
    pub(crate) peers: Peers,
    // The octets that a Requested-Service-Unit without an amount asks for.
    pub(crate) default_units: u64,
    // Of each kind of a peer's events, in their order, its place in the book of laws, where that has it.
    pub(crate) places: Vec<Option<u8>>,
}

// A derived `drop` is proved anew at each way out of each function that holds a listener; this one is a call.
impl Drop for Listener {
    fn drop(self) {
        let Listener {
            identity,
            dictionary,
            peers,
            default_units: _,
            places,
        } = self;
    }
}

impl Model for Listener {
    ghost use Rattle.line_message.specs.Hearing.{Hearing};

    ghost Value = { Hearing };

    ghost view = { λ l. record {
      identity = l.identity;
      dictionary = l.dictionary;
      peers = l.peers;
      default_units = l.default_units;
      places = l.places.items;
    } };
}

/// The place of a kind of events in a book of laws.
fn place_in(laws: &LawBook, name: &[u8]) -> Option<u8>
    ensures { result ≡ place_of name.now laws.now.kinds }
{
    laws.known();
    match laws.kinds().find(name) {
        Some(place) => Some(place as u8),
        None => None,
    }
}

/// The places of the kinds of a peer's events in a book of laws.
fn places_in(alloc: Global, laws: &LawBook) -> Result<Vec<Option<u8>>, AllocError>
    ensures { IfOk result (λ places. places.items ≡ places_in laws.now) }
{
    let own = peer_laws(alloc)?;
    let mut places = Vec::new(alloc);
    for kind in own.kinds().as_slice() {
        places.push(place_in(laws, kind.name.as_slice()))?;
    }
    Ok(places)
}

impl Listener {
    /// A listener of this node. Events have the places of their kinds in `laws`; an event of a kind that these lack is
    /// never put out. Only memory can be wanting.
    pub fn new(
        alloc: Global,
        identity: Identity,
        dictionary: Dictionary,
        peers: &Peers,
        default_units: u64,
        laws: &LawBook,
    ) -> Result<Listener, AllocError>
        ensures { IfOk result (λ l. l ≡ hearing identity dictionary peers.now default_units laws.now) }
    {
        let places = places_in(alloc, laws)?;
        Ok(Listener {
            identity,
            dictionary,
            peers: peers.copy(alloc)?,
            default_units,
            places,
        })
    }
}
