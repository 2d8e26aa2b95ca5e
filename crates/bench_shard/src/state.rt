//! A shard without its tables and callbacks.
ghost use Rattle.std.specs.Prelude.{◌≡◌, ◌≤◌, ◌<◌, IfOk, IfSome, length, option_map, slice_get};
ghost use Rattle.bench_item.specs.declared.limit.TheConstants.{MAX_MACHINES};
ghost use Rattle.bench_queue.specs.Inbox.{items_in};
ghost use Rattle.bench_queue.specs.Outbox.{items_out};
ghost use Rattle.bench_shard.specs.Lent.{key_lent};
ghost use Rattle.bench_shard.specs.Names.{key_in};
ghost use Rattle.bench_shard.specs.View.{place_in};

use crate::name::{LentKey, key_in, lent_key};
use crate::seek::find;
use bench_item::{Item, Key, MachineItem, Peers, Series};
use bench_log::KeptState;
use bench_queue::{Inbox, Outbox};
use sess_dir::Directory;
use std::alloc::{AllocError, Global};
use std::marker::Model;
use tab_step::MachineState;

/// A shard without its tables and callbacks: its machines, by the places at which they came, each as it stands; what
/// came to it and waits; what it put out. A contract sees all that came and was put out, with counts of what was
/// handled, lifted and dropped.
///
/// In: `put`, taken back by `unput`. Out: `lift`, taken back by `unlift`; `drop_hand`, taken back by `undrop`. `pause`
/// and `resume` change nothing else. Looks: `number`, `machines`, `find`, `key`, `state`, `waiting`, `items`,
/// `has_hand`, `next_post`, `hand`, `posts`, `is_paused`.
pub struct ShardState {
    pub(crate) alloc: Global,
    pub(crate) number: usize,
    pub(crate) peers: Peers,
    pub(crate) names: Directory,
    pub(crate) states: Vec<KeptState>,
    pub(crate) inbox: Inbox,
    pub(crate) outbox: Outbox,
    pub(crate) paused: bool,
}

// A derived `drop` is proved anew in each crate that holds a shard; this one is a call.
impl Drop for ShardState {
    fn drop(self) {
        let ShardState {
            alloc: _,
            number: _,
            peers,
            names,
            states,
            inbox,
            outbox,
            paused: _,
        } = self;
    }
}

impl Model for ShardState {
    ghost use Rattle.bench_shard.specs.View.{IsWhole, ShardView};

    ghost Value = { ShardView };

    ghost view = { λ s. record {
      number = s.number;
      peers = s.peers;
      names = s.names;
      states = s.states.items;
      inbox = s.inbox.view;
      outbox = s.outbox.view;
      paused = s.paused;
    } };

    ghost invariant = { λ s. IsWhole s.number s.peers s.names s.states.items };
}

impl ShardState {
    /// Its number, from 0.
    pub fn number(&self) -> usize
        ensures number { result ≡ self.now.number }
        ensures here { result < self.now.peers.shards }
    {
        self.number
    }

    /// The configured peers of its node.
    pub fn peers(&self) -> &Peers
        ensures { result.now ≡ self.now.peers }
    {
        &self.peers
    }

    /// How many machines there are.
    pub fn machines(&self) -> usize
        ensures count { result ≡ length self.now.names }
        ensures each { length self.now.states ≡ length self.now.names }
        ensures within { result ≤ MAX_MACHINES }
    {
        self.names.len()
    }

    /// The place of a machine, if it is there.
    pub fn find(&self, alloc: Global, key: &Key) -> Result<Option<usize>, AllocError>
        ensures place { IfOk result (λ place. place ≡ place_in self.now key.now) }
        ensures within { IfOk result (λ place. IfSome place (λ place. place < length self.now.names)) }
    {
        find(alloc, &self.names, key)
    }

    /// The machine at a place, if there is one.
    pub fn key(&self, alloc: Global, place: usize) -> Result<Option<Key>, AllocError>
        ensures { IfOk result (λ key. key ≡ option_map key_in (slice_get self.now.names place)) }
    {
        match self.names.name(place) {
            None => Ok(None),
            Some(octets) => Ok(Some(key_in(alloc, octets)?)),
        }
    }

    /// The machine at a place, if there is one, its name as it stands there. Takes no memory.
    pub fn lent_key(&self, place: usize) -> Option<LentKey<'_>>
        ensures { option_map key_lent result ≡ option_map key_in (slice_get self.now.names place) }
    {
        match self.names.name(place) {
            None => None,
            Some(octets) => Some(lent_key(octets)),
        }
    }

    /// Where the machine at a place stands, if there is one. Takes no memory.
    pub fn state(&self, place: usize) -> Option<MachineState>
        ensures { result ≡ slice_get self.now.states place }
    {
        match self.states.get(place) {
            None => None,
            Some(kept) => Some(kept.show()),
        }
    }

    /// How many items wait to be handled.
    pub fn waiting(&self) -> usize
        ensures { result ≡ length (items_in self.now.inbox) }
    {
        self.inbox.waiting()
    }

    /// How many items wait to be lifted.
    pub fn posted(&self) -> usize
        ensures { result ≡ length (items_out self.now.outbox) }
    {
        self.outbox.waiting()
    }

    /// The items that wait to be handled, oldest first.
    pub fn items(&self, alloc: Global) -> Result<Series<MachineItem>, AllocError>
        ensures { IfOk result (λ items. items ≡ items_in self.now.inbox) }
    {
        self.inbox.items(alloc)
    }

    /// The items that wait to be lifted, oldest first.
    pub fn posts(&self, alloc: Global) -> Result<Series<Item>, AllocError>
        ensures { IfOk result (λ items. items ≡ items_out self.now.outbox) }
    {
        self.outbox.items(alloc)
    }

    /// Whether it is paused.
    pub fn is_paused(&self) -> bool
        ensures { result ≡ self.now.paused }
    {
        self.paused
    }
}
