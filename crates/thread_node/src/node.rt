//! A node whose shards run in threads.
ghost use Rattle.std.specs.Prelude.{◌≡◌, [], IfOk, false};

use bench_core::Core;
use bench_item::MAX_LINES;
use bench_live::InThreads;
use bench_node::PeerAddress;
use live_desk::Desk;
use std::alloc::{AllocError, Global};
use std::marker::Model;

/// The texts of a desk, and the desk of the bench that tells them.
#[derive(Drop)]
pub(crate) struct Teller<D> {
    pub(crate) texts: Desk,
    pub(crate) own: D,
}

/// A node whose shards run in threads, once it is started. A contract sees its world, which stands at its opening until
/// its parts were gathered, how many texts its desks passed, the steps that were fed to its bench, and what its
/// connections sent, as far as it was drawn.
///
/// In: `start`, those of `net_sockets::Node`, `turn`, `end`. Looks: `core`.
pub struct ThreadNode<R, B: InThreads<R>> {
    pub(crate) rt: R,
    pub(crate) alloc: Global,
    pub(crate) core: Core,
    pub(crate) bench: Option<B>,
    pub(crate) tellers: Vec<Teller<B::Desk>>,
    // How many texts desks passed: each that was told is three entries of its desk's part.
    pub(crate) told: usize,
    pub(crate) peers: Vec<PeerAddress>,
    // Of each connection, from 1 on, what it sent, as far as it was drawn.
    pub(crate) sent: Vec<Vec<u8>>,
    // Of each connection, by its number, whether it is closed, and all that it sent was drawn.
    pub(crate) closed: Vec<bool>,
    // And whether something happened there since all that it put out was carried.
    pub(crate) touched: Vec<bool>,
    // And of each connection, from 1 on, whether it sent something when it was looked at last, or was closed.
    pub(crate) marks: Vec<bool>,
    // So many connections were looked at for a dial.
    pub(crate) looked: u64,
}

// A derived `drop` is proved anew in each crate that holds a node; this one is a call.
impl<R: Drop, B: InThreads<R>> Drop for ThreadNode<R, B> {
    fn drop(self) {
        let ThreadNode {
            rt,
            alloc: _,
            core,
            bench,
            tellers,
            told: _,
            peers,
            sent,
            closed,
            touched,
            marks,
            looked: _,
        } = self;
    }
}

impl<R, B: InThreads<R>> Model for ThreadNode<R, B> {
    ghost use Rattle.std.specs.Prelude.{map};
    ghost use Rattle.thread_node.specs.Nodes.{IsNode, NodeView, fed_of, is_started};

    ghost Value = { NodeView };

    ghost view = { λ n. record {
      run = n.core;
      started = is_started n.bench;
      told = n.told;
      fed = fed_of B.fed n.bench;
      sent = map (λ text. text.items) n.sent.items;
    } };

    // Its world stands at its opening while its bench runs.
    ghost invariant = { λ n. IsNode n.core n.bench };
}

impl<R: Copy, B: InThreads<R>> ThreadNode<R, B> {
    /// A node of a world, that is not started yet.
    pub fn new(
        rt: &R,
        alloc: Global,
        core: Core,
        peers: Vec<PeerAddress>,
    ) -> Result<ThreadNode<R, B>, AllocError>
        ensures { IfOk result (λ node. node
            ≡ record { run = core; started = false; told = 0; fed = []; sent = [] }) }
    {
        Ok(ThreadNode {
            rt: *rt,
            alloc,
            core,
            bench: None,
            tellers: Vec::new(alloc),
            told: 0,
            peers,
            sent: Vec::new(alloc),
            closed: vec![in alloc; false; MAX_LINES + 1]?,
            touched: vec![in alloc; false; MAX_LINES + 1]?,
            marks: vec![in alloc; false; MAX_LINES]?,
            looked: 0,
        })
    }

    /// Its world: at its opening until the parts of its bench were gathered.
    pub fn core(&self) -> &Core
        ensures { result.now ≡ self.now.run }
    {
        &self.core
    }

    /// Its world, and where its peers are dialled.
    pub fn into_parts(self) -> (Core, Vec<PeerAddress>)
        ensures { result.0 ≡ self.run }
    {
        let ThreadNode {
            rt: _,
            alloc: _,
            core,
            bench,
            tellers,
            told: _,
            peers,
            sent,
            closed,
            touched,
            marks,
            looked: _,
        } = self;
        (core, peers)
    }
}
