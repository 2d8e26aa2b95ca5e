//! A node of a live bench.
ghost use Rattle.std.specs.Prelude.{◌≡◌, IfOk};
ghost use Rattle.role_tables.specs.Roles.{all_laws};

use crate::dials::Dials;
use live_desk::Core;
use std::alloc::{AllocError, Global};
use std::marker::Model;
use std::net::SocketAddr;
use tab_step::Stepped;

/// One more than the most connections: they have the numbers from 1 on.
pub(crate) const LINE_PLACES: usize = 1_025;

/// Where the peer whose machine has that number is dialled, where it can be.
#[derive(Clone, Copy, Drop)]
pub struct PeerAddress {
    pub machine: u64,
    pub address: Option<SocketAddr>,
}

/// A node: a bench, and what is beside it while it lives. A contract sees the bench.
///
/// In: those of `net_sockets::Node`, `fire_all`, `tell`, `settle`. Looks: `core`.
pub struct LiveNode {
    pub(crate) alloc: Global,
    pub(crate) core: Core,
    // Where a move is decided.
    pub(crate) room: Box<Stepped>,
    // Of each connection, by its number, whether something happened there since it was settled. Those are carried
    // first; what is left elsewhere, as behind a full inbox, is found without.
    touched: Vec<bool>,
    pub(crate) dials: Dials,
}

// A derived `drop` is proved anew in each crate that holds a node; this one is a call.
impl Drop for LiveNode {
    fn drop(self) {
        let LiveNode {
            alloc: _,
            core,
            room,
            touched,
            dials,
        } = self;
    }
}

impl Model for LiveNode {
    ghost use Rattle.std.specs.Prelude.{◌≡◌};
    ghost use Rattle.bench_spec.specs.Taken.{Run};
    ghost use Rattle.role_tables.specs.Roles.{all_laws};

    ghost Value = { Run };

    ghost view = { λ n. n.core };

    // What its callbacks answer by, whatever is done with it.
    ghost invariant = { λ n. n.core.settings.node.laws ≡ all_laws };
}

impl LiveNode {
    /// A node of a bench that was just opened with the laws of all roles.
    pub fn new(alloc: Global, core: Core, peers: Vec<PeerAddress>) -> Result<LiveNode, AllocError>
        requires { core.settings.node.laws ≡ all_laws }
        ensures { IfOk result (λ node. node ≡ core) }
    {
        Ok(LiveNode {
            alloc,
            core,
            room: Box::new(alloc, Stepped::new())?,
            touched: vec![in alloc; false; LINE_PLACES]?,
            dials: Dials::new(alloc, peers),
        })
    }

    /// The bench, and where its peers are.
    pub fn into_parts(self) -> (Core, Vec<PeerAddress>)
        ensures core { result.0 ≡ self }
        ensures laws { result.0.settings.node.laws ≡ all_laws }
    {
        let LiveNode {
            alloc: _,
            core,
            room,
            touched,
            dials,
        } = self;
        (core, dials.into_peers())
    }

    /// The bench.
    pub fn core(&self) -> &Core
        ensures { result.now ≡ self.now }
    {
        &self.core
    }

    // Something happened on a connection.
    pub(crate) fn touch(&mut self, line: u32)
        ensures { self.new ≡ self.old }
    {
        if let Some(touched) = self.touched.get_mut(line as usize) {
            *touched = true;
        }
    }

    // Whether something happened on a connection since it was settled.
    pub(crate) fn is_touched(&self, line: u32) -> bool {
        match self.touched.get(line as usize) {
            Some(touched) => *touched,
            None => false,
        }
    }

    // All is settled.
    pub(crate) fn rest(&mut self)
        ensures { self.new ≡ self.old }
    {
        self.touched.fill(false);
    }
}
