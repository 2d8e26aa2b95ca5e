//! A node; an end of a connection, a connection between two nodes, and what crosses it.
ghost use Rattle.std.specs.Prelude.{◌≡◌};
ghost use Rattle.bench_nodes.specs.Ends.{count_of, from_end, to_end, with_count};

use base_list::Octets;
use bench_item::Step;
use bench_script::Core;

/// A node, and its bench.
pub struct Node {
    /// Its host: what its lines begin with, and what others dial.
    pub host: Octets,
    /// Whether it accepts connections.
    pub listens: bool,
    /// The numbers of its accounts.
    pub accounts: Vec<u64>,
    pub core: Core,
}

impl Drop for Node {
    fn drop(self) {
        let Node {
            host,
            listens: _,
            accounts,
            core,
        } = self;
    }
}

/// An end of a connection: a node by its place, and the number of a line there.
#[derive(Clone, Copy)]
pub struct End {
    pub node: usize,
    pub line: u32,
}

/// A connection between two nodes.
#[derive(Clone, Copy)]
pub struct Link {
    /// Who dialled.
    pub caller: End,
    /// Who accepted.
    pub callee: End,
    /// How many octets of what the caller sent came at the callee.
    pub there: usize,
    /// How many octets of what the callee sent came at the caller.
    pub back: usize,
}

/// Which way octets go on a connection.
#[derive(Clone, Copy)]
pub enum Way {
    There,
    Back,
}

/// A connection as it is from now on, and its place among them.
#[derive(Clone, Copy)]
pub struct Linked {
    pub place: usize,
    pub link: Link,
}

/// What comes to a node from another: the step that it takes, and what becomes of the connection.
#[derive(Drop)]
pub struct Crossing {
    pub node: usize,
    pub step: Step,
    pub linked: Option<Linked>,
}

impl Link {
    /// Where octets that go this way come from.
    pub(crate) fn from(&self, way: Way) -> End
        ensures { result ≡ from_end self.now way }
    {
        match way {
            Way::There => self.caller,
            Way::Back => self.callee,
        }
    }

    /// Where they come.
    pub(crate) fn to(&self, way: Way) -> End
        ensures { result ≡ to_end self.now way }
    {
        match way {
            Way::There => self.callee,
            Way::Back => self.caller,
        }
    }

    /// How many came.
    pub(crate) fn count(&self, way: Way) -> usize
        ensures { result ≡ count_of self.now way }
    {
        match way {
            Way::There => self.there,
            Way::Back => self.back,
        }
    }

    /// The connection when so many came.
    pub(crate) fn with_count(&self, way: Way, count: usize) -> Link
        ensures { result ≡ with_count self.now way count }
    {
        let Link {
            caller,
            callee,
            there,
            back,
        } = *self;
        match way {
            Way::There => Link {
                caller,
                callee,
                there: count,
                back,
            },
            Way::Back => Link {
                caller,
                callee,
                there,
                back: count,
            },
        }
    }
}
