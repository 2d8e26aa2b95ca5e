//! Where machines stood when they were looked at, as a desk sees it.
ghost use Rattle.std.specs.Prelude.{◌≡◌, ◌++◌, ◌∷◌, [], OnOk};
ghost use Rattle.thread_node.specs.Boards.{found};

use bench_core::Core;
use bench_item::{Key, Role, is_same_key};
use live_desk::Stands;
use std::alloc::{AllocError, Global};
use tab_law::LawBook;
use tab_step::MachineState;
use tab_text::Table;

/// A machine, and where it stood.
#[derive(Drop)]
pub(crate) struct Stood {
    pub(crate) key: Key,
    pub(crate) state: MachineState,
}

/// Machines of a bench that were looked at: what it was opened with is its world's.
#[derive(Drop)]
pub(crate) struct Board<'a> {
    core: &'a Core,
    stood: Vec<Stood>,
}

impl<'a> Board<'a> {
    /// None was looked at yet.
    pub(crate) fn new(alloc: Global, core: &'a Core) -> Board<'a>
        ensures settings { result.core.now ≡ core.now }
        ensures none { result.stood.items ≡ [] }
    {
        Board {
            core,
            stood: Vec::new(alloc),
        }
    }

    /// A machine stood there.
    pub(crate) fn put(&mut self, key: Key, state: MachineState) -> Result<(), AllocError>
        ensures same { self.new.core.now ≡ self.old.core.now }
        ensures ok { OnOk result (self.new.stood.items
            ≡ self.old.stood.items ++ record { key = key; state = state } ∷ []) }
    {
        self.stood.push(Stood { key, state })?;
        Ok(())
    }
}

impl Stands for Board<'_> {
    ghost use Rattle.thread_node.specs.Boards.{found};

    ghost standing = { λ board. record {
      settings = board.core.now.settings;
      machine_of = found board.stood.items;
    } };

    fn laws(&self) -> &LawBook {
        self.core.laws()
    }

    fn table(&self, role: Role) -> &Table {
        self.core.table(role)
    }

    fn state_of(&self, key: &Key) -> Option<MachineState> {
        match self.stood.iter().find(|stood| is_same_key(&stood.key, key)) {
            None => None,
            Some(stood) => Some(stood.state),
        }
    }
}
