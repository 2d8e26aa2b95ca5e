//! Where a machine stands, as the log keeps it; and copies of keys.
ghost use Rattle.std.specs.Prelude.{◌≡◌, IfOk};

use bench_item::Key;
use std::alloc::{AllocError, Global};
use std::marker::Model;
use std::sync::Arc;
use tab_kept::Places;
use tab_step::MachineState;

/// Where a machine stands, kept small, and once: its copies share it. A contract sees the plain state.
pub struct KeptState {
    state: u8,
    regs: Arc<Places>,
}

impl Drop for KeptState {
    fn drop(self) {
        let KeptState { state: _, regs } = self;
    }
}

impl Model for KeptState {
    ghost use Rattle.tab_step.specs.declared.machine.MachineState.{MachineState};

    ghost Value = { MachineState };

    ghost view = { λ k. record { state = k.state; regs = k.regs.value } };
}

impl KeptState {
    /// Keeps where a machine stands.
    pub fn keep(alloc: Global, plain: &MachineState) -> Result<KeptState, AllocError>
        ensures { IfOk result (λ kept. kept ≡ plain.now) }
    {
        let regs = Places::keep(alloc, &plain.regs)?;
        let state = plain.state;
        Ok(KeptState {
            state,
            regs: Arc::new(alloc, regs)?,
        })
    }

    /// The state alone, without the registers.
    pub fn state(&self) -> u8
        ensures { result ≡ self.now.state }
    {
        self.state
    }

    /// Where the machine stands. Takes no memory.
    pub fn show(&self) -> MachineState
        ensures { result ≡ self.now }
    {
        let regs = self.regs.show();
        let state = self.state;
        MachineState { state, regs }
    }

    /// The same state, in the same memory.
    pub fn copy(&self) -> Result<KeptState, AllocError>
        ensures { IfOk result (λ copy. copy ≡ self.now) }
    {
        Ok(KeptState {
            state: self.state,
            regs: Arc::try_clone(&self.regs)?,
        })
    }
}

/// The same key in memory of its own.
pub(crate) fn copy_key(alloc: Global, key: &Key) -> Result<Key, AllocError>
    ensures { IfOk result (λ copy. copy ≡ key.now) }
{
    let name = key.name.copy(alloc)?;
    let role = key.role;
    Ok(Key { role, name })
}
