//! The text of an entry that was taken, and of a step that was refused.
ghost use Rattle.std.specs.Prelude.{◌≡◌, ◌++◌, ◌∷◌, [], IfOk, List, OnOk};
ghost use Rattle.bench_item.specs.declared.entry.Entry.{Entry};
ghost use Rattle.bench_script.specs.Printed.{machine_at, machines_for, refused_text, taken_text};

use base_text::put_number;
use bench_core::Core;
use bench_item::{Entry, Key, Role, Step, StepFault};
use log_text::{NameBook, put_entry};
use std::alloc::{AllocError, Global};
use step_text::Machines;

/// The machine of a number, if there is one.
pub(crate) fn machine_at(core: &Core, machine: u64) -> Result<Option<Key>, AllocError>
    ensures { IfOk result (λ key. key ≡ machine_at core.now machine) }
{
    let key = core.key(machine)?;
    Ok(key)
}

/// The machine that a step names by its number, under its key.
fn machines_for(alloc: Global, core: &Core, step: &Step) -> Result<Machines, AllocError>
    ensures { IfOk result (λ machines. machines ≡ machines_for core.now step.now) }
{
    let mut machines = Machines::new(alloc);
    let Step::Fired {
        machine,
        generation: _,
    } = step
    else {
        return Ok(machines);
    };
    let Some(key) = machine_at(core, *machine)? else {
        return Ok(machines);
    };
    match machines.add(&key, *machine) {
        Ok(()) => Ok(machines),
        // No machine is there yet, so what lacks is memory.
        Err(_) => Err(AllocError),
    }
}

/// Puts an entry behind what `out` holds, with the names that a bench has for kinds, states and machines.
pub fn put_taken(
    alloc: Global,
    core: &Core,
    entry: &Entry,
    out: &mut Vec<u8>,
) -> Result<(), AllocError>
    ensures { OnOk result (out.new.items ≡ out.old.items ++ taken_text core.now entry.now) }
{
    let machines = machines_for(alloc, core, &entry.step)?;
    let names = NameBook {
        laws: core.laws(),
        machines: &machines,
        peer_states: core.table(Role::Peer).states().as_slice(),
        client_states: core.table(Role::Client).states().as_slice(),
        server_states: core.table(Role::Server).states().as_slice(),
    };
    put_entry(out, &names, entry)?;
    Ok(())
}

/// Puts the last entry of a bench.
pub(crate) fn put_last(alloc: Global, core: &Core, out: &mut Vec<u8>) -> Result<(), AllocError>
    ensures { OnOk result ((before : List Entry) (entry : Entry) → core.now.log ≡ before ++ entry ∷ []
        → out.new.items ≡ out.old.items ++ taken_text core.now entry) }
{
    let Some(entry) = core.log().last(alloc)? else {
        return Ok(());
    };
    put_taken(alloc, core, &entry, out)?;
    Ok(())
}

/// Puts why a step was refused.
pub(crate) fn put_refused(out: &mut Vec<u8>, fault: StepFault) -> Result<(), AllocError>
    ensures { OnOk result (out.new.items ≡ out.old.items ++ refused_text fault) }
{
    put_number(out, b"refused ", u64::from(fault.number()))?;
    out.extend_from_slice(b"\n")
}
