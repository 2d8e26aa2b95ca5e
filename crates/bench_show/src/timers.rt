//! The timers that are armed.
ghost use Rattle.std.specs.Prelude.{◌≡◌, ◌++◌, IfOk, OnOk};
ghost use Rattle.bench_script.specs.Printed.{machine_at};
ghost use Rattle.bench_show.specs.Timers.{machine_text, timer_text, timers_text};

use base_text::put_number;
use bench_core::Core;
use bench_item::{Key, MAX_MACHINES, MAX_SHARDS};
use std::alloc::AllocError;
use step_text::put_key;

/// The machine of a number, if there is one.
fn machine_at(core: &Core, machine: u64) -> Result<Option<Key>, AllocError>
    ensures { IfOk result (λ key. key ≡ machine_at core.now machine) }
{
    let key = core.key(machine)?;
    Ok(key)
}

/// Puts the machine of a number behind a blank, `-` where there is none.
pub(crate) fn put_machine(out: &mut Vec<u8>, core: &Core, machine: u64) -> Result<(), AllocError>
    ensures { OnOk result (out.new.items ≡ out.old.items ++ machine_text core.now machine) }
{
    match machine_at(core, machine)? {
        Some(key) => put_key(out, &key),
        None => out.extend_from_slice(b" -"),
    }
}

/// Puts the timer of the machine of a number, where it is armed.
fn put_timer(out: &mut Vec<u8>, core: &Core, machine: u64) -> Result<(), AllocError>
    ensures { OnOk result (out.new.items ≡ out.old.items ++ timer_text core.now machine) }
{
    let Some(generation) = core.timer(machine) else {
        return Ok(());
    };
    out.extend_from_slice(b"timer")?;
    put_machine(out, core, machine)?;
    put_number(out, b" ", generation)?;
    out.extend_from_slice(b"\n")
}

/// Puts each timer that is armed behind what `out` holds, by the number of its machine:
/// `timer KEY GEN`, with the generation with which it is armed.
pub fn put_timers(out: &mut Vec<u8>, core: &Core) -> Result<(), AllocError>
    ensures { OnOk result (out.new.items ≡ out.old.items ++ timers_text core.now) }
{
    let count = (MAX_SHARDS * MAX_MACHINES) as u64;
    'machines: for machine in 0..count {
        put_timer(out, core, machine)?;
    }
    Ok(())
}
