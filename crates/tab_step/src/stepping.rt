//! One step by a table.
ghost use Rattle.std.specs.Prelude.{◌≡◌, ◌<◌, ◌≤◌, All, length, Some, None, slice_index_or};
ghost use Rattle.tab_law.specs.Books.{ActPermits, NamedPermits};
ghost use Rattle.tab_text.specs.declared.row.Row.{Row};
ghost use Rattle.tab_step.specs.Moves.{end_of, scene_of, Runs, Stays, MovesAlong, IsStep};
ghost use Rattle.tab_step.specs.Bind.{IsBoundTo};

use crate::bound::Bound;
use crate::machine::{Event, MachineState, Stepped};
use crate::taking::first_row;
use base_codes::DeedCode;
use tab_call::Registry;
use tab_law::{Deed, MAX_ROW_ACTIONS, Scene};

/// Runs the callbacks of the actions at these places in order, each on the registers that the one before left. What
/// stood in the room's chain and deeds before is gone; its state and row stay for the caller to write.
pub fn act_all(registry: &Registry, actions: &[u8], scene: &mut Scene, room: &mut Stepped)
    requires few { length actions.now ≤ MAX_ROW_ACTIONS }
    requires registered { All (λ place. place < length registry.now.book.acts) actions.now }
    ensures runs { Runs (ActPermits registry.now.book) scene.old.facts actions.now scene.old.regs room.new.chain
        room.new.deeds }
    ensures end { room.new.after.regs ≡ end_of scene.old.regs room.new.chain }
{
    room.deeds.clear();
    room.chain.clear();
    for place in actions {
        registry.act(*place as usize, scene, &mut room.acted);
        room.deeds.extend_from_slice(room.acted.deeds.as_slice());
        room.chain.push_copy(&room.acted.regs);
        scene.regs = room.acted.regs;
    }
    room.after.regs = scene.regs;
}

/// Writes what an event leaves that no row takes: the machine as it was, and one deed, Unlisted.
pub fn stay(machine: &MachineState, event: &Event, room: &mut Stepped)
    ensures row { room.new.row ≡ None }
    ensures stays { Stays machine.now event.now room.new.after room.new.chain room.new.deeds }
{
    let code = DeedCode::Unlisted.number();
    let a = event.facts;
    room.row = None;
    room.after = *machine;
    room.chain.clear();
    room.deeds.clear();
    room.deeds.push(Deed { code, a });
}

/// What an event leaves by the row of that number.
fn go_along(
    bound: &Bound,
    registry: &Registry,
    number: usize,
    machine: &MachineState,
    event: &Event,
    scene: &mut Scene,
    room: &mut Stepped,
)
    requires bound { IsBoundTo bound.now registry.now.book }
    requires in_rows { number < length bound.now.table.rows }
    requires scene { scene.old ≡ scene_of machine.now.regs event.now.facts }
    ensures row { room.new.row ≡ Some number }
    ensures along { (row : Row) → MovesAlong (NamedPermits registry.now.book) bound.now.table machine.now event.now
        (slice_index_or bound.now.table.rows number row) room.new.after room.new.chain room.new.deeds }
{
    let row = &bound.table().rows()[number];
    let actions = bound.places()[number].actions.as_slice();
    act_all(registry, actions, scene, room);
    room.after.state = row.next;
    room.row = Some(number as u16);
}

/// One step of a machine, written into room that the caller keeps; what stood there before is gone. Its row, its
/// chain and its deeds are those of the first row that takes the event.
pub fn step_into(
    bound: &Bound,
    registry: &Registry,
    machine: &MachineState,
    event: &Event,
    room: &mut Stepped,
)
    requires { IsBoundTo bound.now registry.now.book }
    ensures { IsStep (NamedPermits registry.now.book) bound.now.table registry.now.book machine.now event.now room.new }
{
    let regs = machine.regs;
    let facts = event.facts;
    let mut scene = Scene { regs, facts };
    let book = registry.laws();
    match first_row(
        bound,
        book,
        Some(registry),
        machine.state,
        event.kind,
        &scene,
    ) {
        None => stay(machine, event, room),
        Some(number) => go_along(bound, registry, number, machine, event, &mut scene, room),
    }
}

/// One step of a machine, by the callbacks of its guards and actions. `step_into` does the same without 24 kilobytes
/// of new room.
pub fn step(bound: &Bound, registry: &Registry, machine: &MachineState, event: Event) -> Stepped
    requires { IsBoundTo bound.now registry.now.book }
    ensures { IsStep (NamedPermits registry.now.book) bound.now.table registry.now.book machine.now event result }
{
    let mut room = Stepped::new();
    step_into(bound, registry, machine, &event, &mut room);
    room
}
