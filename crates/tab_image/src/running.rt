//! One event run by a program.

ghost use Rattle.std.specs.Prelude.{◌≡◌};
ghost use Rattle.tab_law.specs.Books.{NamedPermits};
ghost use Rattle.tab_text.specs.Contents.{Contents, IsTable};
ghost use Rattle.tab_step.specs.Moves.{IsStep};
ghost use Rattle.tab_asm.specs.Assembled.{image_of, Means};
ghost use Rattle.tab_load.specs.Loading.{IsLoaded};
ghost use Rattle.tab_load.specs.declared.counts.Format.TheVariants.{Two};
ghost use Rattle.tab_image.specs.RunBy.{IsRunBy};

use crate::entry::entry_of;
use crate::walk::{Ending, Walk, finish};
use tab_call::Registry;
use tab_law::Scene;
use tab_load::Program;
use tab_step::{Event, MachineState, Stepped, act_all, stay};

/// Writes what an event leaves by the entry of its state and kind.
fn run_into(
    program: &Program,
    registry: &Registry,
    machine: &MachineState,
    event: &Event,
    room: &mut Stepped,
)
    requires loaded { IsLoaded registry.now.book program.now }
    ensures { IsRunBy (NamedPermits registry.now.book) program.now registry.now.book machine.now event.now room.new }
{
    let Some(begin) = entry_of(program, registry.laws(), machine.state, event.kind) else {
        stay(machine, event, room);
        return;
    };
    let regs = machine.regs;
    let facts = event.facts;
    let mut scene = Scene { regs, facts };
    let mut walk = Walk::new(begin);
    match finish(&mut walk, program, registry, &scene) {
        Ending::Row(row, next) => {
            act_all(registry, walk.acts.as_slice(), &mut scene, room);
            room.after.state = next;
            room.row = Some(row);
        }
        Ending::NoRow => stay(machine, event, room),
    }
}

/// One step of a machine by a loaded image, written into room that the caller keeps; what stood there before is gone.
///
/// The entry of the machine's state and of the event's kind leads to an end, by what the guards' callbacks say on the
/// scene at the event's start. By a row: its actions' callbacks run in order, and the state is the row's Next. Without
/// one, or where the image lacks the state, the kind or such rows: the machine stays, and the one deed is Unlisted.
/// Takes no memory and never fails. RFC 6733 section 5.6 and RFC 8506 section 7 print such tables.
///
/// By the image of a table this is the step that the table's text says (`tab_step::step_into`). Each table that was
/// parsed is within the limits that the clause asks for (`Table::rows` says so).
pub fn run_event_into(
    program: &Program,
    registry: &Registry,
    machine: &MachineState,
    event: &Event,
    room: &mut Stepped,
)
    requires loaded { IsLoaded registry.now.book program.now }
    ensures run { IsRunBy (NamedPermits registry.now.book) program.now registry.now.book machine.now event.now
        room.new }
    ensures text { (table : Contents) → IsTable table → (program.now.format ≡ Two)
        → (program.now.image ≡ image_of table) → Means program.now.image table
        → IsStep (NamedPermits registry.now.book) table registry.now.book machine.now event.now room.new }
{
    run_into(program, registry, machine, event, room);
}

/// One step of a machine by a loaded image. `run_event_into` does the same without 24 kilobytes of new room.
pub fn run_event(
    program: &Program,
    registry: &Registry,
    machine: &MachineState,
    event: Event,
) -> Stepped
    requires loaded { IsLoaded registry.now.book program.now }
    ensures run { IsRunBy (NamedPermits registry.now.book) program.now registry.now.book machine.now event result }
    ensures text { (table : Contents) → IsTable table → (program.now.format ≡ Two)
        → (program.now.image ≡ image_of table) → Means program.now.image table
        → IsStep (NamedPermits registry.now.book) table registry.now.book machine.now event result }
{
    let mut room = Stepped::new();
    run_event_into(program, registry, machine, &event, &mut room);
    room
}
