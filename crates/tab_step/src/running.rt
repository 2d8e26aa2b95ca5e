//! Steps over a list of events.
ghost use Rattle.std.specs.Prelude.{◌≡◌, [], map, IfOk, IsOk};
ghost use Rattle.tab_step.specs.Bind.{IsBoundTo};
ghost use Rattle.tab_law.specs.Books.{NamedPermits};
ghost use Rattle.tab_step.specs.Runs.{IsRun, AreSteps};

use crate::bound::Bound;
use crate::machine::{Event, MachineState, Stepped};
use crate::stepping::step;
use std::alloc::{AllocError, Global};
use tab_call::Registry;

/// The steps of a machine over a list of events, from a first state, one for each event. Each holds
/// room for all its deeds, some kilobytes: a long list takes much memory. No events take none.
pub fn run(
    alloc: Global,
    bound: &Bound,
    registry: &Registry,
    first: &MachineState,
    events: &[Event],
) -> Result<Vec<Stepped>, AllocError>
    requires { IsBoundTo bound.now registry.now.book }
    ensures run { IfOk result (λ steps. IsRun bound.now.table registry.now.book first.now events.now
        (map (λ step. step.after) steps.items) (map (λ step. step.deeds) steps.items)) }
    ensures steps { IfOk result (λ steps. AreSteps (NamedPermits registry.now.book) bound.now.table registry.now.book
        first.now events.now steps.items) }
    ensures none { events.now ≡ [] → IsOk result }
{
    let mut steps = Vec::with_capacity(alloc, events.len())?;
    let mut now = *first;
    for event in events {
        let stepped = step(bound, registry, &now, *event);
        now = stepped.after;
        steps.push(stepped)?;
    }
    Ok(steps)
}
