//! What a desk keeps, as it is stored.
ghost use Rattle.std.specs.Prelude.{◌≡◌, [], IfOk, None, Some};
ghost use Rattle.bench_item.specs.declared.item.Item.TheVariants.{ToMachine};
ghost use Rattle.bench_item.specs.declared.source.Source.TheVariants.{Desk};
ghost use Rattle.bench_item.specs.declared.step.Step.TheVariants.{Lift, Told};
ghost use Rattle.bench_parts.specs.Views.{look_of};

use base_list::Octets;
use bench_item::{Entry, KeptEvent, Key, MachineItem, Source, Step};
use bench_log::{KeptEntry, KeptItem, KeptMachineItem, KeptState};
use bench_parts::KeptLook;
use std::alloc::{AllocError, Global};
use tab_step::{Event, MachineState};

/// The same key in memory of its own.
pub(crate) fn copy_key(alloc: Global, key: &Key) -> Result<Key, AllocError>
    ensures { IfOk result (λ copy. copy ≡ key.now) }
{
    let name = key.name.copy(alloc)?;
    let role = key.role;
    Ok(Key { role, name })
}

/// What a desk tells a machine, as an item.
pub(crate) fn told_item(
    alloc: Global,
    key: &Key,
    event: &Event,
) -> Result<KeptMachineItem, AllocError>
    ensures { IfOk result (λ item. item ≡ record { key = key.now; event = event.now; condition = None; session = [] }) }
{
    let key = copy_key(alloc, key)?;
    let session = Octets::from_slice(alloc, b"")?;
    let event = KeptEvent::keep(alloc, event)?;
    let item = MachineItem {
        key,
        event,
        condition: None,
        session,
    };
    KeptMachineItem::new(alloc, item)
}

/// The entry of what a desk tells.
pub(crate) fn told_entry(
    alloc: Global,
    desk: u32,
    key: &Key,
    event: &Event,
) -> Result<KeptEntry, AllocError>
    ensures { IfOk result (λ entry. entry
        ≡ record { step = Told desk key.now event.now; item = None; handled = None }) }
{
    let key = copy_key(alloc, key)?;
    let entry = Entry {
        step: Step::Told {
            desk,
            key,
            event: *event,
        },
        item: None,
        handled: None,
    };
    KeptEntry::keep(alloc, &entry)
}

/// The entry of its Lift, which shares the item.
pub(crate) fn lift_entry(desk: u32, item: &KeptMachineItem) -> Result<KeptEntry, AllocError>
    ensures { IfOk result (λ entry. entry
        ≡ record { step = Lift (Desk desk); item = Some (ToMachine item.now); handled = None }) }
{
    let own = item.copy()?;
    Ok(KeptEntry::of_lift(Source::Desk(desk), Some(KeptItem::of_event(own))))
}

/// What a desk saw, in memory of its own.
pub(crate) fn keep_look(
    alloc: Global,
    stamp: u64,
    key: &Key,
    stands: &MachineState,
    waiting: u64,
    handled: u64,
) -> Result<KeptLook, AllocError>
    ensures { IfOk result (λ kept. look_of kept
        ≡ record { stamp = stamp; key = key.now; stands = stands.now; waiting = waiting; handled = handled }) }
{
    let key = copy_key(alloc, key)?;
    let stands = KeptState::keep(alloc, stands)?;
    Ok(KeptLook {
        stamp,
        key,
        stands,
        waiting,
        handled,
    })
}
