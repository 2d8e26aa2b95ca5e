//! A desk tells a machine an event.
ghost use Rattle.std.specs.Prelude.{◌≡◌, ◌<◌, None, IfOk, OnOk, OnErr};
ghost use Rattle.bench_item.specs.declared.step.Step.TheVariants as steps;
ghost use Rattle.bench_spec.specs.Items.{told_item};
ghost use Rattle.bench_spec.specs.Refusal.{refusal};
ghost use Rattle.bench_spec.specs.Taken.{Takes};

use crate::entries::bare_entry;
use crate::keeping::Core;
use crate::room::make_room;
use base_list::Octets;
use bench_item::{Item, KeptEvent, Key, MachineItem, Step};
use bench_log::KeptItem;
use bench_undo::Undo;
use std::alloc::{AllocError, Global};
use tab_step::Event;

/// What a desk tells a machine, as an item.
fn told_item(alloc: Global, key: &Key, event: &Event) -> Result<KeptItem, AllocError>
    ensures { IfOk result (λ kept. kept ≡ told_item key.now event.now) }
{
    let name = Octets::from_slice(alloc, key.name.as_slice())?;
    let session = Octets::from_slice(alloc, b"")?;
    let event = KeptEvent::keep(alloc, event)?;
    let item = Item::ToMachine(MachineItem {
        key: Key {
            role: key.role,
            name,
        },
        event,
        condition: None,
        session,
    });
    KeptItem::new(alloc, item)
}

impl Core {
    /// A desk tells a machine an event.
    pub(crate) fn tell(&mut self, desk: u32, key: Key, event: Event) -> Result<(), AllocError>
        requires { refusal self.old.settings self.old.log self.old.paused (steps.Told desk key event) ≡ None }
        ensures ok { OnOk result (Takes self.old self.new (steps.Told desk key event)) }
        ensures err { OnErr result (self.new ≡ self.old) }
    {
        let item = told_item(self.alloc, &key, &event)?;
        let entry = bare_entry(self.alloc, Step::Told { desk, key, event })?;
        make_room(&mut self.log, &mut self.undo)?;
        let outbox = &mut self.outboxes[desk as usize + 1];
        outbox.reserve(1)?;
        outbox.put(item);
        self.log.put(entry);
        self.undo.put(Undo::Told(desk));
        Ok(())
    }
}
