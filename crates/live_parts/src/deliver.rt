//! What is dropped to connections.
ghost use Rattle.std.specs.Prelude.{◌≡◌, ◌&&◌, None, true, IfErr, OnOk, OnErr, length, nat_le, unwrap_or};
ghost use Rattle.bench_item.specs.declared.item.Item.TheVariants.{ToLine};
ghost use Rattle.bench_item.specs.declared.limit.TheConstants.{MAX_LINES};
ghost use Rattle.bench_item.specs.declared.step.Step.TheVariants as steps;
ghost use Rattle.bench_log.specs.Targets.{deed_in, is_dial};
ghost use Rattle.live_parts.specs.Entries.{carried_entry};
ghost use Rattle.live_parts.specs.LineParts.{HasCome, IsAdded, drop_refusal, is_for_lines};

use crate::entries::drop_entry;
use crate::lines::LinesPart;
use bench_desk::CarryFault;
use bench_item::{Item, LineItem, Source};
use bench_line::Lines;
use bench_log::KeptItem;
use line_message::Listener;
use std::alloc::{AllocError, Global};

/// A deed comes to its connection.
fn come_deed(lines: &mut Lines<Listener>, item: &LineItem) -> Result<(), AllocError>
    ensures ok { OnOk result (HasCome lines.old.rules lines.old.lines lines.new.lines (ToLine item.now)) }
    ensures rules { lines.new.rules ≡ lines.old.rules }
    ensures err { OnErr result (lines.new ≡ lines.old) }
{
    match lines.deliver(item) {
        Ok(_change) => Ok(()),
        Err(_) => Err(AllocError),
    }
}

/// A dial comes to the connections, or one is given up.
fn come_dial(lines: &mut Lines<Listener>, item: &Item) -> Result<(), AllocError>
    requires lines { is_for_lines item.now ≡ true }
    requires dial { deed_in item.now ≡ None }
    ensures ok { OnOk result (HasCome lines.old.rules lines.old.lines lines.new.lines item.now) }
    ensures rules { lines.new.rules ≡ lines.old.rules }
    ensures err { OnErr result (lines.new ≡ lines.old) }
{
    match item {
        Item::Dial { peer, generation } => match lines.dial(*peer, *generation) {
            Ok(_line) => Ok(()),
            Err(_) => Err(AllocError),
        },
        Item::Undial { peer, generation } => match lines.undial(*peer, *generation) {
            Ok(_change) => Ok(()),
            Err(_) => Err(AllocError),
        },
        Item::ToLine(_) | Item::ToMachine(_) | Item::Arm { .. } | Item::Disarm { .. } => {
            unreachable!()
        }
    }
}

/// An item for the connections comes there. A deed is read as it is kept; of a dial the plain form is small.
fn come(alloc: Global, lines: &mut Lines<Listener>, item: &KeptItem) -> Result<(), AllocError>
    requires { is_for_lines item.now ≡ true }
    ensures ok { OnOk result (HasCome lines.old.rules lines.old.lines lines.new.lines item.now) }
    ensures rules { lines.new.rules ≡ lines.old.rules }
    ensures err { OnErr result (lines.new ≡ lines.old) }
{
    match item.deed() {
        Some(deed) => come_deed(lines, deed),
        None => {
            let plain = item.show(alloc)?;
            come_dial(lines, &plain)
        }
    }
}

impl LinesPart {
    // Whether there is no room for an item: it opens a connection, and there are as many as may be.
    fn lacks_room(&self, item: &KeptItem) -> bool
        ensures { result ≡ (is_dial item.now && nat_le MAX_LINES (length self.now.lines)) }
    {
        item.is_dial() && self.lines.is_full()
    }

    /// Drops an item of a source here, where it is for:
    /// a deed to a connection, a dial that opens one, or one that closes it. The entry shares it.
    pub fn drop_here(
        &mut self,
        source: Source,
        item: &KeptItem,
        stamp: u64,
    ) -> Result<(), CarryFault>
        requires { is_for_lines item.now ≡ true }
        ensures could { OnOk result (drop_refusal self.old item.now ≡ None) }
        ensures ok { OnOk result (IsAdded self.old self.new stamp (carried_entry (steps.Drop source) item.now)) }
        ensures fault { IfErr result (λ f. f ≡ unwrap_or (drop_refusal self.old item.now) CarryFault.NoMemory) }
        // A refused call changes nothing.
        ensures err { OnErr result (self.new ≡ self.old) }
    {
        if self.log.is_full() || self.lacks_room(item) {
            return Err(CarryFault::Full);
        }
        let entry = drop_entry(source, item)?;
        self.log.reserve()?;
        come(self.alloc, &mut self.lines, item)?;
        self.log.put(stamp, entry);
        Ok(())
    }
}
