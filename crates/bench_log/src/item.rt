//! Items as the log keeps them.
ghost use Rattle.std.specs.Prelude.{◌≡◌, IfOk, option_copied};
ghost use Rattle.bench_item.specs.declared.item.Item.TheVariants.{ToMachine, ToLine};
ghost use Rattle.bench_log.specs.Twins.{item_of, line_item_of};
ghost use Rattle.bench_log.specs.Targets.{deed_in, event_in, is_dial, key_for, order_in};

use crate::state::copy_key;
use bench_item::{Item, Key, LineItem, MachineItem};
use std::alloc::{AllocError, Global};
use std::marker::Model;
use std::sync::Arc;

/// An event on its way to a machine, in memory once: its copies share it. A contract sees the plain item.
pub struct KeptMachineItem {
    form: Arc<MachineItem>,
}

// A derived `drop` is proved anew in each crate that holds such an item; this one is a call.
impl Drop for KeptMachineItem {
    fn drop(self) {
        let KeptMachineItem { form } = self;
    }
}

impl Model for KeptMachineItem {
    ghost use Rattle.bench_item.specs.declared.item.MachineItem.{MachineItem};

    ghost Value = { MachineItem };

    ghost view = { λ k. k.form.value };
}

/// The same item in memory of its own.
fn copy_machine_item(alloc: Global, plain: &MachineItem) -> Result<MachineItem, AllocError>
    ensures { IfOk result (λ copy. copy ≡ plain.now) }
{
    let key = copy_key(alloc, &plain.key)?;
    let event = plain.event.copy(alloc)?;
    let session = plain.session.copy(alloc)?;
    Ok(MachineItem {
        key,
        event,
        condition: plain.condition,
        session,
    })
}

impl KeptMachineItem {
    /// Keeps an item that is given away.
    pub fn new(alloc: Global, plain: MachineItem) -> Result<KeptMachineItem, AllocError>
        ensures { IfOk result (λ kept. kept ≡ plain) }
    {
        Ok(KeptMachineItem {
            form: Arc::new(alloc, plain)?,
        })
    }

    /// Keeps an item.
    pub fn keep(alloc: Global, plain: &MachineItem) -> Result<KeptMachineItem, AllocError>
        ensures { IfOk result (λ kept. kept ≡ plain.now) }
    {
        let plain = copy_machine_item(alloc, plain)?;
        KeptMachineItem::new(alloc, plain)
    }

    /// The item. Takes no memory.
    pub fn plain(&self) -> &MachineItem
        ensures { result.now ≡ self.now }
    {
        &self.form
    }

    /// The item in memory of its own.
    pub fn show(&self, alloc: Global) -> Result<MachineItem, AllocError>
        ensures { IfOk result (λ plain. plain ≡ self.now) }
    {
        copy_machine_item(alloc, &self.form)
    }

    /// The same item, in the same memory.
    pub fn copy(&self) -> Result<KeptMachineItem, AllocError>
        ensures { IfOk result (λ copy. copy ≡ self.now) }
    {
        Ok(KeptMachineItem {
            form: Arc::try_clone(&self.form)?,
        })
    }

    /// The machine that it is for. Takes no memory.
    pub fn key(&self) -> &Key
        ensures { result.now ≡ self.now.key }
    {
        &self.form.key
    }
}

/// A deed on its way to a connection, in memory once.
#[derive(Drop)]
pub(crate) struct KeptLineItem {
    form: Arc<LineItem>,
}

/// The same item in memory of its own.
fn copy_line_item(alloc: Global, plain: &LineItem) -> Result<LineItem, AllocError>
    ensures { IfOk result (λ copy. copy ≡ plain.now) }
{
    let deed = plain.deed.copy(alloc)?;
    let session = plain.session.copy(alloc)?;
    Ok(LineItem {
        line: plain.line,
        deed,
        session,
    })
}

impl KeptLineItem {
    fn new(alloc: Global, plain: LineItem) -> Result<KeptLineItem, AllocError>
        ensures { IfOk result (λ kept. line_item_of kept ≡ plain) }
    {
        Ok(KeptLineItem {
            form: Arc::new(alloc, plain)?,
        })
    }

    fn plain(&self) -> &LineItem
        ensures { result.now ≡ line_item_of self.now }
    {
        &self.form
    }

    fn copy(&self) -> Result<KeptLineItem, AllocError>
        ensures { IfOk result (λ copy. line_item_of copy ≡ line_item_of self.now) }
    {
        Ok(KeptLineItem {
            form: Arc::try_clone(&self.form)?,
        })
    }
}

/// What is on its way from a source: an item of each form.
#[derive(Drop)]
pub(crate) enum ItemForm {
    ToMachine(KeptMachineItem),
    ToLine(KeptLineItem),
    Dial {
        peer: u64,
        generation: u64,
    },
    Undial {
        peer: u64,
        generation: u64,
    },
    Arm {
        machine: u64,
        generation: u64,
        ticks: u64,
    },
    Disarm {
        machine: u64,
    },
}

impl ItemForm {
    fn new(alloc: Global, plain: Item) -> Result<ItemForm, AllocError>
        ensures { IfOk result (λ kept. item_of kept ≡ plain) }
    {
        Ok(match plain {
            Item::ToMachine(item) => ItemForm::ToMachine(KeptMachineItem::new(alloc, item)?),
            Item::ToLine(item) => ItemForm::ToLine(KeptLineItem::new(alloc, item)?),
            Item::Dial { peer, generation } => ItemForm::Dial { peer, generation },
            Item::Undial { peer, generation } => ItemForm::Undial { peer, generation },
            Item::Arm {
                machine,
                generation,
                ticks,
            } => ItemForm::Arm {
                machine,
                generation,
                ticks,
            },
            Item::Disarm { machine } => ItemForm::Disarm { machine },
        })
    }

    fn show(&self, alloc: Global) -> Result<Item, AllocError>
        ensures { IfOk result (λ plain. plain ≡ item_of self.now) }
    {
        Ok(match self {
            ItemForm::ToMachine(item) => Item::ToMachine(item.show(alloc)?),
            ItemForm::ToLine(item) => Item::ToLine(copy_line_item(alloc, item.plain())?),
            ItemForm::Dial { peer, generation } => Item::Dial {
                peer: *peer,
                generation: *generation,
            },
            ItemForm::Undial { peer, generation } => Item::Undial {
                peer: *peer,
                generation: *generation,
            },
            ItemForm::Arm {
                machine,
                generation,
                ticks,
            } => Item::Arm {
                machine: *machine,
                generation: *generation,
                ticks: *ticks,
            },
            ItemForm::Disarm { machine } => Item::Disarm { machine: *machine },
        })
    }

    fn copy(&self) -> Result<ItemForm, AllocError>
        ensures { IfOk result (λ copy. item_of copy ≡ item_of self.now) }
    {
        Ok(match self {
            ItemForm::ToMachine(item) => ItemForm::ToMachine(item.copy()?),
            ItemForm::ToLine(item) => ItemForm::ToLine(item.copy()?),
            ItemForm::Dial { peer, generation } => ItemForm::Dial {
                peer: *peer,
                generation: *generation,
            },
            ItemForm::Undial { peer, generation } => ItemForm::Undial {
                peer: *peer,
                generation: *generation,
            },
            ItemForm::Arm {
                machine,
                generation,
                ticks,
            } => ItemForm::Arm {
                machine: *machine,
                generation: *generation,
                ticks: *ticks,
            },
            ItemForm::Disarm { machine } => ItemForm::Disarm { machine: *machine },
        })
    }
}

/// What is on its way from a source: an event or a deed in memory once. A contract sees the plain item.
pub struct KeptItem {
    form: ItemForm,
}

impl Drop for KeptItem {
    fn drop(self) {
        let KeptItem { form } = self;
    }
}

impl Model for KeptItem {
    ghost use Rattle.bench_item.specs.declared.item.Item.{Item};

    ghost Value = { Item };

    ghost use Rattle.bench_log.specs.Twins.{item_of};

    ghost view = { λ k. item_of k.form };
}

/// The same item in memory of its own.
fn copy_item(alloc: Global, plain: &Item) -> Result<Item, AllocError>
    ensures { IfOk result (λ copy. copy ≡ plain.now) }
{
    Ok(match plain {
        Item::ToMachine(item) => Item::ToMachine(copy_machine_item(alloc, item)?),
        Item::ToLine(item) => Item::ToLine(copy_line_item(alloc, item)?),
        Item::Dial { peer, generation } => Item::Dial {
            peer: *peer,
            generation: *generation,
        },
        Item::Undial { peer, generation } => Item::Undial {
            peer: *peer,
            generation: *generation,
        },
        Item::Arm {
            machine,
            generation,
            ticks,
        } => Item::Arm {
            machine: *machine,
            generation: *generation,
            ticks: *ticks,
        },
        Item::Disarm { machine } => Item::Disarm { machine: *machine },
    })
}

impl KeptItem {
    /// Keeps an item that is given away.
    pub fn new(alloc: Global, plain: Item) -> Result<KeptItem, AllocError>
        ensures { IfOk result (λ kept. kept ≡ plain) }
    {
        let form = ItemForm::new(alloc, plain)?;
        Ok(KeptItem { form })
    }

    /// Keeps an item.
    pub fn keep(alloc: Global, plain: &Item) -> Result<KeptItem, AllocError>
        ensures { IfOk result (λ kept. kept ≡ plain.now) }
    {
        let plain = copy_item(alloc, plain)?;
        KeptItem::new(alloc, plain)
    }

    /// The item in memory of its own.
    pub fn show(&self, alloc: Global) -> Result<Item, AllocError>
        ensures { IfOk result (λ plain. plain ≡ self.now) }
    {
        self.form.show(alloc)
    }

    /// An event on its way to a machine as an item. Takes no memory.
    pub fn of_event(event: KeptMachineItem) -> KeptItem
        ensures { result ≡ ToMachine event }
    {
        KeptItem {
            form: ItemForm::ToMachine(event),
        }
    }

    /// The same item, in the same memory.
    pub fn copy(&self) -> Result<KeptItem, AllocError>
        ensures { IfOk result (λ copy. copy ≡ self.now) }
    {
        let form = self.form.copy()?;
        Ok(KeptItem { form })
    }

    /// The event that is on its way, if it is for a machine. Takes no memory.
    pub fn event(&self) -> Option<&KeptMachineItem>
        ensures { option_copied result ≡ event_in self.now }
    {
        match &self.form {
            ItemForm::ToMachine(item) => Some(item),
            _ => None,
        }
    }

    /// The deed that is on its way, if it is for a connection. Takes no memory.
    pub fn deed(&self) -> Option<&LineItem>
        ensures { option_copied result ≡ deed_in self.now }
    {
        match &self.form {
            ItemForm::ToLine(item) => Some(item.plain()),
            _ => None,
        }
    }

    /// The machine that it is for, if it is for one. Takes no memory.
    pub fn key(&self) -> Option<&Key>
        ensures { option_copied result ≡ key_for self.now }
    {
        match &self.form {
            ItemForm::ToMachine(item) => Some(item.key()),
            _ => None,
        }
    }

    /// The item, if it is for no machine and no connection: a dial, one given up, or what arms or disarms a timer. Takes
    /// no memory.
    pub fn order(&self) -> Option<Item>
        ensures { result ≡ order_in self.now }
    {
        match &self.form {
            ItemForm::ToMachine(_) | ItemForm::ToLine(_) => None,
            ItemForm::Dial { peer, generation } => Some(Item::Dial {
                peer: *peer,
                generation: *generation,
            }),
            ItemForm::Undial { peer, generation } => Some(Item::Undial {
                peer: *peer,
                generation: *generation,
            }),
            ItemForm::Arm {
                machine,
                generation,
                ticks,
            } => Some(Item::Arm {
                machine: *machine,
                generation: *generation,
                ticks: *ticks,
            }),
            ItemForm::Disarm { machine } => Some(Item::Disarm { machine: *machine }),
        }
    }

    /// Whether it opens a connection. Takes no memory.
    pub fn is_dial(&self) -> bool
        ensures { result ≡ is_dial self.now }
    {
        match &self.form {
            ItemForm::Dial { .. } => true,
            _ => false,
        }
    }
}
