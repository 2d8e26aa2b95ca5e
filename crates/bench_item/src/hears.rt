//! What messages mean to a connection.
ghost use Rattle.std.specs.Prelude.{◌≡◌, ◌++◌, ℕ, List, Option, IfOk, OnOk, OnErr};
ghost use Rattle.bench_item.specs.declared.hears.Heard.{Heard};
ghost use Rattle.bench_item.specs.declared.hears.Turn.{Turn};
ghost use Rattle.bench_item.specs.declared.hears.LineEvent.{LineEvent};
ghost use Rattle.bench_item.specs.declared.item.Item.{Item};
ghost use Rattle.bench_item.specs.declared.item.LineItem.{LineItem};

use crate::item::{Item, LineItem};
use crate::opening::Opening;
use base_list::Octets;
use std::alloc::{AllocError, Global};

/// A connection as a message or an event finds it.
#[derive(Clone, Copy)]
pub struct Heard {
    /// Its number, from 1.
    pub line: u64,
    pub opening: Opening,
    /// Once it is greeted (RFC 6733 section 5.3), the number of the peer's machine.
    pub greeted: Option<u64>,
}

/// What a connection makes of a message.
#[derive(Drop)]
pub struct Turn {
    /// What it puts out.
    pub post: Option<Item>,
    /// What it answers by itself, in octets; mostly nothing.
    pub answer: Octets,
    /// Where the message greets it: the number of the peer's machine. What was greeted stays so.
    pub greeted: Option<u64>,
    /// Whether it closes behind the message.
    pub closes: bool,
}

/// What happens to a connection but messages.
#[derive(Clone, Copy)]
pub enum LineEvent {
    /// Its dial was acknowledged.
    Acknowledged,
    /// It was lost while it was being dialled.
    Refused,
    /// It was lost while it was open, or its octets are no messages any more.
    Disconnected,
}

/// Who knows what messages mean: this node's identity and its peers, by whatever rules.
pub trait Hears: Drop {
    /// What a connection makes of the octets of a message.
    ghost heard: { Self → Heard → List ℕ → Turn };

    /// What it puts out at an event.
    ghost turned: { Self → Heard → LineEvent → Option Item };

    /// The octets of the message that a deed sends, none where it sends none.
    ghost octets_of: { Self → LineItem → List ℕ };

    /// What a connection makes of a message: its octets, whole.
    fn on_message(&self, alloc: Global, at: Heard, octets: &[u8]) -> Result<Turn, AllocError>
        ensures { IfOk result (λ turn. turn ≡ heard self.now at octets.now) };

    /// What it puts out at an event.
    fn on_event(
        &self,
        alloc: Global,
        at: Heard,
        event: LineEvent,
    ) -> Result<Option<Item>, AllocError>
        ensures { IfOk result (λ post. post ≡ turned self.now at event) };

    /// Puts the octets of the message that a deed sends. A refused call leaves the octets as they were.
    fn write(&self, alloc: Global, item: &LineItem, out: &mut Vec<u8>) -> Result<(), AllocError>
        ensures ok { OnOk result (out.new.items ≡ out.old.items ++ octets_of self.now item.now) }
        ensures err { OnErr result (out.new.items ≡ out.old.items) };
}
