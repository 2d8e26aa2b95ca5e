//! What a line of an item tells.
ghost use Rattle.std.specs.Prelude.{◌≡◌, IfOk};
ghost use Rattle.log_text.specs.Shown.{item_shown, who_shown};

use bench_item::Key;
use std::alloc::{AllocError, Global};
use step_text::ShownKey;

/// Which machine an item was for, and the kind of its event.
#[derive(Drop)]
pub(crate) struct Who {
    pub(crate) key: Key,
    pub(crate) kind: u8,
}

/// What became of an item, as its line tells it.
#[derive(Drop)]
pub(crate) enum ItemLine {
    TooBusy,
    /// In a machine that stands in this state.
    Stale {
        who: Who,
        state: u8,
    },
    /// The states before and after, and the row.
    Moved {
        who: Who,
        before: u8,
        after: u8,
        row: Option<u16>,
    },
}

/// The same as `Who`, with the key as it stands in the line.
#[derive(Clone, Copy)]
pub(crate) struct ShownWho<'a> {
    pub(crate) key: ShownKey<'a>,
    pub(crate) kind: u8,
}

impl ShownWho<'_> {
    /// The same with a key of its own.
    fn copy(&self, alloc: Global) -> Result<Who, AllocError>
        ensures { IfOk result (λ who. who ≡ who_shown self.now) }
    {
        let key = self.key.copy(alloc)?;
        let kind = self.kind;
        Ok(Who { key, kind })
    }
}

/// The same as `ItemLine`, with the key as it stands in the line.
#[derive(Clone, Copy)]
pub(crate) enum ShownItem<'a> {
    TooBusy,
    Stale {
        who: ShownWho<'a>,
        state: u8,
    },
    Moved {
        who: ShownWho<'a>,
        before: u8,
        after: u8,
        row: Option<u16>,
    },
}

impl ShownItem<'_> {
    /// The same with a key of its own.
    pub(crate) fn copy(&self, alloc: Global) -> Result<ItemLine, AllocError>
        ensures { IfOk result (λ item. item ≡ item_shown self.now) }
    {
        Ok(match self {
            ShownItem::TooBusy => ItemLine::TooBusy,
            ShownItem::Stale { who, state } => {
                let who = who.copy(alloc)?;
                let state = *state;
                ItemLine::Stale { who, state }
            }
            ShownItem::Moved {
                who,
                before,
                after,
                row,
            } => {
                let who = who.copy(alloc)?;
                let (before, after, row) = (*before, *after, *row);
                ItemLine::Moved {
                    who,
                    before,
                    after,
                    row,
                }
            }
        })
    }
}
