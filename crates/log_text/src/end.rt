//! How the log of the lines so far ends, and what the next line tells there. It takes no memory.
ghost use Rattle.std.specs.Prelude.{◌≡◌, false, None, IfNone, IfSome};
ghost use Rattle.log_text.specs.Books.{named};
ghost use Rattle.log_text.specs.ItemLines.{AreWords};
ghost use Rattle.log_text.specs.Following.{IsTold, MayStandAt, begins_blank, end_after, last_item, last_with};
ghost use Rattle.log_text.specs.Shown.{item_shown};
ghost use Rattle.step_text.specs.Shown.{step_shown};
ghost use Rattle.log_text.specs.declared.end.Last.TheVariants.{Other};

use crate::book::NameBook;
use crate::deed_line::{DeedLine, find_deed};
use crate::item::ShownItem;
use crate::item_line::find_item;
use bench_item::MAX_ENTRIES;
use step_text::{ShownStep, find_step};

/// What one line tells.
#[derive(Drop)]
pub(crate) enum LogLine<'a> {
    Step(ShownStep<'a>),
    Item(ShownItem<'a>),
    Deed(DeedLine),
}

/// How a log ends, as far as the next line asks.
#[derive(Clone, Copy)]
pub(crate) enum Last {
    /// With a `work` below which nothing stands.
    Waiting,
    /// With a move.
    Moved,
    /// With another entry, or there is none.
    Other,
}

/// How many entries a log has, and how it ends.
#[derive(Clone, Copy)]
pub(crate) struct End {
    pub(crate) entries: usize,
    pub(crate) last: Last,
}

/// Whether a line begins with a blank.
fn begins_blank(line: &[u8]) -> bool
    ensures { result ≡ begins_blank line.now }
{
    match line {
        [] => false,
        [first, ..] => *first == b' ',
    }
}

/// How a log ends with the line of this step.
fn last_step(step: &ShownStep<'_>) -> Last
    ensures { result ≡ last_with (step_shown step.now) None }
{
    match step {
        ShownStep::Work(_) => Last::Waiting,
        _ => Last::Other,
    }
}

/// How a log ends with the line of this item.
fn last_item(item: &ShownItem<'_>) -> Last
    ensures { result ≡ last_item (item_shown item.now) }
{
    match item {
        ShownItem::TooBusy | ShownItem::Stale { .. } => Last::Other,
        ShownItem::Moved { .. } => Last::Moved,
    }
}

impl End {
    /// That of an empty log.
    pub(crate) fn new() -> End
        ensures { result ≡ record { entries = 0; last = Other } }
    {
        End {
            entries: 0,
            last: Last::Other,
        }
    }

    /// The step that a line tells, if it may.
    fn next_step<'a>(&mut self, names: &NameBook<'_>, line: &'a [u8]) -> Option<LogLine<'a>>
        requires { begins_blank line.now ≡ false }
        ensures told { IfSome result (λ told. IsTold (named names.now) self.old line.now told) }
        ensures end { IfSome result (λ told. self.new ≡ end_after self.old told) }
        ensures none { IfNone result (MayStandAt (named names.now) self.old line.now → ⊥) }
    {
        if self.entries >= MAX_ENTRIES {
            return None;
        }
        let step = find_step(names.laws, names.machines, line)?;
        self.entries += 1;
        self.last = last_step(&step);
        Some(LogLine::Step(step))
    }

    /// What one more line without its newline tells, if it may stand there.
    pub(crate) fn next<'a>(&mut self, names: &NameBook<'_>, line: &'a [u8]) -> Option<LogLine<'a>>
        ensures told { IfSome result (λ told. IsTold (named names.now) self.old line.now told) }
        ensures end { IfSome result (λ told. self.new ≡ end_after self.old told) }
        ensures none { IfNone result (AreWords (named names.now) → MayStandAt (named names.now) self.old line.now → ⊥) }
    {
        if !begins_blank(line) {
            return self.next_step(names, line);
        }
        match self.last {
            Last::Waiting => {
                let item = find_item(names, line)?;
                self.last = last_item(&item);
                Some(LogLine::Item(item))
            }
            Last::Moved => Some(LogLine::Deed(find_deed(line)?)),
            Last::Other => None,
        }
    }
}
