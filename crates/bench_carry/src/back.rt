//! Steps are taken back, last first, by their records. That takes no memory.
ghost use Rattle.std.specs.Prelude.{◌≡◌, ◌≤◌, ◌-◌, List, Some, length, map, slice_get, take};
ghost use Rattle.acct_book.specs.Book.{Book, with_book};
ghost use Rattle.bench_line.specs.Change.{taken_back as line_taken_back};
ghost use Rattle.bench_line.specs.declared.change.Change.TheVariants as changes;
ghost use Rattle.bench_queue.specs.Inbox.{without_in};
ghost use Rattle.bench_queue.specs.Outbox.{OutboxState, undropped_one, unlifted_one, without_out};
ghost use Rattle.bench_shard.specs.View.{with_inbox, with_outbox};
ghost use Rattle.bench_shard.specs.Works.{taken_back as shard_taken_back};
ghost use Rattle.bench_views.specs.Behind.{changed_at};
ghost use Rattle.bench_views.specs.Pages.{taken_back_by};
ghost use Rattle.bench_views.specs.Stored.{Stored};
ghost use Rattle.bench_carry.specs.Dropped.{with_parts};
ghost use Rattle.bench_carry.specs.Parts.{IsTimerPlaced, MayUndo, books_of, numbers_of, parts_of};
ghost use Rattle.bench_carry.specs.Placed.{IsPlaced};
ghost use Rattle.bench_carry.specs.Seen.{views_of, with_seen};
ghost use Rattle.bench_carry.specs.Undone.{unarrived, undone, undropped, unlifted};

use acct_book::Page;
use bench_item::Source;
use bench_line::{Change, Lines};
use bench_queue::Outbox;
use bench_shard::{ShardRecord, ShardState};
use bench_undo::{Arrival, Undo};
use line_message::Listener;
use tick_wheel::Wheel;

// The item that came last to a shard never came.
fn unput_shard(shards: &mut [ShardState], place: usize)
    ensures { shards.new ≡ changed_at place (λ v. with_inbox v (without_in v.inbox 1)) shards.old }
{
    if place < shards.len() {
        shards[place].unput();
    }
}

// The item in a shard's hand waits again.
fn unlift_shard(shards: &mut [ShardState], place: usize)
    ensures { shards.new ≡ changed_at place (λ v. with_outbox v (unlifted_one v.outbox)) shards.old }
{
    if place < shards.len() {
        shards[place].unlift();
    }
}

// The item that a shard dropped last is in its hand again.
fn undrop_shard(shards: &mut [ShardState], place: usize)
    ensures { shards.new ≡ changed_at place (λ v. with_outbox v (undropped_one v.outbox)) shards.old }
{
    if place < shards.len() {
        shards[place].undrop();
    }
}

// The item that a shard handled last waits again.
fn unwork(shards: &mut [ShardState], place: usize, change: ShardRecord)
    ensures { shards.new ≡ changed_at place (shard_taken_back change) shards.old }
{
    if place < shards.len() {
        shards[place].take_back(change);
    }
}

// So many items that the outbox at a place got last were never put out.
fn unput_outbox(outboxes: &mut [Outbox], place: usize, count: usize)
    ensures { views_of outboxes.new ≡ changed_at place (λ v. without_out v count) (views_of outboxes.old) }
{
    if place < outboxes.len() {
        outboxes[place].unput(count);
    }
}

// The item in the hand of the outbox at a place waits again.
fn unlift_outbox(outboxes: &mut [Outbox], place: usize)
    ensures { views_of outboxes.new ≡ changed_at place unlifted_one (views_of outboxes.old) }
{
    if place < outboxes.len() {
        outboxes[place].unlift();
    }
}

// The item that was dropped last of the outbox at a place is in its hand again.
fn undrop_outbox(outboxes: &mut [Outbox], place: usize)
    ensures { views_of outboxes.new ≡ changed_at place undropped_one (views_of outboxes.old) }
{
    if place < outboxes.len() {
        outboxes[place].undrop();
    }
}

// One item fewer was dropped at a place.
fn uncount(carried: &mut [usize], place: usize)
    ensures { carried.new ≡ changed_at place (λ n. n - 1) carried.old }
{
    if place < carried.len() {
        carried[place] = carried[place].saturating_sub(1);
    }
}

// The last operations of a page, so many, were never booked.
fn unbook_page(page: &mut Page, count: usize)
    requires { count ≤ length page.old.book.journal }
    ensures { page.new ≡ with_book page.old (taken_back_by count page.old.book) page.old.room }
{
    for _ in 0..count {
        page.take_back();
    }
}

// The last operations of the page at a place, so many, were never booked.
fn unbook(pages: &mut [Page], place: usize, count: usize)
    requires { (book : Book) → slice_get (books_of pages.old) place ≡ Some book → count ≤ length book.journal }
    ensures books { books_of pages.new ≡ changed_at place (taken_back_by count) (books_of pages.old) }
    ensures numbers { numbers_of pages.new ≡ numbers_of pages.old }
{
    if place < pages.len() {
        unbook_page(&mut pages[place], count);
    }
}

// The last connection, and of it how many items were dropped, never came to be.
fn unopen(lines: &mut Lines<Listener>, carried: &mut Vec<usize>)
    ensures lines { lines.new.lines ≡ line_taken_back changes.Opened lines.old.lines }
    ensures carried { carried.new.items ≡ take (length carried.old.items - 1) carried.old.items }
    ensures rules { lines.new.rules ≡ lines.old.rules }
{
    lines.take_back(Change::Opened);
    let len = carried.len().saturating_sub(1);
    carried.truncate(len);
}

// The item that a source lifted last waits again. Those of a connection are taken back by its own record.
fn unlift(shards: &mut [ShardState], outboxes: &mut [Outbox], source: Source)
    ensures { (s : Stored)
        → with_seen s shards.new outboxes.new s.lines ≡ unlifted source (with_seen s shards.old outboxes.old s.lines) }
{
    match source {
        Source::Line(_) => {}
        Source::Shard(shard) => unlift_shard(shards, shard as usize),
        Source::Desk(desk) => unlift_outbox(outboxes, desk as usize + 1),
        Source::Clock => unlift_outbox(outboxes, 0),
    }
}

// The item that a source dropped last is in its hand again.
fn undrop(
    shards: &mut [ShardState],
    outboxes: &mut [Outbox],
    carried: &mut Vec<usize>,
    source: Source,
)
    ensures { (s : Stored) → with_parts s shards.new outboxes.new s.lines carried.new.items s.timers
        ≡ undropped source (with_parts s shards.old outboxes.old s.lines carried.old.items s.timers) }
{
    match source {
        Source::Line(line) => uncount(carried, (line as usize).saturating_sub(1)),
        Source::Shard(shard) => undrop_shard(shards, shard as usize),
        Source::Desk(desk) => undrop_outbox(outboxes, desk as usize + 1),
        Source::Clock => undrop_outbox(outboxes, 0),
    }
}

// What was dropped last never came where it is for.
fn unarrive(
    shards: &mut [ShardState],
    lines: &mut Lines<Listener>,
    carried: &mut Vec<usize>,
    wheel: &mut Wheel,
    arrival: Arrival,
)
    requires { IsTimerPlaced wheel.old arrival }
    ensures parts { (s : Stored) (outs : List OutboxState)
        → with_parts s shards.new outs lines.new.lines carried.new.items wheel.new.armed
        ≡ unarrived arrival (with_parts s shards.old outs lines.old.lines carried.old.items wheel.old.armed) }
    ensures rules { lines.new.rules ≡ lines.old.rules }
    ensures places { wheel.new.places ≡ wheel.old.places }
{
    match arrival {
        Arrival::Shard(shard) => unput_shard(shards, shard as usize),
        Arrival::Lines(change) => lines.take_back(change),
        Arrival::Opened => unopen(lines, carried),
        Arrival::Timer { machine, old } => wheel.restore(machine, old),
    }
}

/// Takes the last step back, by its record: the parts are what they were before it. Takes no memory.
pub fn undo_at(
    shards: &mut [ShardState],
    outboxes: &mut [Outbox],
    lines: &mut Lines<Listener>,
    carried: &mut Vec<usize>,
    pages: &mut [Page],
    wheel: &mut Wheel,
    undo: Undo,
)
    requires placed { IsPlaced wheel.old undo }
    requires booked { MayUndo undo (parts_of shards.old outboxes.old lines.old.lines
        carried.old.items pages.old wheel.old) }
    ensures undone { parts_of shards.new outboxes.new lines.new.lines carried.new.items pages.new wheel.new
        ≡ undone undo (parts_of shards.old outboxes.old lines.old.lines carried.old.items pages.old wheel.old) }
    // What no record says is as it was.
    ensures rules { lines.new.rules ≡ lines.old.rules }
    ensures numbers { numbers_of pages.new ≡ numbers_of pages.old }
    ensures places { wheel.new.places ≡ wheel.old.places }
    ensures paused { map (λ v. v.paused) shards.new ≡ map (λ v. v.paused) shards.old }
{
    match undo {
        Undo::Opened => unopen(lines, carried),
        Undo::Lines(change) => lines.take_back(change),
        Undo::Told(desk) => unput_outbox(outboxes, desk as usize + 1, 1),
        Undo::Fired {
            machine,
            old,
            posted,
        } => {
            wheel.restore(machine, old);
            unput_outbox(outboxes, 0, posted);
        }
        Undo::Lifted(source) => unlift(shards, outboxes, source),
        Undo::Dropped { source, arrival } => {
            undrop(shards, outboxes, carried, source);
            unarrive(shards, lines, carried, wheel, arrival);
        }
        Undo::Worked {
            shard,
            record,
            page,
            booked,
        } => {
            unbook(pages, page as usize, booked);
            unwork(shards, shard as usize, record);
        }
    }
}
