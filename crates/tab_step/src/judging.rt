//! Whether what stands in a log is a step, by the laws alone: no callback is asked.

ghost use Rattle.std.specs.Prelude.{◌≡◌, ◌↔◌, ◌<◌, ◌++◌, ◌∷◌, [], List, All};
ghost use Rattle.std.specs.Prelude.{IsTrue, IfSome, IfNone, length, slice_index_or};
ghost use Rattle.tab_law.specs.Acts.{Permits};
ghost use Rattle.tab_law.specs.Books.{ActPermits, NamedPermits};
ghost use Rattle.tab_law.specs.declared.scene.Deed.{Deed};
ghost use Rattle.tab_text.specs.declared.row.Row.{Row};
ghost use Rattle.tab_step.specs.Moves.{end_of, unlisted, Runs, Stays, MovesAlong, IsStep};
ghost use Rattle.tab_step.specs.Bind.{IsBoundTo};

use crate::bound::Bound;
use crate::machine::{Event, MachineState, Stepped};
use crate::taking::first_row;
use base_codes::DeedCode;
use tab_law::{ActLaw, Deed, LawBook, PLACES, Scene, emitted, permits};

/// The deeds behind those of an action, where its law permits it to leave these registers and those deeds.
fn deeds_behind<'a>(
    law: &ActLaw,
    scene: &Scene,
    after: &[u64; PLACES],
    deeds: &'a [Deed],
) -> Option<&'a [Deed]>
    ensures some { IfSome result (λ rest. (own : List Deed) × Permits law.now scene.now after.now own
        × (deeds.now ≡ own ++ rest.now)) }
    ensures none { IfNone result ((own rest : List Deed) → Permits law.now scene.now after.now own
        → deeds.now ≡ own ++ rest → ⊥) }
{
    let count = emitted(law, scene, after).len();
    if deeds.len() < count {
        return None;
    }
    let own = &deeds[..count];
    if permits(law, scene, after, own) {
        Some(&deeds[count..])
    } else {
        None
    }
}

/// Whether actions may leave these registers, one after another, and these deeds.
fn may_run(
    book: &LawBook,
    actions: &[u8],
    before: &[u64; PLACES],
    facts: &[u64; PLACES],
    chain: &[[u64; PLACES]],
    deeds: &[Deed],
) -> bool
    requires { All (λ place. place < length book.now.acts) actions.now }
    ensures { IsTrue result ↔ Runs (ActPermits book.now) facts.now actions.now before.now chain.now deeds.now }
{
    if chain.len() != actions.len() {
        return false;
    }
    let mut scene = Scene {
        regs: *before,
        facts: *facts,
    };
    let mut rest = deeds;
    for i in 0..actions.len() {
        let law = &book.acts().at(actions[i] as usize).value;
        match deeds_behind(law, &scene, &chain[i], rest) {
            Some(behind) => rest = behind,
            None => return false,
        }
        scene.regs = chain[i];
    }
    rest.is_empty()
}

/// The last member of a chain, or what stood before it.
fn end_of<'a>(before: &'a [u64; PLACES], chain: &'a [[u64; PLACES]]) -> &'a [u64; PLACES]
    ensures { result.now ≡ end_of before.now chain.now }
{
    if chain.is_empty() {
        before
    } else {
        &chain[chain.len() - 1]
    }
}

/// Whether registers are the end of a chain.
fn is_end(before: &[u64; PLACES], chain: &[[u64; PLACES]], regs: &[u64; PLACES]) -> bool
    ensures { IsTrue result ↔ (regs.now ≡ end_of before.now chain.now) }
{
    *regs == *end_of(before, chain)
}

/// Whether a deed is Unlisted with those facts.
fn is_unlisted(deed: &Deed, facts: &[u64; PLACES]) -> bool
    ensures { IsTrue result ↔ (deed.now ≡ unlisted facts.now) }
{
    deed.code == DeedCode::Unlisted.number() && deed.a == *facts
}

/// Whether that is the only deed.
fn only_unlisted(deeds: &[Deed], facts: &[u64; PLACES]) -> bool
    ensures { IsTrue result ↔ (deeds.now ≡ unlisted facts.now ∷ []) }
{
    match deeds {
        [deed] => is_unlisted(deed, facts),
        _ => false,
    }
}

/// Whether two machines stand alike.
fn are_same(machine: &MachineState, other: &MachineState) -> bool
    ensures { IsTrue result ↔ (machine.now ≡ other.now) }
{
    machine.state == other.state && machine.regs == other.regs
}

/// Whether a step leaves what an event leaves that no row takes.
fn stays(machine: &MachineState, event: &Event, stepped: &Stepped) -> bool
    ensures { IsTrue result ↔ Stays machine.now event.now stepped.now.after stepped.now.chain stepped.now.deeds }
{
    are_same(&stepped.after, machine)
        && stepped.chain.is_empty()
        && only_unlisted(stepped.deeds.as_slice(), &event.facts)
}

/// Whether a step leaves what the row of that number permits.
fn moves_along(
    bound: &Bound,
    book: &LawBook,
    number: usize,
    machine: &MachineState,
    event: &Event,
    stepped: &Stepped,
) -> bool
    requires bound { IsBoundTo bound.now book.now }
    requires in_rows { number < length bound.now.table.rows }
    ensures { (row : Row) → IsTrue result
        ↔ MovesAlong (NamedPermits book.now) bound.now.table machine.now event.now
        (slice_index_or bound.now.table.rows number row) stepped.now.after stepped.now.chain stepped.now.deeds }
{
    let row = &bound.table().rows()[number];
    let actions = bound.places()[number].actions.as_slice();
    let chain = stepped.chain.as_slice();
    let deeds = stepped.deeds.as_slice();
    if stepped.after.state != row.next {
        return false;
    }
    if !may_run(book, actions, &machine.regs, &event.facts, chain, deeds) {
        return false;
    }
    is_end(&machine.regs, chain, &stepped.after.regs)
}

/// Whether a machine may take this step at an event: its row is the first that takes the event, and its actions'
/// laws permit the chain and the deeds.
pub fn is_step(
    bound: &Bound,
    book: &LawBook,
    machine: &MachineState,
    event: &Event,
    stepped: &Stepped,
) -> bool
    requires { IsBoundTo bound.now book.now }
    ensures { IsTrue result ↔ IsStep (NamedPermits book.now) bound.now.table book.now machine.now event.now
        stepped.now }
{
    let scene = Scene {
        regs: machine.regs,
        facts: event.facts,
    };
    match first_row(bound, book, None, machine.state, event.kind, &scene) {
        None => match stepped.row {
            None => stays(machine, event, stepped),
            Some(_) => false,
        },
        Some(number) => match stepped.row {
            None => false,
            Some(taken) => {
                if taken as usize != number {
                    return false;
                }
                moves_along(bound, book, number, machine, event, stepped)
            }
        },
    }
}
