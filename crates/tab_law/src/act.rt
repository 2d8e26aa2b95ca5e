//! What an action answers, and what it may by its law.
ghost use Rattle.std.specs.Prelude.{◌≡◌, ◌<◌, ◌++◌, ◌∷◌, [], ◌-◌, ◌↔◌, Option, IsTrue, length, replicate};
ghost use Rattle.std.specs.Option.{option_copied, option_to_list};
ghost use Rattle.tab_law.specs.declared.limits.TheConstants.{PLACES, MAX_EMITS};
ghost use Rattle.tab_law.specs.Acts.{is_change_of, is_emit, last_of, Allows, IsAtHighest};
ghost use Rattle.tab_law.specs.Acts.{arguments_of, deed_of, emitted, Permits, IsHigh};

use crate::law::{ActLaw, Change, Terms};
use crate::limits::{MAX_EMITS, PLACES};
use crate::scene::{ActDeeds, Deed, Scene};
use crate::value::{atom, term};

/// What an action answers: the registers after it, and its deeds. It holds room for four deeds, 2.6 kilobytes: a caller
/// that runs many actions keeps one, and has each answer written into it.
#[derive(Drop)]
pub struct Acted {
    pub regs: [u64; PLACES],
    pub deeds: ActDeeds,
}

impl Acted {
    /// Room for an answer: registers 0, no deeds.
    pub fn new() -> Acted
        ensures { result ≡ record { regs = replicate PLACES 0; deeds = [] } }
    {
        Acted {
            regs: [0; PLACES],
            deeds: ActDeeds::new(),
        }
    }
}

/// Whether a change is of that register.
fn is_of(change: &Change, register: usize) -> bool
    ensures { result ≡ is_change_of register change.now }
{
    match change {
        Change::Set(number, _) => *number as usize % PLACES == register,
        Change::Pick(number, _, _) => *number as usize % PLACES == register,
        Change::Emit(_, _) | Change::EmitIf(_, _, _) => false,
    }
}

/// The last change of a register.
fn last(law: &ActLaw, register: usize) -> Option<&Change>
    ensures { option_copied result ≡ last_of register law.now }
{
    law.changes()
        .iter()
        .rev()
        .find(|change| is_of(change, register))
}

/// Whether a register that held `old` may hold `new`.
fn allows(scene: &Scene, change: Option<&Change>, old: u64, new: u64) -> bool
    ensures { IsTrue result ↔ Allows scene.now (option_copied change.entry) old new }
{
    match change {
        None => new == old,
        Some(Change::Set(_, t)) => new == term(scene, &scene.regs, *t),
        Some(Change::Pick(_, low, high)) => {
            let low = term(scene, &scene.regs, *low);
            let high = term(scene, &scene.regs, *high);
            low.min(high) <= new && new <= high
        }
        Some(Change::Emit(_, _)) | Some(Change::EmitIf(_, _, _)) => new == old,
    }
}

/// Writes the registers with each Set done and each Pick at its high.
fn set_highest(law: &ActLaw, scene: &Scene, regs: &mut [u64; PLACES])
    ensures { IsAtHighest law.now scene.now regs.new }
{
    *regs = scene.regs;
    for change in law.changes() {
        match change {
            Change::Set(number, t) => {
                regs[*number as usize % PLACES] = term(scene, &scene.regs, *t);
            }
            Change::Pick(number, _, high) => {
                regs[*number as usize % PLACES] = term(scene, &scene.regs, *high);
            }
            Change::Emit(_, _) | Change::EmitIf(_, _, _) => {}
        }
    }
}

/// Writes the values of a deed's terms, and 0 behind them.
fn set_arguments(scene: &Scene, new: &[u64; PLACES], terms: &Terms, a: &mut [u64; PLACES])
    ensures { a.new ≡ arguments_of scene.now new.now terms.now }
{
    let terms = terms.as_slice();
    *a = [0; PLACES];
    for i in 0..terms.len() {
        a[i] = term(scene, new, terms[i]);
    }
}

/// Whether a change is an Emit, with a condition or without.
fn is_emit(change: &Change) -> bool
    ensures { result ≡ is_emit change.now }
{
    match change {
        Change::Set(_, _) | Change::Pick(_, _, _) => false,
        Change::Emit(_, _) | Change::EmitIf(_, _, _) => true,
    }
}

/// Adds the deed of that code and those terms.
fn add(scene: &Scene, new: &[u64; PLACES], code: u16, terms: &Terms, deeds: &mut ActDeeds)
    requires { length deeds.old < MAX_EMITS }
    ensures { deeds.new ≡ deeds.old ++ record { code = code; a = arguments_of scene.now new.now terms.now } ∷ [] }
{
    deeds.push_with(|deed: &mut Deed| {
        deed.code = code;
        set_arguments(scene, new, terms, &mut deed.a);
    });
}

/// Adds the deed that a change emits, if it emits one.
fn emit(scene: &Scene, new: &[u64; PLACES], change: &Change, deeds: &mut ActDeeds)
    requires { length deeds.old < MAX_EMITS }
    ensures { deeds.new ≡ deeds.old ++ option_to_list (deed_of scene.now new.now change.now) }
{
    match change {
        Change::Emit(code, terms) => add(scene, new, *code, terms, deeds),
        Change::EmitIf(test, code, terms) if atom(scene, new, *test) != 0 => {
            add(scene, new, *code, terms, deeds);
        }
        _ => {}
    }
}

/// Writes the deeds that a law emits where the action leaves the registers as `new`.
fn set_emitted(law: &ActLaw, scene: &Scene, new: &[u64; PLACES], deeds: &mut ActDeeds)
    ensures { deeds.new ≡ emitted law.now scene.now new.now }
{
    deeds.clear();
    let mut counted = 0;
    for change in law.changes() {
        if counted < MAX_EMITS && is_emit(change) {
            counted += 1;
            emit(scene, new, change, deeds);
        }
    }
}

/// The deeds that a law emits where the action leaves the registers as `new`.
pub fn emitted(law: &ActLaw, scene: &Scene, new: &[u64; PLACES]) -> ActDeeds
    ensures { result ≡ emitted law.now scene.now new.now }
{
    let mut deeds = ActDeeds::new();
    set_emitted(law, scene, new, &mut deeds);
    deeds
}

/// Whether two lists of deeds are the same.
fn are_same(deeds: &[Deed], others: &[Deed]) -> bool
    ensures { IsTrue result ↔ (deeds.now ≡ others.now) }
{
    deeds == others
}

/// Whether a law permits an action to leave these registers and these deeds.
pub fn permits(law: &ActLaw, scene: &Scene, regs: &[u64; PLACES], deeds: &[Deed]) -> bool
    ensures { IsTrue result ↔ Permits law.now scene.now regs.now deeds.now }
{
    for register in 0..PLACES {
        let change = last(law, register);
        if !allows(scene, change, scene.regs[register], regs[register]) {
            return false;
        }
    }
    are_same(deeds, emitted(law, scene, regs).as_slice())
}

/// Writes the permitted answer with each Pick at its high into room; what stood there is gone.
pub fn high_into(law: &ActLaw, scene: &Scene, room: &mut Acted)
    ensures permitted { Permits law.now scene.now room.new.regs room.new.deeds }
    ensures high { IsHigh law.now scene.now room.new.regs room.new.deeds }
{
    set_highest(law, scene, &mut room.regs);
    set_emitted(law, scene, &room.regs, &mut room.deeds);
}

/// The permitted answer with each Pick at its high. `high_into` does the same without new room.
pub fn high(law: &ActLaw, scene: &Scene) -> Acted
    ensures permitted { Permits law.now scene.now result.regs result.deeds }
    ensures high { IsHigh law.now scene.now result.regs result.deeds }
{
    let mut room = Acted::new();
    high_into(law, scene, &mut room);
    room
}
