//! A registry of callbacks under their names.
ghost use Rattle.std.specs.Prelude.{◌≡◌, ◌<◌, ◌+◌, ◌++◌, ◌∷◌, [], None, length, map};
ghost use Rattle.std.specs.Prelude.{take, OnOk, OnErr, IfErr, vec_len, vec_capacity};
ghost use Rattle.base_list.specs.Adding.{error_of};
ghost use Rattle.base_list.specs.Named.{refusal};
ghost use Rattle.base_list.specs.declared.error.AddError.TheVariants.{NoMemory};
ghost use Rattle.tab_law.specs.Books.{guard_answer, ActPermits};
ghost use Rattle.tab_role.specs.Roles.{AreCallsOf, joined};

use crate::adding::add_laws;
use crate::stored::{StoredAct, StoredGuard};
use base_list::{AddError, AddFault, Refused};
use std::alloc::Global;
use tab_law::{ActLaw, Acted, GuardLaw, LawBook, MAX_ACTIONS, MAX_GUARDS, MAX_KINDS, Scene};

/// Kinds of events, and callbacks of guards and of actions, each under its name. Only the last ones are ever
/// taken out, so a place stays that of its name. The book has each callback's law in the callback's place.
///
/// In: `add_kind`, `add_guard`, `add_act`. Out: `truncate`. Looks: `laws`, `ask`, `act`.
pub struct Registry {
    alloc: Global,
    pub book: LawBook,
    guards: Vec<StoredGuard>,
    acts: Vec<StoredAct>,
    ghost guards_kept: { map (λ stored. stored.law) guards.items ≡ map (λ entry. entry.value) book.guards },
    ghost acts_kept: { map (λ stored. stored.law) acts.items ≡ map (λ entry. entry.value) book.acts },
}

// A derived `drop` is proved anew, field by field, at each way out of each function that holds it; this one is a call.
impl Drop for Registry {
    fn drop(self) {
        let Registry {
            alloc: _,
            book,
            guards,
            acts,
        } = self;
    }
}

/// Makes room for one more callback, unless that is refused.
fn make_room<T>(refusal: Option<AddFault>, stored: &mut Vec<T>) -> Result<(), AddError>
    ensures free { OnOk result (refusal ≡ None) }
    ensures fault { IfErr result (λ e. e ≡ error_of refusal) }
    ensures stored { stored.new.items ≡ stored.old.items }
    ensures room { OnOk result (vec_len stored.new < vec_capacity stored.new) }
{
    if let Some(fault) = refusal {
        return Err(AddError::Fault(fault));
    }
    stored.try_reserve(1)?;
    Ok(())
}

/// Adds a copy of a guard's law to a book where nothing but memory stands against it.
fn add_guard_law(
    alloc: Global,
    book: &mut LawBook,
    name: &[u8],
    law: &GuardLaw,
) -> Result<(), AddError>
    requires { refusal MAX_GUARDS name.now book.old.guards ≡ None }
    ensures ok { OnOk result (book.new ≡ record book.old {
      guards = book.old.guards
          ++ record { name = name.now; value = law.now } ∷ [];
    }) }
    ensures err { IfErr result (λ e. (e ≡ NoMemory) × (book.new ≡ book.old)) }
{
    let law = law.copy(alloc)?;
    book.add_guard(name, law)?;
    Ok(())
}

/// Adds a copy of an action's law to a book where nothing but memory stands against it.
fn add_act_law(alloc: Global, book: &mut LawBook, name: &[u8], law: &ActLaw) -> Result<(), AddError>
    requires { refusal MAX_ACTIONS name.now book.old.acts ≡ None }
    ensures ok { OnOk result (book.new ≡ record book.old {
      acts = book.old.acts
          ++ record { name = name.now; value = law.now } ∷ [];
    }) }
    ensures err { IfErr result (λ e. (e ≡ NoMemory) × (book.new ≡ book.old)) }
{
    let law = law.copy(alloc)?;
    book.add_act(name, law)?;
    Ok(())
}

impl Registry {
    /// A registry without names. Takes no memory.
    pub fn new(alloc: Global) -> Registry
        ensures { result.book ≡ record { kinds = []; guards = []; acts = [] } }
    {
        Registry {
            alloc,
            book: LawBook::new(alloc),
            guards: Vec::new(alloc),
            acts: Vec::new(alloc),
        }
    }

    /// The laws of the callbacks, each in its callback's place, and the kinds.
    pub fn laws(&self) -> &LawBook
        ensures { result.now ≡ self.now.book }
    {
        &self.book
    }

    /// What the callback of the guard at a place answers: what its law says.
    pub fn ask(&self, place: usize, scene: &Scene) -> bool
        requires { place < length self.now.book.guards }
        ensures { result ≡ guard_answer self.now.book scene.now place }
    {
        self.guards[place].ask(scene)
    }

    /// Has the callback of the action at a place write its answer into room: something that its law permits. What stood
    /// there is gone.
    pub fn act(&self, place: usize, scene: &Scene, room: &mut Acted)
        requires { place < length self.now.book.acts }
        ensures { ActPermits self.now.book place scene.now room.new.regs room.new.deeds }
    {
        self.acts[place].act(scene, room);
    }

    /// Adds a kind of events.
    pub fn add_kind(&mut self, name: &[u8]) -> Result<(), AddError>
        ensures ok { OnOk result (self.new.book
            ≡ record self.old.book { kinds = self.old.book.kinds ++ record { name = name.now; value = tt } ∷ [] }) }
        ensures free { OnOk result (refusal MAX_KINDS name.now self.old.book.kinds ≡ None) }
        ensures fault { IfErr result (λ e. e ≡ error_of (refusal MAX_KINDS name.now self.old.book.kinds)) }
        ensures err { OnErr result (self.new.book ≡ self.old.book) }
    {
        self.book.add_kind(name)
    }

    /// Adds a guard's callback, or hands it back. `Taken` comes before `Full`, and both before want of memory.
    pub fn add_guard(&mut self, name: &[u8], guard: StoredGuard) -> Result<(), Refused<StoredGuard>>
        ensures ok { OnOk result (self.new.book
            ≡ record self.old.book {
              guards = self.old.book.guards
                  ++ record { name = name.now; value = guard.law } ∷ [];
            }) }
        ensures free { OnOk result (refusal MAX_GUARDS name.now self.old.book.guards ≡ None) }
        ensures fault { IfErr result (λ r. r.error ≡ error_of (refusal MAX_GUARDS name.now self.old.book.guards)) }
        ensures back { IfErr result (λ r. r.back ≡ guard) }
        ensures err { OnErr result (self.new.book ≡ self.old.book) }
    {
        let refusal = self.book.guards().refusal(MAX_GUARDS, name);
        if let Err(error) = make_room(refusal, &mut self.guards) {
            return Err(Refused { error, back: guard });
        }
        if let Err(error) = add_guard_law(self.alloc, &mut self.book, name, &guard.law) {
            return Err(Refused { error, back: guard });
        }
        match self.guards.push(guard) {
            Ok(()) => Ok(()),
            Err(_) => unreachable!(),
        }
    }

    /// Adds an action's callback, or hands it back. `Taken` comes before `Full`, and both before want of memory.
    pub fn add_act(&mut self, name: &[u8], act: StoredAct) -> Result<(), Refused<StoredAct>>
        ensures ok { OnOk result (self.new.book
            ≡ record self.old.book { acts = self.old.book.acts ++ record { name = name.now; value = act.law } ∷ [] }) }
        ensures free { OnOk result (refusal MAX_ACTIONS name.now self.old.book.acts ≡ None) }
        ensures fault { IfErr result (λ r. r.error ≡ error_of (refusal MAX_ACTIONS name.now self.old.book.acts)) }
        ensures back { IfErr result (λ r. r.back ≡ act) }
        ensures err { OnErr result (self.new.book ≡ self.old.book) }
    {
        let refusal = self.book.acts().refusal(MAX_ACTIONS, name);
        if let Err(error) = make_room(refusal, &mut self.acts) {
            return Err(Refused { error, back: act });
        }
        if let Err(error) = add_act_law(self.alloc, &mut self.book, name, &act.law) {
            return Err(Refused { error, back: act });
        }
        match self.acts.push(act) {
            Ok(()) => Ok(()),
            Err(_) => unreachable!(),
        }
    }

    /// Adds a role with its callbacks, whole or not at all.
    pub(crate) fn add_role(
        &mut self,
        role: &LawBook,
        mut guards: Vec<StoredGuard>,
        mut acts: Vec<StoredAct>,
    ) -> Result<(), AddError>
        requires { AreCallsOf role.now (map (λ guard. guard.law) guards.items) (map (λ act. act.law) acts.items) }
        ensures ok { OnOk result (self.new.book ≡ joined role.now self.old.book) }
        ensures err { OnErr result (self.new.book ≡ self.old.book) }
    {
        self.guards.try_reserve(guards.len())?;
        self.acts.try_reserve(acts.len())?;
        add_laws(self.alloc, &mut self.book, role)?;
        match (self.guards.append(&mut guards), self.acts.append(&mut acts)) {
            (Ok(()), Ok(())) => Ok(()),
            _ => unreachable!(),
        }
    }

    /// Keeps the first kinds, guards and actions, as many as these numbers say, and drops those behind them with their
    /// callbacks. Takes no memory.
    pub fn truncate(&mut self, kinds: usize, guards: usize, acts: usize)
        ensures { self.new.book ≡ record {
          kinds = take kinds self.old.book.kinds;
          guards = take guards self.old.book.guards;
          acts = take acts self.old.book.acts;
        } }
    {
        self.book.truncate(kinds, guards, acts);
        self.guards.truncate(guards);
        self.acts.truncate(acts);
    }
}
