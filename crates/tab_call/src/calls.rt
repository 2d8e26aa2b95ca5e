//! The callbacks of a role, added to a registry.

ghost use Rattle.std.specs.Prelude.{◌≡◌, ◌↔◌, IsTrue, map};
ghost use Rattle.tab_role.specs.Roles.{AreCallsOf, IsAnswer};

use crate::registry::Registry;
use crate::stored::{StoredAct, StoredGuard};
use base_list::NamedList;
use tab_law::{ActLaw, GuardLaw, LawBook};
use tab_role::{RegisterError, TakesRoles, is_full, is_taken};

/// The callbacks of a role: one for each of its guards and one for each of its actions, in the order of its laws.
#[derive(Drop)]
pub struct Calls {
    pub guards: Vec<StoredGuard>,
    pub acts: Vec<StoredAct>,
}

/// Whether guards are stored with the laws of these places, written alike.
fn are_guards_of(stored: &[StoredGuard], laws: &NamedList<GuardLaw>) -> bool
    ensures { IsTrue result ↔ (map (λ guard. guard.law) stored.now ≡ map (λ entry. entry.value) laws.now) }
{
    let entries = laws.as_slice();
    if stored.len() != entries.len() {
        return false;
    }
    for i in 0..stored.len() {
        if !stored[i].law.is_same(&entries[i].value) {
            return false;
        }
    }
    true
}

/// Whether actions are stored with the laws of these places, written alike.
fn are_acts_of(stored: &[StoredAct], laws: &NamedList<ActLaw>) -> bool
    ensures { IsTrue result ↔ (map (λ act. act.law) stored.now ≡ map (λ entry. entry.value) laws.now) }
{
    let entries = laws.as_slice();
    if stored.len() != entries.len() {
        return false;
    }
    for i in 0..stored.len() {
        if !stored[i].law.is_same(&entries[i].value) {
            return false;
        }
    }
    true
}

impl Calls {
    /// Whether these are the callbacks of a role.
    fn are_of(&self, role: &LawBook) -> bool
        ensures { IsTrue result ↔ AreCallsOf role.now (map (λ guard. guard.law) self.now.guards.items)
            (map (λ act. act.law) self.now.acts.items) }
    {
        are_guards_of(self.guards.as_slice(), role.guards())
            && are_acts_of(self.acts.as_slice(), role.acts())
    }
}

/// Why a role is not added to a book with these callbacks, memory aside.
fn check_role(role: &LawBook, there: &LawBook, calls: &Calls) -> Result<(), RegisterError>
    ensures { IsAnswer role.now there.now (map (λ guard. guard.law) calls.now.guards.items)
        (map (λ act. act.law) calls.now.acts.items) result }
{
    if !calls.are_of(role) {
        return Err(RegisterError::Laws);
    }
    if is_taken(role, there) {
        return Err(RegisterError::Taken);
    }
    if is_full(role, there) {
        return Err(RegisterError::Full);
    }
    Ok(())
}

impl TakesRoles for Registry {
    type Calls = Calls;

    ghost book = { λ registry. registry.book };

    ghost asked = { λ calls. map (λ guard. guard.law) calls.guards.items };

    ghost done = { λ calls. map (λ act. act.law) calls.acts.items };

    fn register(&mut self, laws: &LawBook, calls: Calls) -> Result<(), RegisterError> {
        check_role(laws, self.laws(), &calls)?;
        let Calls { guards, acts } = calls;
        // Every name is free and there is room, so what an addition lacks is memory.
        match self.add_role(laws, guards, acts) {
            Ok(()) => Ok(()),
            Err(_) => Err(RegisterError::NoMemory),
        }
    }
}
