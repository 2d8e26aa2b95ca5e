//! What a role is to a registry, and when it may be added.

ghost use Rattle.std.specs.Prelude.{◌≡◌, ◌≤◌, OnOk, OnErr, List, length};
ghost use Rattle.tab_law.specs.Books.{Laws};
ghost use Rattle.tab_law.specs.declared.law.Test.{Test};
ghost use Rattle.tab_law.specs.declared.law.Change.{Change};
ghost use Rattle.tab_role.specs.Roles.{is_any_taken, is_taken, is_over, is_full, joined, IsAnswer};

use crate::error::RegisterError;
use base_list::NamedList;
use tab_law::{LawBook, MAX_ACTIONS, MAX_GUARDS, MAX_KINDS};

/// A registry of callbacks, to which a role is added whole. `book` is what it holds, without the callbacks; `asked` and
/// `done` are the laws that the callbacks for guards and for actions are stored with. A library that brings a role is
/// written over this trait, not over a type that holds closures.
pub trait TakesRoles {
    /// The callbacks of one role, in the order of its laws.
    type Calls;

    ghost book: { Self → Laws };

    ghost asked: { Self.Calls → List (List Test) };

    ghost done: { Self.Calls → List (List Change) };

    /// Adds a role: its kinds, guards and actions behind those that are there, in their order, each guard and action
    /// with its callback. All or none: a refused call leaves the registry as it was, and drops the callbacks.
    fn register(&mut self, laws: &LawBook, calls: Self::Calls) -> Result<(), RegisterError>
        ensures ok { OnOk result (book self.new ≡ joined laws.now (book self.old)) }
        ensures answer { IsAnswer laws.now (book self.old) (asked calls) (done calls) result }
        ensures err { OnErr result (book self.new ≡ book self.old) };
}

/// Whether a name of a list is there already.
fn is_any_taken<T: Drop>(more: &NamedList<T>, there: &NamedList<T>) -> bool
    ensures { result ≡ is_any_taken more.now there.now }
{
    more.as_slice()
        .iter()
        .any(|entry| there.find(entry.name.as_slice()).is_some())
}

/// Whether a name of a role is in a book already, in its list.
pub fn is_taken(role: &LawBook, there: &LawBook) -> bool
    ensures { result ≡ is_taken role.now there.now }
{
    is_any_taken(role.kinds(), there.kinds())
        || is_any_taken(role.guards(), there.guards())
        || is_any_taken(role.acts(), there.acts())
}

/// Whether a list with more at its end would pass a limit.
fn is_over<T: Drop>(limit: usize, more: &NamedList<T>, there: &NamedList<T>) -> bool
    requires { length there.now ≤ limit }
    ensures { result ≡ is_over limit more.now there.now }
{
    limit - there.len() < more.len()
}

/// Whether a list of a book would pass its limit with a role behind it.
pub fn is_full(role: &LawBook, there: &LawBook) -> bool
    ensures { result ≡ is_full role.now there.now }
{
    there.known();
    is_over(MAX_KINDS, role.kinds(), there.kinds())
        || is_over(MAX_GUARDS, role.guards(), there.guards())
        || is_over(MAX_ACTIONS, role.acts(), there.acts())
}
