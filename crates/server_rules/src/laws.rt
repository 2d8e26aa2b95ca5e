//! The laws of a server's machine, and a registry that takes them.

ghost use Rattle.std.specs.Prelude.{◌≡◌, IfOk, OnOk, OnErr};
ghost use Rattle.tab_role.specs.Roles.{joined};
ghost use Rattle.tab_role.specs.Registering.{IsToldOf};
ghost use Rattle.server_rules.specs.Laws.{server_laws};

use crate::entries::{ACTS, GUARDS};
use crate::kind::NAMES;
use std::alloc::{AllocError, Global};
use tab_law::LawBook;
use tab_role::{RegisterError, TakesRoles, laws_of};

/// The kinds of events of a server's machine and the laws of its guards and actions,
/// in the order of their first appearance in the table (RFC 8506 section 7).
pub fn server_laws(alloc: Global) -> Result<LawBook, AllocError>
    ensures { IfOk result (λ book. book ≡ server_laws) }
{
    laws_of(alloc, &NAMES, &GUARDS, &ACTS)
}

/// Adds the role of a server's machine to a registry, with the callbacks of its laws in their order, all or none.
/// Want of memory may come before any other refusal, since the laws that the callbacks are compared with take memory.
pub fn register_server<R: TakesRoles>(
    alloc: Global,
    registry: &mut R,
    calls: R::Calls,
) -> Result<(), RegisterError>
where
    R::Calls: Drop,
    ensures ok { OnOk result (R.book registry.new ≡ joined server_laws (R.book registry.old)) }
    ensures answer { IsToldOf server_laws (R.book registry.old) (R.asked calls) (R.done calls) result }
    ensures err { OnErr result (R.book registry.new ≡ R.book registry.old) }
{
    let Ok(laws) = server_laws(alloc) else {
        return Err(RegisterError::NoMemory);
    };
    registry.register(&laws, calls)
}
