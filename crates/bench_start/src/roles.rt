//! The tables of all roles.
ghost use Rattle.std.specs.Prelude.{◌≡◌, [], IfOk};
ghost use Rattle.bench_move.specs.Tables.{all_missing};

use bench_move::Roles;
use std::alloc::{AllocError, Global};
use tab_law::LawBook;
use tab_step::Unbound;
use tab_text::Table;

/// The roles of tables whose names are those of the laws, or want of memory.
pub fn open_roles(
    alloc: Global,
    peer: Table,
    client: Table,
    server: Table,
    laws: &LawBook,
) -> Result<Roles, AllocError>
    requires { all_missing laws.now peer client server ≡ [] }
    ensures { IfOk result (λ roles. roles ≡ record { laws = laws.now; peer = peer; client = client; server = server }) }
{
    match Roles::new(alloc, peer, client, server, laws) {
        Ok(roles) => Ok(roles),
        Err(Unbound::NoMemory) => Err(AllocError),
        Err(Unbound::Missing(_)) => unreachable!(),
    }
}
