//! The shipped roles.
ghost use Rattle.std.specs.Prelude.{◌≡◌, ◌++◌, IfOk, OnOk, option_map};
ghost use Rattle.tab_role.specs.Roles.{joined};
ghost use Rattle.role_tables.specs.Roles.{all_laws, no_laws, table_named};

use crate::client::CLIENT_TABLE;
use crate::peer::PEER_TABLE;
use crate::server::SERVER_TABLE;
use base_list::AddError;
use client_rules::client_laws;
use peer_rules::peer_laws;
use server_rules::server_laws;
use std::alloc::{AllocError, Global};
use tab_law::LawBook;

/// The names of the roles.
pub const ROLE_NAMES: &str = "peer, client, server";

/// The text of the table of the role with that name.
#[tactic(auto, unfolding(crate::specs::Roles::table_named))]
pub fn table_named(name: &str) -> Option<&'static str>
    ensures { option_map (λ table. table.now) result ≡ table_named name.now }
{
    match name {
        "peer" => Some(PEER_TABLE),
        "client" => Some(CLIENT_TABLE),
        "server" => Some(SERVER_TABLE),
        _ => None,
    }
}

/// Adds the kinds of a role behind those of others.
fn add_kinds(book: &mut LawBook, role: &LawBook) -> Result<(), AddError>
    ensures { OnOk result (book.new ≡ record book.old { kinds = book.old.kinds ++ role.now.kinds }) }
{
    for entry in role.kinds().as_slice() {
        book.add_kind(entry.name.as_slice())?;
    }
    Ok(())
}

/// Adds the guards of a role behind those of others.
fn add_guards(alloc: Global, book: &mut LawBook, role: &LawBook) -> Result<(), AddError>
    ensures { OnOk result (book.new ≡ record book.old { guards = book.old.guards ++ role.now.guards }) }
{
    for entry in role.guards().as_slice() {
        book.add_guard(entry.name.as_slice(), entry.value.copy(alloc)?)?;
    }
    Ok(())
}

/// Adds the actions of a role behind those of others.
fn add_acts(alloc: Global, book: &mut LawBook, role: &LawBook) -> Result<(), AddError>
    ensures { OnOk result (book.new ≡ record book.old { acts = book.old.acts ++ role.now.acts }) }
{
    for entry in role.acts().as_slice() {
        book.add_act(entry.name.as_slice(), entry.value.copy(alloc)?)?;
    }
    Ok(())
}

/// Adds the laws of a role behind those of others.
fn add_role(alloc: Global, book: &mut LawBook, role: &LawBook) -> Result<(), AddError>
    ensures { OnOk result (book.new ≡ joined role.now book.old) }
{
    add_kinds(book, role)?;
    add_guards(alloc, book, role)?;
    add_acts(alloc, book, role)
}

/// Adds the laws of all roles, one behind the other.
#[tactic(auto, unfolding(crate::specs::Roles::all_laws))]
fn add_roles(alloc: Global, book: &mut LawBook) -> Result<(), AddError>
    requires { book.old ≡ no_laws }
    ensures { OnOk result (book.new ≡ all_laws) }
{
    add_role(alloc, book, &peer_laws(alloc)?)?;
    add_role(alloc, book, &client_laws(alloc)?)?;
    add_role(alloc, book, &server_laws(alloc)?)
}

/// The laws of all roles in one book: the kinds, guards and actions that a table may name.
pub fn all_laws(alloc: Global) -> Result<LawBook, AllocError>
    ensures { IfOk result (λ book. book ≡ all_laws) }
{
    let mut book = LawBook::new(alloc);
    // No name is there twice and there is room for all, so what an addition lacks is memory.
    match add_roles(alloc, &mut book) {
        Ok(()) => Ok(book),
        Err(_) => Err(AllocError),
    }
}
