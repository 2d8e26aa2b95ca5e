//! The table of each role with its program.

ghost use Rattle.std.specs.Prelude.{◌≡◌, [], IfOk, IfErr, OnOk, slice_get};
ghost use Rattle.tab_step.specs.Bind.{IsBoundTo, IsUnbound};
ghost use Rattle.bench_move.specs.Tables.{IsReady, all_missing, server_kind, table_of};

use crate::book::copy_book;
use crate::kinds::server_places;
use bench_item::Role;
use std::alloc::{AllocError, Global};
use std::marker::Model;
use tab_image::build;
use tab_law::LawBook;
use tab_load::Program;
use tab_step::{Bound, Unbound, bind};
use tab_text::Table;

/// A bound table with its program.
pub(crate) struct Ready {
    pub bound: Bound,
    pub program: Program,
}

impl Drop for Ready {
    fn drop(self) {
        let Ready { bound, program } = self;
    }
}

/// The table of each role with its program, and the laws that they are loaded with. It holds no callback.
pub struct Roles {
    laws: LawBook,
    /// Of each kind of the laws its place among those of a server.
    kinds: Vec<Option<u8>>,
    peer: Ready,
    client: Ready,
    server: Ready,
}

impl Drop for Roles {
    fn drop(self) {
        let Roles {
            laws,
            kinds,
            peer,
            client,
            server,
        } = self;
    }
}

impl Model for Roles {
    ghost use Rattle.std.specs.Prelude.{◌≡◌};
    ghost use Rattle.bench_move.specs.Tables.{Tables, IsReady, server_places};

    ghost Value = { Tables };

    ghost view = { λ r. record {
      laws = r.laws;
      peer = r.peer.bound.table;
      client = r.client.bound.table;
      server = r.server.bound.table;
    } };

    ghost invariant = { λ r. (r.kinds.items ≡ server_places r.laws)
        × IsReady r.laws r.peer × IsReady r.laws r.client × IsReady r.laws r.server };
}

/// Builds the program of a bound table.
fn with_program(alloc: Global, bound: Bound, laws: &LawBook) -> Result<Ready, AllocError>
    requires { IsBoundTo bound laws.now }
    ensures table { IfOk result (λ ready. ready.bound ≡ bound) }
    ensures ready { IfOk result (IsReady laws.now) }
{
    let _rows = bound.table().rows();
    let program = build(alloc, &bound, laws)?;
    Ok(Ready { bound, program })
}

/// Binds the tables in the order peer, client, server.
fn bind_all(
    alloc: Global,
    peer: Table,
    client: Table,
    server: Table,
    laws: &LawBook,
) -> Result<(Bound, Bound, Bound), Unbound>
    ensures tables { IfOk result (λ bound. (bound.0.table ≡ peer)
        × (bound.1.table ≡ client) × (bound.2.table ≡ server)) }
    ensures bound { IfOk result (λ bound. IsBoundTo bound.0 laws.now
        × IsBoundTo bound.1 laws.now × IsBoundTo bound.2 laws.now) }
    ensures found { OnOk result (all_missing laws.now peer client server ≡ []) }
    ensures err { IfErr result (λ unbound. IsUnbound (slice_get (all_missing laws.now peer client server) 0) unbound) }
{
    let peer = bind(alloc, peer, laws)?;
    let client = bind(alloc, client, laws)?;
    let server = bind(alloc, server, laws)?;
    Ok((peer, client, server))
}

/// The roles of bound tables.
fn build_all(
    alloc: Global,
    peer: Bound,
    client: Bound,
    server: Bound,
    laws: &LawBook,
) -> Result<Roles, AllocError>
    requires peer { IsBoundTo peer laws.now }
    requires client { IsBoundTo client laws.now }
    requires server { IsBoundTo server laws.now }
    ensures { IfOk result (λ roles. roles
        ≡ record { laws = laws.now; peer = peer.table; client = client.table; server = server.table }) }
{
    let peer = with_program(alloc, peer, laws)?;
    let client = with_program(alloc, client, laws)?;
    let server = with_program(alloc, server, laws)?;
    let kinds = server_places(alloc, laws)?;
    let laws = copy_book(alloc, laws)?;
    Ok(Roles {
        laws,
        kinds,
        peer,
        client,
        server,
    })
}

impl Roles {
    /// The roles of these tables, whose names are those of the laws. Refused is the first name that the laws lack, in
    /// the order of the tables here, each read row by row: kind, guards, actions.
    pub fn new(
        alloc: Global,
        peer: Table,
        client: Table,
        server: Table,
        laws: &LawBook,
    ) -> Result<Roles, Unbound>
        ensures roles { IfOk result (λ roles. roles
            ≡ record { laws = laws.now; peer = peer; client = client; server = server }) }
        ensures found { OnOk result (all_missing laws.now peer client server ≡ []) }
        ensures err { IfErr result (λ unbound.
            IsUnbound (slice_get (all_missing laws.now peer client server) 0) unbound) }
    {
        let (peer, client, server) = bind_all(alloc, peer, client, server, laws)?;
        Ok(build_all(alloc, peer, client, server, laws)?)
    }

    /// The laws.
    pub fn laws(&self) -> &LawBook
        ensures { result.now ≡ self.now.laws }
    {
        &self.laws
    }

    /// A role's table with its program.
    pub(crate) fn ready(&self, role: Role) -> &Ready
        ensures table { result.now.bound.table ≡ table_of self.now role }
        ensures ready { IsReady self.now.laws result.now }
    {
        match role {
            Role::Peer => &self.peer,
            Role::Client => &self.client,
            Role::Server => &self.server,
        }
    }

    /// The table of a role.
    pub fn table(&self, role: Role) -> &Table
        ensures { result.now ≡ table_of self.now role }
    {
        self.ready(role).bound.table()
    }

    /// The place of a kind of the laws among those of a server.
    pub(crate) fn server_kind(&self, kind: u8) -> Option<u8>
        ensures { result ≡ server_kind self.now.laws kind }
    {
        *self.kinds.get(kind as usize)?
    }
}
