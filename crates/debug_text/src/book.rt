//! The laws and the tables that commands speak of.
ghost use Rattle.std.specs.Prelude.{◌≡◌};
ghost use Rattle.debug_text.specs.Tables.{table_of, tables_of};

use bench_item::Role;
use tab_law::LawBook;
use tab_text::Table;

/// The laws and the tables that commands speak of.
#[derive(Clone, Copy)]
pub struct TableBook<'a> {
    /// The kinds of events.
    pub laws: &'a LawBook,
    /// The table of each role.
    pub peer: &'a Table,
    pub client: &'a Table,
    pub server: &'a Table,
}

impl<'a> TableBook<'a> {
    /// The table of a role.
    pub(crate) fn table(&self, role: Role) -> &'a Table
        ensures { result.now ≡ table_of (tables_of self.now) role }
    {
        match role {
            Role::Peer => self.peer,
            Role::Client => self.client,
            Role::Server => self.server,
        }
    }
}
