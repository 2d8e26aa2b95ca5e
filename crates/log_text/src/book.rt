//! The names that the text of a log has.
ghost use Rattle.std.specs.Prelude.{◌≡◌};
ghost use Rattle.log_text.specs.Books.{states_in};

use base_list::Octets;
use bench_item::Role;
use step_text::Machines;
use tab_law::LawBook;

/// The names that the text of a log has.
#[derive(Clone, Copy)]
pub struct NameBook<'a> {
    /// The names of kinds of events.
    pub laws: &'a LawBook,
    /// The keys of machines.
    pub machines: &'a Machines,
    /// The names of the states of each role's table, by number.
    pub peer_states: &'a [Octets],
    pub client_states: &'a [Octets],
    pub server_states: &'a [Octets],
}

impl<'a> NameBook<'a> {
    /// The names of the states of a role's table, by number.
    pub(crate) fn states(&self, role: Role) -> &'a [Octets]
        ensures { result.now ≡ states_in self.now role }
    {
        match role {
            Role::Peer => self.peer_states,
            Role::Client => self.client_states,
            Role::Server => self.server_states,
        }
    }
}
