//! What an item asks of the account book.

ghost use Rattle.std.specs.Prelude.{◌≡◌, option_and_then};
ghost use Rattle.charge_session.specs.Wants.{needs};
ghost use Rattle.bench_spec.specs.Booked.{as_server_event, want_of};

use crate::roles::Roles;
use bench_item::{MachineItem, Role};
use charge_session::{Want, needs};
use tab_step::{Event, MachineState};

impl Roles {
    /// The same event with its kind's place in the laws of a server, if it is one of a server's kinds.
    fn server_event(&self, event: &Event) -> Option<Event>
        ensures { result ≡ as_server_event self.now.laws event.now }
    {
        let kind = self.server_kind(event.kind)?;
        let facts = event.facts;
        Some(Event { kind, facts })
    }

    /// What an event asks of the book in a server's session that stands there.
    fn session_want(&self, event: &Event, state: &MachineState) -> Option<Want>
        ensures { result ≡ option_and_then (λ event. needs event state.now) (as_server_event self.now.laws event.now) }
    {
        let event = self.server_event(event)?;
        needs(&event, state)
    }

    /// What an item asks of the account book in a machine that stands there: only a server's session asks something, at
    /// an event of a server's kinds (RFC 8506 sections 5 and 6). Takes no memory.
    pub fn want(&self, item: &MachineItem, state: &MachineState) -> Option<Want>
        ensures { result ≡ want_of self.now.laws item.now state.now }
    {
        match item.key.role {
            Role::Server => self.session_want(&item.event.show(), state),
            Role::Peer | Role::Client => None,
        }
    }
}
