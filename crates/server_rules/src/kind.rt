//! The kinds of events of a server's machine.

ghost use Rattle.std.specs.Prelude.{◌≡◌, ◌<◌, IfSome, Some, position};
ghost use Rattle.std.specs.List.{slice_get};
ghost use Rattle.std.specs.Str.{bytes_eq};
ghost use Rattle.base_list.specs.Named.{place_of};
ghost use Rattle.server_rules.specs.Kinds.{name_of, all, kinds};

/// A kind of events, in the order of the first appearance in the table: a request by its CC-Request-Type (RFC 8506
/// section 8.3), or the timer.
#[derive(Clone, Copy, PartialEq, Eq)]
pub enum ServerKind {
    /// INITIAL_REQUEST came.
    Initial,
    /// UPDATE_REQUEST came.
    Update,
    /// TERMINATION_REQUEST came.
    Terminate,
    /// EVENT_REQUEST came.
    Event,
    /// The timer Tcc fired (RFC 8506 section 13).
    Tcc,
}

/// Their names.
pub(crate) const NAMES: [&str; 5] = ["Initial", "Update", "Terminate", "Event", "Tcc"];

/// All of them.
const ALL: [ServerKind; 5] = [
    ServerKind::Initial,
    ServerKind::Update,
    ServerKind::Terminate,
    ServerKind::Event,
    ServerKind::Tcc,
];

impl ServerKind {
    /// The one with that place in the kinds of a server's laws.
    pub fn at(place: u8) -> Option<ServerKind>
        ensures { result ≡ slice_get all place }
    {
        ALL.get(place as usize).copied()
    }

    /// Its name in tables.
    pub fn name(self) -> &'static str
        ensures { result.now ≡ name_of self }
    {
        NAMES[self as usize]
    }

    /// Its place in the kinds of a server's laws.
    pub fn place(self) -> u8
        ensures { place_of (name_of self) kinds ≡ Some result }
    {
        self as u8
    }
}

/// Which of them has a name.
fn kind_named(name: &[u8]) -> Option<usize>
    ensures place { result ≡ position (λ kind. bytes_eq (name_of kind) name.now) all }
    ensures few { IfSome result (λ place. place < 5) }
{
    ALL.iter().position(|kind| kind.name().as_bytes() == name)
}

/// The place of a name among the kinds of a server's laws.
pub fn server_place(name: &[u8]) -> Option<u8>
    ensures { result ≡ place_of name.now kinds }
{
    match kind_named(name) {
        Some(place) => Some(place as u8),
        None => None,
    }
}
