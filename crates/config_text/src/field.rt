//! The fields of each object of a CONFIG.
ghost use Rattle.std.specs.Prelude.{◌≡◌};
ghost use Rattle.config_text.specs.Fields.{fields_of, is_known, name_of};

/// A field of an object.
#[derive(Clone, Copy)]
pub enum Field {
    Nodes,
    Host,
    Realm,
    Address,
    Listen,
    Peers,
    Shards,
    Pages,
    Accounts,
    DefaultUnits,
    Desks,
    Turns,
    Tables,
    Dictionary,
    Id,
    Given,
    Lines,
    Repeat,
    Peer,
    Client,
    Server,
}

impl Field {
    /// Its name.
    pub fn name(self) -> &'static str
        ensures { result.now ≡ name_of self }
    {
        match self {
            Field::Nodes => "nodes",
            Field::Host => "host",
            Field::Realm => "realm",
            Field::Address => "address",
            Field::Listen => "listen",
            Field::Peers => "peers",
            Field::Shards => "shards",
            Field::Pages => "pages",
            Field::Accounts => "accounts",
            Field::DefaultUnits => "default_units",
            Field::Desks => "desks",
            Field::Turns => "turns",
            Field::Tables => "tables",
            Field::Dictionary => "dictionary",
            Field::Id => "id",
            Field::Given => "given",
            Field::Lines => "lines",
            Field::Repeat => "repeat",
            Field::Peer => "peer",
            Field::Client => "client",
            Field::Server => "server",
        }
    }
}

/// What an object is of.
#[derive(Clone, Copy)]
pub enum Shape {
    Config,
    Node,
    Peer,
    Account,
    Desk,
    Tables,
}

impl Shape {
    /// The fields that such an object may have, in the order in which they are read.
    pub fn fields(self) -> &'static [Field]
        ensures { result.now ≡ fields_of self }
    {
        match self {
            Shape::Config => &[Field::Nodes],
            Shape::Node => &[
                Field::Host,
                Field::Realm,
                Field::Address,
                Field::Listen,
                Field::Peers,
                Field::Shards,
                Field::Pages,
                Field::Accounts,
                Field::DefaultUnits,
                Field::Desks,
                Field::Turns,
                Field::Tables,
                Field::Dictionary,
            ],
            Shape::Peer => &[Field::Host, Field::Address],
            Shape::Account => &[Field::Id, Field::Given],
            Shape::Desk => &[Field::Lines, Field::Repeat],
            Shape::Tables => &[Field::Peer, Field::Client, Field::Server],
        }
    }

    /// Whether such an object may have a field of this name.
    #[tactic(auto, unfolding(crate::specs::Fields::is_known))]
    pub(crate) fn knows(self, name: &[u8]) -> bool
        ensures { result ≡ is_known self name.now }
    {
        self.fields()
            .iter()
            .any(|field| name == field.name().as_bytes())
    }
}
