//! Names in order of their numbers.
ghost use Rattle.std.specs.Prelude.{◌≡◌};

use base_list::Octets;
use std::marker::Model;

/// Names in order of their numbers, from 0: what the states, the kinds of events, the guards or the
/// actions are called, each 1 to 40 bytes of ASCII.
#[derive(Drop)]
pub struct NameList {
    items: Vec<Octets>,
}

impl Model for NameList {
    ghost use Rattle.std.specs.Prelude.{List, ℕ};

    ghost Value = { List (List ℕ) };

    ghost view = { λ names. names.items.items };
}

impl NameList {
    pub(crate) fn new(items: Vec<Octets>) -> NameList
        ensures { result ≡ items.items }
    {
        NameList { items }
    }

    /// The names.
    pub fn as_slice(&self) -> &[Octets]
        ensures { result.now ≡ self.now }
    {
        self.items.as_slice()
    }
}
