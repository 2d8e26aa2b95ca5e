//! A loaded image.

ghost use Rattle.std.specs.Prelude.{◌≡◌};

use crate::counts::Format;
use crate::names::ImageNames;
use std::marker::Model;

/// A program: an image whose names were found in a book of laws.
pub struct Program {
    pub(crate) format: Format,
    pub(crate) names: ImageNames,
    pub(crate) rows: usize,
    pub(crate) entries: Vec<Option<u32>>,
    pub(crate) code: Vec<u8>,
}

// A derived `drop` is proved anew, field by field, at each way out of each function that holds it; this one is a call.
impl Drop for Program {
    fn drop(self) {
        let Program {
            format: _,
            names,
            rows: _,
            entries,
            code,
        } = self;
    }
}

impl Program {
    /// The format of its image.
    pub fn format(&self) -> Format
        ensures { result ≡ self.now.format }
    {
        self.format
    }

    /// The octets of the code.
    pub fn code(&self) -> &[u8]
        ensures { result.now ≡ self.now.image.code }
    {
        self.code.as_slice()
    }

    /// For each state and in it for each kind of events the offset at which the code of its rows begins.
    pub fn entries(&self) -> &[Option<u32>]
        ensures { result.now ≡ self.now.image.entries }
    {
        self.entries.as_slice()
    }

    /// The names of states, kinds, guards and actions, and the places of the last three in the book.
    pub fn names(&self) -> &ImageNames
        ensures states { result.now.states.names.items ≡ self.now.image.states }
        ensures kind_names { result.now.kinds.names.items ≡ self.now.image.kinds }
        ensures guard_names { result.now.guards.names.items ≡ self.now.image.guards }
        ensures act_names { result.now.actions.names.items ≡ self.now.image.actions }
        ensures kinds { result.now.kinds.places.items ≡ self.now.kind_places }
        ensures guards { result.now.guards.places.items ≡ self.now.guard_places }
        ensures actions { result.now.actions.places.items ≡ self.now.act_places }
    {
        &self.names
    }
}

impl Model for Program {
    ghost use Rattle.tab_load.specs.Loading.{Loaded, lists, loaded};

    ghost Value = { Loaded };

    ghost view = { λ p. loaded p.format (lists p.names) p.rows p.entries.items p.code.items };
}
