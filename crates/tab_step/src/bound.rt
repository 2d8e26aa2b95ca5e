//! A bound table.
ghost use Rattle.std.specs.Prelude.{◌≡◌};

use std::marker::Model;
use tab_text::{Places, Table};

/// Where the names of a row stand in a book: the place of its kind, and those of its guards and its
/// actions, in order.
#[derive(Drop)]
pub struct RowPlaces {
    pub kind: u8,
    pub guards: Places,
    pub actions: Places,
}

/// A table whose names were found in a book of laws, each row with their places there.
pub struct Bound {
    table: Table,
    places: Vec<RowPlaces>,
}

// A derived `drop` is proved anew, field by field, at each way out of each function that holds it; this one is a call.
impl Drop for Bound {
    fn drop(self) {
        let Bound { table, places } = self;
    }
}

impl Model for Bound {
    ghost use Rattle.tab_step.specs.Bind.{BoundTable};

    ghost Value = { BoundTable };

    ghost view = { λ b. record { table = b.table; places = b.places.items } };
}

impl Bound {
    pub(crate) fn new(table: Table, places: Vec<RowPlaces>) -> Bound
        ensures { result ≡ record { table = table; places = places.items } }
    {
        Bound { table, places }
    }

    /// The table, as it was bound.
    pub fn table(&self) -> &Table
        ensures { result.now ≡ self.now.table }
    {
        &self.table
    }

    /// The places of each row's names.
    pub fn places(&self) -> &[RowPlaces]
        ensures { result.now ≡ self.now.places }
    {
        self.places.as_slice()
    }
}
