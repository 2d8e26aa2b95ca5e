//! Lists that contracts see as lists.
ghost use Rattle.std.specs.Prelude.{◌≡◌};

use std::marker::Model;

/// The values of a vector. A contract sees them as a list, whatever the vector's room.
#[derive(Drop)]
pub struct Listed<T> {
    values: Vec<T>,
}

impl<T> Model for Listed<T> {
    ghost use Rattle.std.specs.Prelude.{List};

    ghost Value = { List T };

    ghost view = { λ l. l.values.items };
}

impl<T> Listed<T> {
    /// The values of a vector. Takes no memory.
    pub fn new(values: Vec<T>) -> Listed<T>
        ensures { result ≡ values.items }
    {
        Listed { values }
    }

    /// The values.
    pub fn as_slice(&self) -> &[T]
        ensures { result.now ≡ self.now }
    {
        self.values.as_slice()
    }

    /// The values, in the vector that they came in.
    pub fn into_vec(self) -> Vec<T>
        ensures { result.items ≡ self }
    {
        let Listed { values } = self;
        values
    }
}
