//! Values in order, as a contract sees them.

ghost use Rattle.std.specs.Prelude.{◌≡◌, [], length};

use std::alloc::Global;
use std::marker::Model;

/// Values in order. A contract sees them as a list.
#[derive(Drop)]
pub struct Series<T> {
    values: Vec<T>,
}

impl<T> Model for Series<T> {
    ghost use Rattle.std.specs.Prelude.{List};

    ghost Value = { List T };

    ghost view = { λ s. s.values.items };
}

impl<T: Drop> Series<T> {
    /// The values that a vector holds. Takes no memory.
    pub fn new(values: Vec<T>) -> Series<T>
        ensures { result ≡ values.items }
    {
        Series { values }
    }

    /// No values. Takes no memory.
    pub fn empty(alloc: Global) -> Series<T>
        ensures { result ≡ [] }
    {
        Series::new(Vec::new(alloc))
    }

    /// The values.
    pub fn as_slice(&self) -> &[T]
        ensures { result.now ≡ self.now }
    {
        &self.values
    }

    /// How many there are.
    pub fn len(&self) -> usize
        ensures { result ≡ length self.now }
    {
        self.values.len()
    }
}
