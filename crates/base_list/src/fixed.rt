//! Values in room of fixed size.

ghost use Rattle.std.specs.Prelude.{◌≡◌, ◌+◌, ◌<◌, ◌≤◌, ◌++◌, ◌∷◌, [], length, ◌==◌};
ghost use Rattle.std.specs.Fn.{FnOnceReturnsAtMut};

use std::fmt::{self, Debug, Formatter, Write};
use std::marker::Model;
use std::slice;

/// At most `N` values in order, in room that lies in the value itself: no memory is asked for. The room is as large as
/// `N` values; where that is some kilobytes, keep it out of deep chains of calls.
#[derive(Drop)]
pub struct FixedList<T, const N: usize> {
    /// The values, and what is left of others behind them.
    room: [T; N],
    count: usize,
}

impl<T, const N: usize> Model for FixedList<T, N> {
    ghost use Rattle.std.specs.Prelude.{List, ◌≡◌, ◌≤◌, length, take};

    ghost Value = { List T };

    ghost view = { λ l. take l.count l.room };

    ghost invariant = { λ l. (l.count ≤ N) × (length l.room ≡ N) };
}

impl<T: Debug, const N: usize> Debug for FixedList<T, N> {
    fn fmt<W: Write>(&self, f: &mut Formatter<W>) -> fmt::Result {
        self.room[..self.count].fmt(f)
    }
}

impl<T: Copy + Default, const N: usize> FixedList<T, N> {
    /// A list without values.
    pub fn new() -> FixedList<T, N>
        ensures { result ≡ [] }
    {
        FixedList {
            room: [T::default(); N],
            count: 0,
        }
    }

    /// How many values there are.
    pub fn len(&self) -> usize
        ensures value { result ≡ length self.now }
        ensures within { length self.now ≤ N }
    {
        self.count
    }

    /// Whether there is none.
    pub fn is_empty(&self) -> bool
        ensures { result ≡ (length self.now == 0) }
    {
        self.count == 0
    }

    /// Takes all values out, at no cost.
    pub fn clear(&mut self)
        ensures { self.new ≡ [] }
    {
        self.count = 0;
    }

    /// Adds a value at the end.
    pub fn push(&mut self, value: T)
        requires { length self.old < N }
        ensures { self.new ≡ self.old ++ value ∷ [] }
    {
        self.room[self.count] = value;
        self.count += 1;
    }

    /// Adds a copy of a value at the end.
    pub fn push_copy(&mut self, value: &T)
        requires { length self.old < N }
        ensures { self.new ≡ self.old ++ value.now ∷ [] }
    {
        self.extend_from_slice(slice::from_ref(value));
    }

    /// Adds a value at the end, which is written where it stands: `fill` is called once, on room with another value.
    pub fn push_with<F: FnOnce(&mut T)>(&mut self, fill: F)
        requires room { length self.old < N }
        requires callable { F.IsAlwaysCallable fill }
        ensures { (was made : T) × FnOnceReturnsAtMut F.FnOnce fill was tt made × (self.new ≡ self.old ++ made ∷ []) }
    {
        let room = &mut self.room[..];
        fill(&mut room[self.count]);
        self.count += 1;
    }

    /// Adds values at the end.
    pub fn extend_from_slice(&mut self, more: &[T])
        requires { length self.old + length more.now ≤ N }
        ensures { self.new ≡ self.old ++ more.now }
    {
        let end = self.count + more.len();
        let room = &mut self.room[..];
        room[self.count..end].copy_from_slice(more);
        self.count = end;
    }

    /// Adds the values of another list at the end.
    pub fn append(&mut self, more: &FixedList<T, N>)
        requires { length self.old + length more.now ≤ N }
        ensures { self.new ≡ self.old ++ more.now }
    {
        self.extend_from_slice(more.as_slice());
    }

    /// The values.
    pub fn as_slice(&self) -> &[T]
        ensures value { result.now ≡ self.now }
        ensures few { length self.now ≤ N }
    {
        &self.room[..self.count]
    }
}
