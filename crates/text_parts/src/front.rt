//! The first values of a list, without memory.
ghost use Rattle.std.specs.Prelude.{◌≡◌, ◌≤◌, ◌∷◌, [], ◌++◌, nat_lt, List, length};

/// The first `N` values of a list, and whether it goes on behind them.
#[derive(Clone, Copy)]
pub struct Front<T, const N: usize> {
    values: [T; N],
    len: usize,
    more: bool,
}

impl<T: Copy + Default, const N: usize> Default for Front<T, N> {
    fn default() -> Front<T, N> {
        Front {
            values: [T::default(); N],
            len: 0,
            more: false,
        }
    }
}

impl<T: Copy + Default, const N: usize> Front<T, N> {
    ghost use Rattle.text_parts.specs.Fronts.{values_in, IsFront};

    /// The front of an empty list.
    pub fn new() -> Front<T, N>
        ensures { IsFront [] result }
    {
        Front {
            values: [T::default(); N],
            len: 0,
            more: false,
        }
    }

    /// One more value of the list.
    pub fn push(&mut self, value: T)
        ensures { (list : List T) → IsFront list self.old → IsFront (list ++ value ∷ []) self.new }
    {
        if self.len < N {
            self.values[self.len] = value;
            self.len += 1;
        } else {
            self.more = true;
        }
    }

    /// More values of the list.
    pub fn extend(&mut self, more: &[T])
        ensures { (list : List T) → IsFront list self.old → IsFront (list ++ more.now) self.new }
    {
        for value in more {
            self.push(*value);
        }
    }

    /// Whether the list has more values than this.
    pub fn is_over(&self, limit: usize) -> bool
        requires { limit ≤ N }
        ensures { (list : List T) → IsFront list self.now → result ≡ nat_lt limit (length list) }
    {
        self.more || self.len > limit
    }

    pub fn as_slice(&self) -> &[T]
        ensures value { result.now ≡ values_in self.now }
        ensures few { length result.now ≤ N }
    {
        &self.values[..self.len.min(N)]
    }
}
