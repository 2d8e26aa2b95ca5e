//! Who is told how far a run is.

/// Who is told how far a run is.
pub trait Progress {
    /// So many of so many lines are done.
    fn at(&mut self, done: usize, total: usize);
}

/// Nobody is.
#[derive(Clone, Copy)]
pub struct Unwatched;

impl Progress for Unwatched {
    fn at(&mut self, _done: usize, _total: usize) {}
}
