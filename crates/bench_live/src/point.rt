//! Where threads stop for a test.

/// Where a worker stands.
#[derive(Clone, Copy, Debug, PartialEq, Eq)]
pub enum Point {
    /// It is about to work; it holds no lock.
    BeforeWork(u32),
    /// It handled an item; it holds its shard's lock, and no page's.
    AfterWork(u32),
    /// It dropped an item at the connections; it holds no lock.
    Sent(u32),
}

/// What a worker passes where it stands at a point: a test can hold it there.
pub trait Gate {
    fn pass(&self, point: Point);
}

/// A gate that holds nobody.
#[derive(Clone, Copy)]
pub struct Open;

impl Gate for Open {
    fn pass(&self, _point: Point) {}
}
