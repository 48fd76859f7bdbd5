//! What learns how far the threads are.

/// A point that a thread has come to. Writers, readers and places count from 0.
#[derive(Clone, Copy, Debug, PartialEq, Eq, Drop)]
pub enum Point {
    /// A writer has made one step of an update: the sequence after it, and how many steps are left.
    /// It holds the lock.
    WriterStep {
        writer: u32,
        seq: u64,
        remaining: u64,
    },
    /// A writer has made its last change, and holds no lock. An empty list has no such point.
    WriterDone {
        writer: u32,
    },
    /// A reader is about to look up the key at a place of its list.
    ReaderStart {
        reader: u32,
        place: u64,
    },
    /// A reader has its answer.
    ReaderDone {
        reader: u32,
        place: u64,
    },
}

/// Is called at each point by the thread that has come to it, which goes on when the call returns.
pub trait Gate {
    fn tell(&self, p: Point);
}

/// A gate that lets all threads pass.
#[derive(Clone, Copy, Debug, Drop)]
pub struct Open;

impl Gate for Open {
    fn tell(&self, _p: Point) {}
}
