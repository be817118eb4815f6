use crate::files::{Snapshot, Stamps};

/// What a read of bytes answers.
#[derive(Clone, Copy, Debug, PartialEq, Eq)]
pub enum ReadAns {
    /// So many bytes, at least 1.
    Got(usize),
    End,
    Failed,
}

/// What a write of bytes answers.
#[derive(Clone, Copy, Debug, PartialEq, Eq)]
pub enum WriteAns {
    /// So many bytes, at least 1.
    Took(usize),
    Failed,
}

/// What a look at the stamps of a tree's files answers.
#[derive(Drop)]
pub enum StampsAns {
    Read(Stamps),
    Failed,
    Memory,
}

/// What a read of a tree's files answers.
#[derive(Drop)]
pub enum TreeAns {
    Read(Snapshot),
    Failed,
    Memory,
}
