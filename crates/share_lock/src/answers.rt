//! What the calls of the lock answer.
use crate::seat::Phase;

/// Of a call that asks for a share.
#[derive(Clone, Copy, Debug, PartialEq, Eq)]
pub enum Share {
    Taken,
    /// Nothing changed.
    Busy,
}

/// Of a call that asks to be exclusive.
#[derive(Clone, Copy, Debug, PartialEq, Eq)]
pub enum Start {
    Taken,
    /// The seat has yielded, and tries on by `try_resume`.
    Seeking,
    /// Nothing changed.
    Busy,
}

/// Of a call that ends being exclusive.
#[derive(Clone, Copy, Debug, PartialEq, Eq)]
pub enum Stop {
    Free,
    /// The seat is still exclusive, once less.
    Deeper,
    /// Others go first: the seat has yielded, and tries on by `try_resume`.
    Waiting,
}

/// Of a call that tries to take back what was yielded.
#[derive(Clone, Copy, Debug, PartialEq, Eq)]
pub enum Resume {
    Resumed,
    /// Nothing changed.
    Still,
}

/// What a seat has. `depth` is 0 for a seat that isn't exclusive.
#[derive(Clone, Copy, Debug, PartialEq, Eq)]
pub struct Holds {
    pub shares: u32,
    pub depth: u32,
    pub phase: Phase,
}
