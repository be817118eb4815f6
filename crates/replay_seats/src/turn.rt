//! What a step of a seat comes to.

use lists::Text;

/// How a seat goes on behind a step.
#[derive(Clone, Copy, Debug, PartialEq, Eq)]
pub enum Turn {
    /// It has no request.
    Idle,
    /// It made a step.
    Went,
    /// It waits.
    Waits,
    /// A limit of requests, replies, generations or kept bytes is met.
    Limit,
}

/// What a step told, and how the seat goes on.
#[derive(Drop)]
pub struct Told {
    pub lines: Vec<Text>,
    pub turn: Turn,
}
