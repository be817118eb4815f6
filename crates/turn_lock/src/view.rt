//! What a seat at the table knows.

use crate::booked::Booked;
use std::collections::LinkedList;

/// What a seat knows. It is ghost data: no value of it is made, and its lists take no memory.
pub struct View<B, E, W> {
    /// False once the seat was joined to another one. What the rule says of numbers, rows and tickets is said of live
    /// views alone; a view that only carries what it has heard need not be live.
    pub live: bool,
    pub number: u64,
    /// In the view of number 0, the next number to give.
    pub next: u64,
    /// The ticket that was drawn and whose turn has not ended. It counts on beyond 2^64.
    pub ticket: Option<u64>,
    /// During a turn, the value as the turn found it.
    pub turn: Option<B>,
    pub seen: LinkedList<E>,
    /// What a seat that was joined to this one had seen.
    pub heard: LinkedList<E>,
    pub row: W,
}

/// The view that goes with a value of type `B`.
pub type ViewOf<B> = View<B, <B as Booked>::Entry, <B as Booked>::Row>;
