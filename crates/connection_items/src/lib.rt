//! What one connection is: the heads that come in over it, what is made of each, and how it ends.
//!
//! An *exchange* is a head that was served, with all that its serving added: its item, the entries that the pass made
//! for it, what the tree of files gave to its check, whether it reloaded, and its receipt. A conversation is a list of
//! exchanges, and each thing that a connection adds is a map over this one list (`specs/Exchanges.antt`): the items,
//! the bytes that are sent, the entries, what the tree gave, what the hooks did, the receipts. So that one thing is in
//! step with another needs no proof of its own.
//!
//! `specs/Rules.antt` says what is taken as known: which heads bytes begin with, and what is promised of one head.
//! `specs/Heads.antt` reads bytes as heads, `specs/Ends.antt` has a whole conversation with the cause of its end, and
//! `specs/Going.antt` what holds between two heads. What follows from these alone is proved here, so that a worker owes
//! its own steps and no more:
//!
//! | Law | Says |
//! |---|---|
//! | `Complete::complete` | where all heads are whole and nothing failed, all were answered |
//! | `Answered::is_answered` | a connection that was served whole was answered |
//! | `OneCause::one_cause` | the causes of ends that no fault, limit or want of memory made exclude one another |
//! | `Steps` | one step of a worker keeps what holds between two heads, or ends the conversation |
#![tactic(auto)]

mod ends;
mod heads;

pub use ends::{End, Step};
pub use heads::{Manner, Reading, Unreadable};
