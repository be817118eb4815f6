//! A lock over one value, taken in turns by tickets. The value keeps a history, and each ticket knows how far it has
//! seen that history.
//!
//! # What a ticket knows
//!
//! Each ticket has a number, and an entry of the history tells the number of the ticket that added it. A turn is the
//! time between `enter`, which hands the value out, and `leave`, which takes it back with at most one entry more.
//! However the turns of many threads interleave, a ticket knows three things at its next turn: what it has seen is a
//! beginning of the history, no later entry has its number, and the row that the value keeps for it is as it left it.
//!
//! # How it works
//!
//! It is a ticket lock: who wants a turn draws a ticket and waits until that ticket is served. It stands over three
//! atomic words and one slot of `atomic_table`.
//!
//! | Word | Has |
//! |---|---|
//! | 0 | the next ticket to be drawn |
//! | 1 | the ticket that is served |
//! | 2 | the length of the history |
//!
//! Tickets count from 0 and the words hold them modulo 2^64. At most 64 are out at once, so no two of them look alike.
//! The slot has the value, and while a turn lasts the slot is out with the turn's seat. A seat is what a ticket steps
//! with: a token of no bytes that carries a view, the ghost data that says what the ticket knows (`View`).
//!
//! These are the steps, in the order of a turn, and then those of `split` and `join`. Each acts on one word at once.
//!
//! | Step | Acts on | What it changes in the view of its seat |
//! |---|---|---|
//! | Draw | word 0, adds 1 | has the ticket that was there |
//! | Look | word 1, reads | where the word is the ticket: takes the slot, and has seen the history of the value in it |
//! | take out | the slot that is held | none: the value comes out |
//! | put home | the slot that is held | none: the value goes in |
//! | Record | word 2, adds 1 | has seen the entry that was added; a turn without an entry leaves this step out |
//! | Done | word 1, adds 1 | has no ticket, and its row is that of the value put home; gives the slot back |
//! | Give | word 0, reads | the view of number 0 counts its next number up, and a new seat has the number that it was |
//! | TakeIn | word 0, reads | has heard what the other seat has seen; the other seat is spent |
//! | Compare | word 0, reads | has seen the longer of what it had seen and what it has heard |
//!
//! A step may change the view of its own seat alone. So TakeIn can only note what the other seat had seen: that both
//! lists are beginnings of one history, and thus that the longer one begins with the shorter, is learned from the rule
//! at the next step, Compare. The value goes home before Record, since a step knows a new entry only from the value in
//! the seat's hand.
//!
//! # The rule
//!
//! Between any two steps these facts hold (`specs/Rule.antt`), whatever the threads do. Spent seats are excepted.
//!
//! - The tickets that are out are those from word 1 up to the one before word 0, and each is in one view.
//! - Each number is in at most one view, and is below 64.
//! - In the view of number 0, the next number is above all numbers in views and all numbers in the history.
//! - What a view has seen is a beginning of the one history, whose length is word 2, and no later entry has its number.
//! - The slot is out exactly where some view has the turn. Its ticket is then word 1, and it has seen the whole
//! history.
//! - While the slot is at home, the history is that of the value in it.
//! - The row in a view is the row that the value has for the view's number. Rows of numbers not yet given are at rest.
//!
//! Nothing is proved of progress: not that a wait ends, nor who comes first.
#![tactic(auto)]

pub mod booked;
pub mod lock;
pub mod steps;
pub mod ticket;
pub mod view;

pub use crate::booked::Booked;
pub use crate::lock::{SplitFault, TurnLock};
pub use crate::ticket::Ticket;
