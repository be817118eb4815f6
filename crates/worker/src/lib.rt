//! One connection: the heads that come in are served one after another, and each is answered before the next is taken.
//!
//! The worker reads its link once, in the pieces in which it comes, and keeps a window on the bytes that were not used
//! up. What a head is and how one is served is a [`ServesHeads`]. A response is printed before the item of its head is
//! entered, and sent afterwards, so that want of memory leaves no item without its bytes.
//!
//! [`serve_connection`]'s contract is one record, `Conversation` of `connection_items`: which heads were served, what
//! each added, which bytes were sent, and why the connection ended.
//!
//! | What comes in | Ends as |
//! |---|---|
//! | heads, and then nothing | `Closed` |
//! | a head that asks to close, whatever follows | `Closed` |
//! | a head that announces a body | `Unread` |
//! | heads and then part of one of 7 bytes | `TornHead(7)` |
//! | what is no head, too long, of too many lines | `BadHead`, `LongHead`, `ManyHeaders`, after a response |
#![tactic(auto)]

mod connection;
mod head;
mod part;
mod serves_heads;
mod turn;

pub use connection::{Served, serve_connection};
pub use serves_heads::{Entered, ServesHeads, Taken};
