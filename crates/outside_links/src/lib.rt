//! What lies outside a server, as traits: connections, the port that gives them, and where they go in the end.
//!
//! | Trait | Is | In memory | Tells, if it tells |
//! |---|---|---|---|
//! | [`Link`] | a connection | [`MemLink`] | the bytes that were read, are left, were written |
//! | [`Port`] | where links come from | [`MemPort`] | the links that are left |
//! | [`Closer`] | where links go to | [`KeepCloser`] | the links that it got |
//! | [`Gate`] | where a test holds a worker | [`HoldGate`] | nothing |
//!
//! What is told, and how faults are counted, is as in `outside`. A link counts its failed reads and its failed writes
//! apart, and neither of its calls touches what the other tells. A port counts the links that it gave, and a closer
//! those that it got, so that a server can prove that each link that it was given was closed.
//!
//! # An example
//!
//! Over `MemPort::new(links, fails)` with one link and the call number 1 in `fails`:
//!
//! | Call | Answers |
//! |---|---|
//! | `accept()` | `Failed`, and the count of faults is 1 |
//! | `accept()` | `Link`, and the count of links is 1 |
//! | `accept()` | `End`: nothing is left |
#![tactic(auto)]

pub mod closers;
pub mod gates;
pub mod links;
pub mod mem_link;
pub mod mem_port;
pub mod ports;
pub mod sending;
#[cfg(test)]
mod tests;

pub use closers::{Closer, DropCloser, KeepCloser};
pub use gates::{Gate, HoldGate, OpenGate, Point};
pub use links::Link;
pub use mem_link::MemLink;
pub use mem_port::MemPort;
pub use ports::{Port, PortAns};
pub use sending::send_all;
