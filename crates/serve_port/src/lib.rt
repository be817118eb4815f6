//! Workers that take connections from one port, each serving a connection whole before it takes the next.
//!
//! The port lies under a lock, and whoever is free accepts the next connection. A connection that was served goes to
//! the worker's closer. That no connection is lost is counted: a ledger has a share for each worker, whose amount is
//! the number of connections that it took, and the book of all shares lies beside the port.
//!
//! | The port | [`serve_port`] answers |
//! |---|---|
//! | gives some connections and then answers `End` | `Ended`, and each of them was served, answered and closed |
//! | answers `Failed` | `Failed`, and all that it gave before were served and closed |
//! | ended, and a connection found no memory | `Short` |
//!
//! Each worker runs on a thread of its own, where one can be made; else a worker does its part after another. No
//! memory is taken here but what connections take.
#![tactic(auto)]

pub mod crew;
pub mod held_port;
pub mod shared_port;
pub mod work;

pub use crew::{PortEnd, serve_port};
