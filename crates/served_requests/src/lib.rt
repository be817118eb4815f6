//! From its Begin to its End a request is served: it runs on the program in force, it is on its way, and what it found
//! is in the table. Together with what other seats leave of it (`request_laws`) this gives the condition of its End.
//!
//! | Law | Says |
//! |---|---|
//! | [`begun_requests_are_served`] | behind its Begin a request is served |
//! | [`answered_requests_stay_served`] | where the table answers its looks, and loads fail for blames, it stays so |
#![tactic(auto)]

mod laws;

pub use laws::{answered_requests_stay_served, begun_requests_are_served};
