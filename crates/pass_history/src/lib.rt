//! What turns add to a pass's acts and items, and how fresh the generation is that its request begins on.
//!
//! | Law | Says |
//! |---|---|
//! | [`turns_add_items`] | an act makes its item of the request that runs; other seats' entries add nothing |
//! | [`turns_add_up`] | turns after turns add what both add |
//! | [`compared_stamps_stay_fresh`] | stamps that were in force are so still, or another seat has reloaded since |
//!
//! # An example
//!
//! Seat 1 shares, reloads generation 1, begins r, which seat 2 does between, and ends with a:
//!
//! | Act | Items of seat 1 |
//! |---|---|
//! | Share, Reload, Begin r | none |
//! | End a | r with a on generation 1 |
#![tactic(auto)]

mod laws;

pub use laws::{compared_stamps_stay_fresh, turns_add_items, turns_add_up};
