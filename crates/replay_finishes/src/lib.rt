//! Steps of a seat in a replay one after another, until its request is over or it waits.
//!
//! | The seat | [`finish`] |
//! |---|---|
//! | has no request | makes no step, and tells nothing |
//! | has one | makes steps until it is over, or a step waits or meets a limit |
//!
//! What comes of it is `Finishes` in `specs/Finishing.antt`. [`tell_turn`] makes one step and adds the lines that tell
//! it to others.
#![tactic(auto)]

mod finishing;
mod stops;
mod telling;

pub use finishing::finish;
pub use stops::Finish;
pub use telling::tell_turn;
