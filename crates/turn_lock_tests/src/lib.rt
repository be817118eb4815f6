//! A tally that threads share under the turn lock, and with it the lock's tests.
#![tactic(auto)]

pub mod tally;
#[cfg(test)]
mod tests;
pub mod turns;
