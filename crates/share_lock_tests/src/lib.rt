//! The lock's tests: plays over a lock, and the interlock's, each with what its calls answer.
#![tactic(auto)]

#[cfg(test)]
mod plays;
#[cfg(test)]
mod tests;
