//! A shop over a matter of files, and with it the tests of checks for changed files.
#![tactic(auto)]

pub mod lengths;
#[cfg(test)]
mod tests;
pub mod visits;
