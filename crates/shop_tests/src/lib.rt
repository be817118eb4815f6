//! A shop over a matter of numbers, and with it the shop's tests.
#![tactic(auto)]

pub mod crew;
pub mod numbers;
#[cfg(test)]
mod tests;
