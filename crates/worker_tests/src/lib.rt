//! Tests of `worker`: connections in memory, over heads of two bytes each.
#![tactic(auto)]

pub mod line_server;
#[cfg(test)]
mod tests;
