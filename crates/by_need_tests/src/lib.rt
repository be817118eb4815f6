//! Tests of the loader beside the rounds, on small graphs of tasks, and of loads that nest deep.
#![tactic(auto)]

#[cfg(test)]
mod tests;
