//! What is said of applications, on examples.
#![tactic(auto)]

#[cfg(test)]
mod tests;
