//! What the objects in memory answer, call by call.
#![tactic(auto)]

#[cfg(test)]
mod files;
#[cfg(test)]
mod streams;
