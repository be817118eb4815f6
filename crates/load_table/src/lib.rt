//! The table of the values that tasks have in one generation, which a load fills.
#![tactic(auto)]

mod table;
#[cfg(test)]
mod tests;

pub use table::Table;
