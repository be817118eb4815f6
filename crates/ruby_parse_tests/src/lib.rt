//! What `ruby_parse` does with the longest and deepest files: chains of a million links and a hundred levels end in
//! an answer.
//!
//! What it answers for short files is tried by `ruby_parse_cases`.
#![tactic(auto)]

#[cfg(test)]
mod chains;
#[cfg(test)]
mod large;
