//! Each tree that some text has is formed: its names are names, its variables are known, nothing is defined twice.
#![tactic(auto)]

pub mod laws;
