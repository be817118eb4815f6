//! How printed files are cut into tokens: into the pieces that they were printed of.
#![tactic(auto)]

pub mod laws;
