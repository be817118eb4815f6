//! Which constants the files of an application spell, by small applications.
#![tactic(auto)]

#[cfg(test)]
mod tests;
