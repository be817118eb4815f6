//! What is true of the programs of generations, for a system of events whose tasks are those of an application's files.
//!
//! `facts_of` of `specs/Generations.antt` makes the facts from what is true of programs beside their applications. Each
//! law is the contract of a function of [`laws`] that does nothing.
#![tactic(auto)]

pub mod laws;
