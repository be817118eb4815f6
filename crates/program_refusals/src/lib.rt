//! Why an application has no program, as the refusal that a text tells: `limit: files 4097`,
//! `config/loader.conf:2: unknown word`, `bad name: app/models/1.rb`, `two roots: app/models`.
#![tactic(auto)]

pub mod laws;
mod refusals;

pub use refusals::refusal_of;
