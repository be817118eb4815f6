//! The built-in methods of texts, as the table of `specs/StrRows.antt` has them.
//!
//! For a receiver `Value::Str(text)` and a [`Call`](ruby_builtin_base::Call) of `capitalize` without arguments,
//! `call_str(&call, &text)` answers with the capitalized text and the call's cost in turns, with an error, or that
//! there
//! is no such method.
#![tactic(auto)]

mod characters;
mod letters;
mod numerals;
mod parts;
mod sizes;
mod str_rows;

pub use str_rows::call_str;
