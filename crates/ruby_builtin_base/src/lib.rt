//! What the built-in methods of every kind stand on: what a call is, what it costs, how it answers, and how values and
//! errors are printed.
//!
//! A row is defined as what it comes to by its arguments, `takes_int (λ m. ..)` of `specs/Arguments.antt`, and a call
//! of it answers by `specs/Answers.antt`. In code a row is an arm that reads its arguments with [`Call::one_int`] and
//! its like and answers with [`Call::gives`] and its like: `PLUS => Ok(call.integer(sum(n, call.one_int()?)))`.
#![tactic(auto)]

mod answer;
mod arguments;
mod call;
mod called;
mod characters;
mod errors;
mod lengths;
mod printing;
mod results;

pub use arguments::wrong_count_text;
pub use call::Call;
pub use called::Called;
pub use characters::{character_count, is_inner};
pub use errors::{class_name, error_text};
pub use lengths::{inspect_len, to_s_len};
pub use printing::{inspect, push_inspect, push_to_s, to_s};
pub use results::counted;
