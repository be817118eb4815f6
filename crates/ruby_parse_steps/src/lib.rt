//! What the functions of the parser answer, and those of them that call none of the others: trees of operators, paths,
//! levels of nesting, choices that were begun.
#![tactic(auto)]

mod choices;
mod operators;
mod paths;
mod postfixes;
mod scope;

pub use choices::{Open, end_choices, push_open};
pub use operators::{Level, choice_of, is_operator, minus_call, negated, operation};
pub use paths::{constant, longer, path_rest};
pub use postfixes::{Postfix, with_postfix};
pub use scope::{LEVELS, Scope, opened};
