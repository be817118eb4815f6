//! Files of the Ruby profile as trees: [`parse`] gives a file's tree or its first fault, and [`print`] a text of a
//! tree.
//!
//! # What is told of a file
//!
//! A file has one tree at most, by the rules of `ruby_grammar`. Where it has one, `parse` gives it. Else the file has
//! one first fault, with a place and a kind.
//!
//! | Kind | Stands at |
//! |---|---|
//! | `Lex` | bytes that are no token |
//! | `Expected` | a token, or the file's end, with which no file goes on |
//! | `NotInProfile` | a word or operator of Ruby that the profile leaves out |
//! | `TooDeep` | what opens the 101st level |
//! | `TwiceDefined` | the second name, as soon as what stands behind can't go on with it |
//!
//! The bytes are cut into tokens by `ruby_token`, and the tokens before the lexer's first fault are read by
//! `ruby_parse_definition`, one function a rule of the grammar. Of a fault of the lexer and one of the grammar the
//! first counts, at one place the lexer's.
//!
//! # An example
//!
//! | File | Answer |
//! |---|---|
//! | `class A`, LF, `end` | the class A without definitions |
//! | `class A`, LF | `Expected` at 8, the file's end |
//! | `class A`, LF, ` while x` | `NotInProfile` at 9 |
//! | `A=1`, LF, `class A 1` | `TwiceDefined` at 10 |
//! | `X = "a` | `Lex` at 4, the quote that opens |
//!
//! `print` of the first file's tree is `class A`, LF, `end`, LF, which is read as the same tree.
#![tactic(auto)]

mod fault;
mod file;
mod printing;
mod words;

pub use fault::{SyntaxFault, SyntaxKind};
pub use file::parse;
pub use printing::print;
