//! The tokens of a Ruby file: [`tokens`] cuts a file's bytes into tokens, or tells its first fault; [`lex`] tells both
//! the tokens before a fault and the fault. A token is a kind and a place in the bytes: its text is the slice there.
//!
//! # An example
//!
//! | Bytes | Tokens | Since |
//! |---|---|---|
//! | `x -1` | Name `x`, operator `-`, Int `1` | a name that isn't a reserved word ends a value |
//! | `return -1` | Name `return`, Int `-1` | `return` ends none, so the `-` is a sign |
//! | `a +`, LF, `b` | Name `a`, operator `+`, Name `b` | behind an operator the text goes on over an LF |
//! | `[`, LF, `;`, LF, `;`, `]` | `[`, one Line `;`, LF, `;`, and `]` | in brackets an LF counts as white |
//! | `"#{"b` | the fault OpenText at byte 0 | two texts are open at the end, and the outermost is told |
//!
//! # How a file is cut
//!
//! A lexeme is a token or a gap (white, a comment, a dropped LF). One rule a kind says what text a lexeme may be and
//! what must follow (`specs/Lexemes.antt`). No rule speaks of length: at each place the longest lexeme is taken
//! (`specs/Cut.antt`). What the bytes before a place mean for it is its state.
//!
//! | State | Has |
//! |---|---|
//! | `opens` | the texts, inside parts `#{..}` and braces that are open, the innermost first |
//! | `brackets` | how many `(`, `[` and `{` are open |
//! | `after` | whether the last token ends a value, or lets the text go on |
//! | `before` | the byte before |
//!
//! The cut ends at the file's end, or at its first fault.
//!
//! | Fault | Is told at |
//! |---|---|
//! | OpenText: the file ends in a text | the opening quote of the outermost open text |
//! | BigNumber: a number outside -2^63 to 2^63 - 1 | the number's first byte |
//! | BadEscape: a backslash in double quotes before a byte that it doesn't escape | the backslash |
//! | BadByte: a byte that begins no token, or that isn't UTF-8 | that byte |
//! | Memory: want of memory | 0 |
//!
//! # What is proved
//!
//! For files of less than 2^32 bytes, each a clause of both calls unless one is named:
//!
//! - `found`: what is returned is a cut of the bytes.
//! - `only`: there is no other cut.
//! - `spans`: tokens don't overlap, none is empty, and each token's slice is a text of its kind.
//! - `fault`, of `tokens`: a fault is the one that the cut ends in, or want of memory.
#![tactic(auto)]

mod fault;
mod lexeme;
mod lexer;
mod number;
mod opens;
mod operators;
mod scan;
mod state;
mod token;

pub use fault::{LexFault, LexKind};
pub use lexer::{Lexed, lex, tokens};
pub use token::{Op, Token, TokenKind, Tokens};
