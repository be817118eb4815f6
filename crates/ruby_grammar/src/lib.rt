//! The grammar of the Ruby profile: its words, rules and trees, its first faults, and what a reader by descent chooses.
//! The crate is definitions and their laws alone; `ruby_parse` reads files by it, and what `ruby_print` prints is a
//! text of it.
//!
//! # An example
//!
//! A file's words are its tokens with their texts and places. Each rule gives a value, and between the words stand
//! marks: from there on a definition counts. Take the lines `class A`, `  X = 1`, `  X = 2`, `end`.
//!
//! | Read | Rule | Mark behind it |
//! |---|---|---|
//! | `class A` | definition | `A` is opened as a class, at byte 6 |
//! | Line, `X =` | definition, in the body of `A` | `A::X` is assigned, at byte 10 |
//! | `1`, Line, `X =` | expression, and a definition in the body of `A` | `A::X` is assigned, at byte 18 |
//!
//! The last mark clashes with the one before it, since a path is assigned once. So the lines are no file, and their
//! first fault is at byte 18, the second `X`: a name that is defined twice. With `Y = 2` there the tree is a class `A`
//! that assigns `X` and `Y`. `class A` and a line end alone are at fault at their end, byte 8, where `end` or a
//! definition is expected.
//!
//! # The rules
//!
//! Each rule's alternatives stand beside the rule of the grammar that they write out, as `cref` in
//! `specs/Expressions.antt`. A rule carries what stands around it.
//!
//! | Of | Stands around it |
//! |---|---|
//! | a definition (`Body`) | the levels left, whether `@x =` may stand in any method, the path of the body |
//! | a statement (`Around`) | the levels left, whether `@x =` may stand, the local variables known so far |
//! | an expression (`Scope`) | the levels left, the local variables known so far |
//!
//! A file has 100 levels, and what nests opens one: a module, class or method, an `if` or `unless`, a bracket, `#{`, a
//! unary operator. A name without parentheses is a local variable where it is a parameter or was assigned earlier, else
//! a call on self. Operators as tight as one another group to the left: `a - b - c` is `(a - b) - c`.
//!
//! # Kinds of faults
//!
//! | Kind | Where |
//! |---|---|
//! | `twice_defined` | a definition clashes with one before it; told at the second name |
//! | `too_deep` | no file goes on with the word, but one of more levels would |
//! | `not_in_profile` | at a word or operator of Ruby that is left out, or at the `=` of an `@x =` that is barred |
//! | `expected` | at any other word with which no file goes on, or at the end |
//!
//! Of a fault of the lexer and one of the grammar the first in the bytes is told; at one place it is the lexer's.
//!
//! # What is proved
//!
//! The laws stand in [`laws`], each as the contract of a function that does nothing.
//!
//! - A file's words have one tree, and no fault; so have the bytes of a text.
//! - Words have at most one first fault, of one kind, and so have a file's bytes.
//! - Words that a reader by descent reads to their end are a file, with the tree that it gives. Where it stops is the
//! first fault of the words, of the kind that it tells.
//!
//! They follow from the theory of `descent`, whose laws the rules meet (`proofs/Law.antt`).
#![tactic(auto)]

pub mod laws;
