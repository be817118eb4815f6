//! The texts of the files that an application uses: each file's tree, or its first fault in words.
//!
//! Of a file with `class A`, LF, the first fault is `unexpected` at 8; of one with `class A`, LF, `end`, LF there is
//! the tree of the class A. A file that is shadowed, or spells nothing, isn't read.
#![tactic(auto)]

mod text;
mod texts;

pub use text::read_text;
pub use texts::read_texts;
