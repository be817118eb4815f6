//! The fault of a file: the first of six.
//!
//! | Of the file `app/lib/a/b.rb`, whose constant is `A::B` | Fault |
//! |---|---|
//! | a text that doesn't parse | `SyntaxError`, `unexpected at byte 12` |
//! | `module A`, `end` | `NameError`, `expected file app/lib/a/b.rb to define constant A::B, but didn't` |
//! | `module A::B`, `end`, `X = 1` | `NameError`, `app/lib/a/b.rb defines more than A::B` |
//! | `module A`, `B = 1`, `end`, beside `app/lib/a/b/c.rb` | `TypeError`, `A::B is not a class or module` |
//! | `module A::B`, `class C`, `end`, `end`, beside `app/lib/a/b/c.rb` | `NameError`, `A::B::C has a file of its own` |
//! | `class A`, `module B`, `end`, `end`, where no file spells `A` | `TypeError`, `A is not a class` |
//!
//! A constant that a path inside the file's constant only passes through counts as the fifth says, so that each
//! constant has one owner.
#![tactic(auto)]

mod files;
mod inner;
mod messages;
mod own;
mod paths;
mod read;
mod reading;
mod tests_of_entries;
mod verdict;

pub use files::UsedFiles;
pub use own::{OwnKind, is_definition, kind_of, own_of};
pub use paths::{begins, is_above, is_same};
pub use read::{ReadFile, Reading};
pub use reading::entries_in;
pub use verdict::file_fault;
