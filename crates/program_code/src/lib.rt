//! The code of an application: of each constant that a file owns, whether the file is at fault, the expression that it
//! assigns, or the class or module that it opens, with its methods by their names.
//!
//! Expressions and bodies of methods stand in one table of nodes. Of `class A`, `def self.a`, `1`, `end`, `end` the
//! code of `A` is a class without a parent and with the singleton method `a`, whose body is the statements from a node
//! on.
#![tactic(auto)]

mod codes;
mod content;
mod definitions;
mod file;
mod groups;
mod members;
mod opened;

pub use codes::codes_of;
pub use content::ContentCode;
pub use opened::OpenedCode;
