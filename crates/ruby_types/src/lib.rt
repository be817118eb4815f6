//! The values of the Ruby profile, its errors, requests and replies, and the trees of its files.
//!
//! Texts and the lists that values are made of share their content, so that copying a value counts a reference.
//! The lists that trees are made of are built once and read.
#![tactic(auto)]

mod compare;
mod copies;
mod identical;
mod pairing;
mod request;
mod sizes;
mod tree;
mod value;

pub use compare::equal;
pub use copies::{copy, copy_request, copy_task};
pub use request::{ErrorClass, Reply, Request, RubyError, Task};
pub use sizes::{path_size, size};
pub use tree::{
    Arms, ConstRef, Def, Defs, Expr, ExprPairs, Exprs, FileTree, Part, Parts, Stmt, Stmts,
};
pub use value::{CPath, Items, Pairs, Text, TextList, Value};
