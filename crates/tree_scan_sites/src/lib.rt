//! The constants that files spell: which have a site, which names stand inside each, which files are shadowed.
//!
//! # What a table tells
//!
//! A [`SiteTable`] is made of a list of spellings. It knows nothing of paths of files: a file and a root are numbers.
//! Of these spellings
//!
//! | Constant | Root | File |
//! |---|---|---|
//! | `Admin` | 0 | 0 |
//! | `Admin::User` | 0 | 1 |
//! | `Admin` | 1 | 2 |
//! | `Api::Posts` | 0 | 3 |
//!
//! it tells that `Admin` is `Site::Explicit(0)` with the one child `User`, `Admin::User` is `Site::File(1)`, `Api` is
//! `Site::Namespace` with the child `Posts`, `Api::Posts` is `Site::File(3)`, and the file 2 is shadowed. The
//! children of
//! Object, whose path is empty, are `Admin` and `Api`.
//!
//! # How it works
//!
//! The spellings are sorted by constant, then by root, then by file. So the first one of a constant is its file, the
//! others are shadowed, and what stands inside a constant follows it. One walk over the sorted list makes a row for
//! each
//! constant and each of its outer namespaces, with its site and its children; the rows rise by path, and a look-up is a
//! binary search among them. Making the table takes time in proportion to the names of all spellings, besides the sort.
#![tactic(auto)]

mod compare;
mod prefixes;
mod rows;
mod search;
mod shadows;
mod spelled;
mod table;

pub use compare::compare_paths;
pub use spelled::{Names, Site, SiteRow, Spelled};
pub use table::SiteTable;
