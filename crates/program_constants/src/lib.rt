//! Constants of a list, found by their paths: where one stands first, and whether something stands inside it.
//!
//! Of `Admin`, `Admin::User`, `Api::Posts` and a second `Admin` the first `Admin` is found at 0, `Api` and `Api::Posts`
//! have a site, `Admin` and `Api` are namespaces. A look-up is a binary search in a table of sites, in which the
//! constants stand with their places as the numbers of files.
#![tactic(auto)]

mod table;

pub use table::ConstantTable;
