//! Methods of a class or module, found by their names by halving.
//!
//! Of two methods of one name the first counts, as the text has them.
#![tactic(auto)]

mod method_table;

pub use method_table::MethodTable;
