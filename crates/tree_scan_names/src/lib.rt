//! Names from paths: [`camelize`] gives the constant of a base name, [`names_below`] the names that a file's path
//! spells
//! below its root, by the [`NamingRules`] of a configuration.
#![tactic(auto)]

mod camel;
mod counts;
mod rules;
mod spelling;
mod steps;

pub use camel::camelize;
pub use rules::NamingRules;
pub use spelling::{Spelling, names_below, spells_one_list};
