//! The built-in methods that every value has, and those of symbols and modules.
#![tactic(auto)]

mod module_rows;
mod sym_rows;
mod value_rows;

pub use module_rows::call_module;
pub use sym_rows::call_sym;
pub use value_rows::call_value;
