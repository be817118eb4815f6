//! What running Ruby code changes: the locals of a method, and in `initialize` the instance variables of self.
#![tactic(auto)]

mod state;

pub use state::{StateCode, assign, bind, local, variable, with_variable};
