//! Loads of many tasks of an application, one after another on one table: which are defined, in which order, and the
//! error of each that stays unknown.
//!
//! Of the files `app/lib/a.rb` with `module A`, `X = 1`, and `app/lib/b.rb` with `module B`, `Y = C`, all tasks are
//! loaded. Defined are `A::X`, `A`, its ancestors and its file, by need of one another; `app/lib/b.rb` and `B::Y` stay
//! unknown, with the error `NameError: uninitialized constant C (app/lib/b.rb)`, and what is behind them is loaded too.
#![tactic(auto)]

mod many;

pub use many::{ManyLoaded, load_each};
