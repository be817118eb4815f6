//! The laws of all legal histories, whoever made them and however the seats' steps interleaved.
//!
//! `every_legal_history` states them, and has nothing to do. Each law is of any number of seats and any history:
//!
//! | Clause | Says, of a legal history and the state after it |
//! |---|---|
//! | `right` | each End carries the reply of its seat's request, on the program of the last Reload before it began |
//! | `exclusive` | an exclusive seat is alone, and beside an unload nobody runs a request |
//! | `may_take` | where nobody is exclusive and nobody shares, whoever seeks a load may take it |
//! | `table` | the table is part of what is known of the program in force, and has no task twice |
//! | `once` | between two Reloads no task is defined twice |
//! | `needed` | each task that was defined is needed by the task that was sought |
//! | `sections` | a section was opened by an entry of its want: a load where the seat runs, else an unload |
//! | `steady` | no Reload stands after the Begin of a request that runs |
#![tactic(auto)]

mod laws;

pub use laws::every_legal_history;
