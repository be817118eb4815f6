//! What a request that runs rests on, whatever the other seats do: its program and what it found in the table stay
//! until it ends. So the conditions of its events hold when it comes to them.
//!
//! | Law | Says |
//! |---|---|
//! | [`running_requests_go_on`] | no step but its end touches a running request, its program or what the table has |
//! | [`served_requests_stay`] | so a request that is on its way, with what it found in the table, stays so |
//! | [`loads_are_allowed`] | a task that a request looks at or loads is one of the program's |
//! | [`requests_conduct`] | what a request makes are the entries of its conduct, in their order |
//! | [`ends_are_allowed`] | a request that found its tasks in the table may end with its reply |
#![tactic(auto)]

mod laws;

pub use laws::{
    ends_are_allowed, loads_are_allowed, requests_conduct, running_requests_go_on,
    served_requests_stay,
};
