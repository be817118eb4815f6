//! What a matter owes whose requests are replayed: how tasks and replies are told, and what targets ask for.
//!
//! | Member | Owes |
//! |---|---|
//! | `task_name`, `logs` | how a task is told, and what is logged where it is defined |
//! | `status`, `body`, `refusal` | what is told of a reply, and the reply that tells why a request is refused |
//! | `request_of` | the request of a target, which may begin |
//!
//! Its tasks are loaded by need (`request_loads`), and its programs are built of files (`reload_matter`).
#![tactic(auto)]

mod replays;

pub use replays::Replays;
