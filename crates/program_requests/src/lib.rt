//! Requests to an application as runs that end with replies: a run asks for tasks, one after another, and ends with the
//! reply that the request has. A task whose load fails ends it with the error that it is to blame for.
//!
//! | Word | Is | In |
//! |---|---|---|
//! | `request_run` | the whole run of a request | `specs/Requests.antt` |
//! | `unknown_for` | why a task stays unknown | `specs/Requests.antt` |
//! | `talks_of` | what runs of requests mean to what serves them, however they are run | `specs/Requests.antt` |
//!
//! Each law is the contract of a function of [`laws`] that does nothing.
#![tactic(auto)]

pub mod laws;
