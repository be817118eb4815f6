//! Loading the files of an application by need: the tasks of its files and their runs are rules of `by_need` and meet
//! all its laws. What is known of an application doesn't depend on the order in which files were loaded, and each
//! request has one reply.
//!
//! | Word | Is | In |
//! |---|---|---|
//! | `Application` | files, how controllers are named, built-in methods and limits | `specs/Applications.antt` |
//! | `rules_of` | its tasks, their order, and their runs | `specs/Applications.antt` |
//! | `blame_error` | the error that a blame is told as | `specs/Replies.antt` |
//! | `reply_of` | what a request is answered with | `specs/Replies.antt` |
//!
//! Each law is the contract of a function of [`laws`] that does nothing.
#![tactic(auto)]

pub mod laws;
