//! One generation of an application as an application of the profile: its tasks, what is known of it and its replies
//! are those of the files that a program uses.
//!
//! | Word | Is | In |
//! |---|---|---|
//! | `application_of` | the application of the files that a program uses | `specs/Applications.antt` |
//! | `rules_of (application_of ..)` | its tasks and their runs | `program_theory` |
//! | `reply_of (application_of ..)` | what a request is answered with | `program_theory` |
//! | `IsReplyTo` | the reply to a request on the files of a snapshot | `specs/Replies.antt` |
//!
//! Each law is the contract of a function of [`laws`] that does nothing.
#![tactic(auto)]

pub mod laws;
