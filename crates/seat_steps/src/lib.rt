//! The steps of a seat whose request is open, one after another, each told by its lines.
//!
//! | The request | A step |
//! |---|---|
//! | was asked for an operation that is no load | does it (`seat_operations`), and asks for the next one |
//! | was asked for a load | opens the load section of the task |
//! | is in its load section | defines the next task of the load, or closes the section where the load has ended |
//! | waits behind its load section | resumes |
//!
//! [`start`] opens a request, [`step`] makes its next step: what it comes to is `Steps` in `specs/Stepping.antt`.
//! Between its steps a request stays open whatever the other seats do, which is the law [`open_requests_stay`].
#![tactic(auto)]

mod answering;
mod laws;
mod loading;
mod next;
mod stepping;

pub use laws::open_requests_stay;
pub use next::{Next, NextOf, OpenRequest, RequestOf, Stepped, SteppedOf};
pub use stepping::{start, step};
