//! What is promised of each head that a pass serves, over what it has seen.
//!
//! | Word | Says |
//! |---|---|
//! | `HeadCourse` (`specs/Courses.antt`) | what a pass did for a head, from its Share to its Unshare |
//! | `Promise` (`specs/Promises.antt`) | a head that got an item: its course, in a legal history, and its item |
//! | `Shortfall` | a head that got none, since a limit was met or memory ran out |
//!
//! # An example
//!
//! A file has changed, and a request asks for `a`:
//!
//! | Part | Acts |
//! |---|---|
//! | share | Share |
//! | check, which tells a reload | Take, Reload, Release |
//! | run | Begin, Take, Define(`a`), Release, End |
//! | | Unshare |
//!
//! Its item is the request with its reply, on the generation that the Reload began.
#![tactic(auto)]

mod laws;

pub use laws::{
    begun_requests_are_fresh, refused_heads_have_a_course, replied_heads_have_a_course,
};
