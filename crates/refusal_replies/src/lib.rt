//! Why requests of a system are refused, as the notices and replies that tell it.
//!
//! | Cause | Told as |
//! |---|---|
//! | the files could not be read | 500 `the application files could not be read` |
//! | a limit, a fault of the configuration or of names | 500 `limit: files 4097`, `bad name: app/lib/foo-bar.rb` |
//! | no more generations, no more kept bytes | 503 `limit: generations 4096`, `limit: kept bytes 268435457` |
//! | the method, a body, the target's length | 405, 400, 414 |
//! | want of memory, of which nobody is told | 500 `out of memory` |
#![tactic(auto)]

mod refusals;

pub use refusals::{notice_of, refusal_reply};
