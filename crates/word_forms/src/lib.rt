//! The forms of words that scripts and command lines share.
//!
//! | Word | [`is_target`] | [`number_of`] with at most 64 | [`is_application_path`] |
//! |---|---|---|---|
//! | `/hello/index` | true | none | false |
//! | `hello`, `/a b` | false | none | false |
//! | `7` | false | 7 | false |
//! | `0`, `07`, `+7`, `65` | false | none | false |
//! | `app/models/post.rb`, `config/loader.conf` | false | none | true |
//! | `README`, `app/../x` | false | none | false |
#![tactic(auto)]

mod numbers;
mod paths;
mod targets;

pub use numbers::number_of;
pub use paths::is_application_path;
pub use targets::is_target;
