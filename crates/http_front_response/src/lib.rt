//! Responses: their bytes, and the replies that tell a refusal.
#![tactic(auto)]

mod notice;
mod response;

pub use notice::Notice;
pub use response::print_response;
