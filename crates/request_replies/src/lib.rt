//! The reply to a request to an application, by need: what its run asks for is loaded into a table, and it replies as
//! it does over all that is known of the application, whatever was loaded before.
//!
//! It is generic over what runs tasks and requests.
#![tactic(auto)]

mod replies;

pub use replies::reply_to;
