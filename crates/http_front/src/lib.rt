//! The wire of HTTP/1.1 as the server speaks it: heads are read, their targets become requests, and replies become
//! responses.
//!
//! | Call | From | To |
//! |---|---|---|
//! | [`read_head`] | the bytes of an input so far | a whole head, the need of more bytes, or that none comes |
//! | [`request_of`] | a head's target | the request of a controller's action with its parameters |
//! | [`print_response`] | a reply | the bytes that are sent |
//! | [`Notice::reply`] | why there is no reply of the application's own | the reply that tells it |
#![tactic(auto)]

pub use http_front_head::{
    Head, HeadParts, LONGEST_HEAD, MOST_LINES, Verb, heads_are_lawful, read_head,
};
pub use http_front_request::{LONGEST_TARGET, TargetFault, request_of};
pub use http_front_response::{Notice, print_response};
