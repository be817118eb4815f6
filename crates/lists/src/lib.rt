//! The list types that every other crate is made of. Contracts see each of them as its list.
//!
//! [`Listed`] is for what is built once and read: paths, tokens, trees. [`SharedList`] is for what values are made of:
//! its content is shared, so that copying it costs no more than counting a reference.
#![tactic(auto)]

pub mod copying;
pub mod listed;
pub mod shared;
pub mod shared_list;

pub use copying::Copying;
pub use listed::Listed;
pub use shared::Shared;
pub use shared_list::SharedList;

/// A text: bytes that are shared when it is copied.
pub type Text = SharedList<u8>;
