//! Heads, as far as a connection knows of them.

/// What the first bytes of an input are. P is what is read of a head.
#[derive(Drop)]
pub enum Reading<P> {
    /// A whole head of so many bytes.
    Whole(usize, P),
    /// It may become a head.
    More,
    /// No head begins like this.
    Bad,
    /// The head is too long.
    Long,
    /// The head has too many lines.
    Many,
    Memory,
}

/// What a head says of its connection.
#[derive(Clone, Copy, Debug, PartialEq, Eq)]
pub struct Manner {
    /// It asks to close.
    pub close: bool,
    /// It announces a body.
    pub body: bool,
    /// The response is to have no body.
    pub head_only: bool,
}

/// Why bytes never become a head.
#[derive(Clone, Copy, Debug, PartialEq, Eq)]
pub enum Unreadable {
    Bad,
    Long,
    Many,
}
