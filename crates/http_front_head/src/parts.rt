//! What heads are, and what they say.
use ruby_types::Text;

/// The greatest number of bytes of a head.
pub const LONGEST_HEAD: usize = 16384;

/// The greatest number of a head's header lines.
pub const MOST_LINES: usize = 64;

/// A request's method.
#[derive(Clone, Copy, Debug, PartialEq, Eq)]
pub enum Verb {
    Get,
    /// HEAD: the response has no body.
    HeadOnly,
    /// A method that is not served.
    Other,
}

/// What a head says: the method, the target, whether the connection closes behind the response, and whether a body is
/// announced.
#[derive(Drop)]
pub struct HeadParts {
    pub verb: Verb,
    pub target: Text,
    pub close: bool,
    pub body: bool,
}

/// What the first bytes of an input are.
#[derive(Drop)]
pub enum Head {
    /// A whole head of so many bytes.
    Whole(usize, HeadParts),
    /// More bytes are needed.
    More,
    /// No bytes that follow make it a head, or the length of its body can't be told.
    Bad,
    /// `LONGEST_HEAD` bytes hold no whole head.
    Long,
    /// There are more than `MOST_LINES` header lines.
    Many,
    Memory,
}
