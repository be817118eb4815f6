//! Faults of a text that can't be cut into tokens.

/// What is wrong.
#[derive(Clone, Copy, Debug, PartialEq, Eq)]
pub enum LexKind {
    /// A byte that begins no token, or that isn't UTF-8.
    BadByte = 1,
    /// A text without its closing quote.
    OpenText = 2,
    /// A number outside -2^63 to 2^63 - 1.
    BigNumber = 3,
    /// A backslash in double quotes before a byte that it doesn't escape.
    BadEscape = 4,
    /// Want of memory.
    Memory = 5,
}

/// A fault and its place: the byte's number from 0, and 0 for want of memory.
#[derive(Clone, Copy, Debug, PartialEq, Eq)]
pub struct LexFault {
    pub at: u32,
    pub kind: LexKind,
}

/// Want of memory.
pub const MEMORY: LexFault = LexFault {
    at: 0,
    kind: LexKind::Memory,
};
