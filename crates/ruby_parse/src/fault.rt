//! The first fault of a file.

/// Why a file is no text of the profile.
#[derive(Clone, Copy, Debug, PartialEq, Eq)]
pub enum SyntaxKind {
    /// A fault of the lexer: a byte that begins no token, an open text, a wrong escape, a number out of range.
    Lex = 1,
    /// No file goes on with this token, or ends here.
    Expected = 2,
    /// A word or an operator of Ruby that the profile leaves out.
    NotInProfile = 3,
    /// A token that opens the 101st level of nesting.
    TooDeep = 4,
    /// A name that is defined a second time.
    TwiceDefined = 5,
    /// Want of memory.
    Memory = 6,
}

/// A fault and its place: the byte's number from 0, the file's length at its end, and 0 for want of memory.
#[derive(Clone, Copy, Debug, PartialEq, Eq)]
pub struct SyntaxFault {
    pub at: u32,
    pub kind: SyntaxKind,
}

/// Want of memory.
pub const MEMORY: SyntaxFault = SyntaxFault {
    at: 0,
    kind: SyntaxKind::Memory,
};
