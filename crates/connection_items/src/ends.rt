//! How connections end.

/// How a connection ended. F is a limit that was met.
#[derive(Drop)]
pub enum End<F> {
    /// The input ended at a head's boundary, or the last head asked to close.
    Closed,
    /// The input ended in a head, of which so many bytes are there.
    TornHead(usize),
    /// What came is no head; a response said so.
    BadHead,
    /// A head is too long; a response said so.
    LongHead,
    /// A head has too many lines; a response said so.
    ManyHeaders,
    /// The last head announced a body, which isn't read.
    Unread,
    ReadFault,
    WriteFault,
    /// A limit was met; a response said so.
    Full(F),
    Memory,
}

/// Whether a connection goes on.
#[derive(Drop)]
pub enum Step<F> {
    On,
    Over(End<F>),
}
