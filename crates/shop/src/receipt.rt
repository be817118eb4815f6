//! What is kept of a request that ended.

/// What the end of a request answers.
#[derive(Clone, Copy, Debug, PartialEq, Eq)]
pub struct Receipt {
    /// The pass's own count of its requests, from 1.
    pub number: u32,
    /// The place of its Begin in the history.
    pub begun: u64,
    /// The place of its End.
    pub ended: u64,
    /// The number of the generation in force at both.
    pub generation: u32,
}
