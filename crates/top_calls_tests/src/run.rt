//! Runs of `once_main` over files in memory.

use lists::Listed;
use outside::{CallNumbers, FileBytes, MemSink, MemSource, MemTree};
use ruby_types::TextList;
use std::alloc::{AllocError, Global};
use top_calls::once_main;

/// What a run answered: its exit status and what it wrote.
#[derive(Drop)]
pub struct Run {
    pub status: u8,
    pub written: Vec<u8>,
}

/// Runs the words over the tree, with a sink that fails at the given calls.
pub fn run_on(
    alloc: Global,
    words: &TextList,
    tree: &mut MemTree,
    sink_fails: &[u64],
) -> Result<Run, AllocError> {
    let mut script = MemSource::new(FileBytes::new(alloc), 1, CallNumbers::new(alloc));
    let mut out = MemSink::new(alloc, Listed::from_slice(alloc, sink_fails)?);
    let status = once_main(alloc, words, &mut script, tree, &mut out);
    Ok(Run {
        status,
        written: Vec::from_slice(alloc, out.written())?,
    })
}
