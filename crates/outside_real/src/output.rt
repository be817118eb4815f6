//! Standard output.
ghost use Rattle.std.specs.Prelude.{None};

use outside::{Sink, WriteAns};

/// Standard output, which tells nothing of what was written.
#[derive(Drop)]
pub struct StdoutSink<R: Print + Drop> {
    rt: R,
    faults: u64,
}

impl<R: Print + Drop> StdoutSink<R> {
    /// Standard output, to which nothing is written yet.
    pub fn new(rt: R) -> StdoutSink<R> {
        StdoutSink { rt, faults: 0 }
    }
}

impl<R: Print + Drop> Sink for StdoutSink<R> {
    ghost faults = { λ out. out.faults };

    ghost written = { λ _. None };

    fn write(&mut self, from: &[u8]) -> WriteAns {
        match self.rt.write_some(from) {
            Ok(count) if count > 0 => WriteAns::Took(count),
            _ => {
                self.faults = self.faults.saturating_add(1);
                WriteAns::Failed
            }
        }
    }
}
