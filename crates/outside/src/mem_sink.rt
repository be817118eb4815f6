ghost use Rattle.std.specs.Prelude.{◌≡◌, ◌↔◌, ◌<◌, [], Some, length, IsTrue, false};
ghost use Rattle.outside.specs.Faults.{Counts};
ghost use Rattle.outside.specs.CallState.{uncalled};
ghost use Rattle.outside.specs.Calls.{counted, IsDue};
ghost use Rattle.outside.specs.WriteAns.{write_failed, FitsOffer, Adds, TakesAll};

use crate::answers::WriteAns;
use crate::calls::Calls;
use crate::files::CallNumbers;
use crate::streams::Sink;
use std::alloc::Global;
use std::marker::Model;

/// A sink in memory, which takes all that it is offered and fails at the calls with the given numbers.
/// A write that finds no memory for its bytes fails too, and from then on the sink tells that it is starved.
#[derive(Drop)]
pub struct MemSink {
    written: Vec<u8>,
    starved: bool,
    calls: Calls,
}

impl Model for MemSink {
    ghost use Rattle.outside.specs.MemoryStates.{SinkState};

    ghost Value = { SinkState };

    ghost view = { λ s. record { written = s.written.items; starved = s.starved; calls = s.calls } };
}

impl MemSink {
    /// A sink to which nothing is written yet. The calls with these numbers, counted from 1, are to fail.
    pub fn new(alloc: Global, fails: CallNumbers) -> MemSink
        ensures { result ≡ record { written = []; starved = false; calls = uncalled fails } }
    {
        MemSink {
            written: Vec::new(alloc),
            starved: false,
            calls: Calls::new(fails),
        }
    }

    /// The bytes that were written.
    pub fn written(&self) -> &[u8]
        ensures { result.now ≡ self.now.written }
    {
        self.written.as_slice()
    }

    /// Whether some write found no memory for its bytes.
    pub fn is_starved(&self) -> bool
        ensures { result ≡ self.now.starved }
    {
        self.starved
    }
}

impl Sink for MemSink {
    ghost faults = { λ s. s.calls.faults };

    ghost written = { λ s. Some s.written };

    fn write(&mut self, from: &[u8]) -> WriteAns
        requires { 0 < length from.now }
        ensures piece { FitsOffer result (length from.now) }
        ensures bytes { Adds result from.now (Some self.old.written) (Some self.new.written) }
        ensures faults { Counts (write_failed result) self.old.calls.faults self.new.calls.faults }

        // It fails exactly at the calls that it was told to fail at, as long as memory lasts, and takes all else whole.
        ensures fails { self.new.starved ≡ false → IsTrue (write_failed result) ↔ IsDue self.old.calls }
        ensures due { IsDue self.old.calls → IsTrue (write_failed result) × (self.new.starved ≡ self.old.starved) }
        ensures starved { IsTrue self.old.starved → IsTrue self.new.starved }
        ensures all { TakesAll result (length from.now) }
        ensures calls { self.new.calls ≡ counted (write_failed result) self.old.calls }
    {
        if self.calls.is_due() {
            self.calls.count_failed();
            return WriteAns::Failed;
        }
        if self.written.extend_from_slice(from).is_err() {
            self.starved = true;
            self.calls.count_failed();
            return WriteAns::Failed;
        }
        self.calls.count_passed();
        WriteAns::Took(from.len())
    }
}
