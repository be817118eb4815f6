ghost use Rattle.std.specs.Prelude.{◌≡◌, ◌↔◌, ◌<◌, ◌≤◌, Some, length, IsTrue, min};
ghost use Rattle.outside.specs.Faults.{Counts};
ghost use Rattle.outside.specs.CallState.{uncalled};
ghost use Rattle.outside.specs.Calls.{counted, IsDue};
ghost use Rattle.outside.specs.ReadAns.{read_failed, FitsRoom, Takes, EndsWhereNothingIsLeft, GetsPiece};

use crate::answers::ReadAns;
use crate::calls::Calls;
use crate::files::{CallNumbers, FileBytes};
use crate::streams::Source;
use std::marker::Model;

/// A source in memory, which gives its bytes in pieces of a greatest size and fails at the calls with the given
/// numbers.
#[derive(Drop)]
pub struct MemSource {
    bytes: FileBytes,
    taken: usize,
    piece: usize,
    calls: Calls,
}

impl Model for MemSource {
    ghost use Rattle.outside.specs.MemoryStates.{SourceState};

    ghost Value = { SourceState };

    ghost use Rattle.std.specs.Prelude.{◌≤◌, length, drop};

    ghost view = { λ s. record { left = drop s.taken s.bytes; piece = s.piece; calls = s.calls } };

    ghost invariant = { λ s. (s.taken ≤ length s.bytes) × (1 ≤ s.piece) };
}

impl MemSource {
    /// A source of these bytes, which gives at most `piece` of them, at least 1, at a time.
    /// The calls with these numbers, counted from 1, are to fail.
    pub fn new(bytes: FileBytes, piece: usize, fails: CallNumbers) -> MemSource
        requires { 1 ≤ piece }
        ensures { result ≡ record { left = bytes; piece = piece; calls = uncalled fails } }
    {
        MemSource {
            bytes,
            taken: 0,
            piece,
            calls: Calls::new(fails),
        }
    }
}

impl Source for MemSource {
    ghost faults = { λ s. s.calls.faults };

    ghost left = { λ s. Some s.left };

    fn read(&mut self, into: &mut [u8]) -> ReadAns
        requires { 0 < length into.old }
        ensures piece { FitsRoom result (length into.old) }
        ensures bytes { Takes result into.new (Some self.old.left) (Some self.new.left) }
        ensures end { EndsWhereNothingIsLeft result self.old.left }
        ensures faults { Counts (read_failed result) self.old.calls.faults self.new.calls.faults }

        // It fails at the calls that it was told to fail at alone, and gives as much as it may.
        ensures fails { IsTrue (read_failed result) ↔ IsDue self.old.calls }
        ensures size { GetsPiece result (min (length self.old.left) (min self.old.piece (length into.old))) }
        ensures calls { self.new.calls ≡ counted (read_failed result) self.old.calls }
        ensures same { self.new.piece ≡ self.old.piece }
    {
        if self.calls.is_due() {
            self.calls.count_failed();
            return ReadAns::Failed;
        }
        self.calls.count_passed();
        let left = &self.bytes.as_bytes()[self.taken..];
        let count = left.len().min(self.piece.min(into.len()));
        if count == 0 {
            return ReadAns::End;
        }
        into[..count].copy_from_slice(&left[..count]);
        self.taken += count;
        ReadAns::Got(count)
    }
}
