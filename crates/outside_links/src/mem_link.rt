ghost use Rattle.std.specs.Prelude.{◌≡◌, ◌↔◌, ◌<◌, ◌≤◌, [], Some, false, length, IsTrue, min};
ghost use Rattle.outside.specs.Faults.{Counts};
ghost use Rattle.outside.specs.CallState.{uncalled};
ghost use Rattle.outside.specs.Calls.{counted, IsDue};
ghost use Rattle.outside.specs.ReadAns.{read_failed, FitsRoom, Takes, EndsWhereNothingIsLeft, GetsPiece};
ghost use Rattle.outside.specs.WriteAns.{write_failed, FitsOffer, Adds, TakesAll};
ghost use Rattle.outside_links.specs.Reading.{Reads};

use crate::links::Link;
use outside::{CallNumbers, Calls, FileBytes, ReadAns, WriteAns};
use std::alloc::Global;
use std::marker::Model;

/// A link in memory, which gives its bytes in pieces of a greatest size, takes all that it is offered, and fails at the
/// calls with the given numbers. A write that finds no memory for its bytes fails too, and from then on the link tells
/// that it is starved.
#[derive(Drop)]
pub struct MemLink {
    bytes: FileBytes,
    taken: usize,
    written: Vec<u8>,
    piece: usize,
    starved: bool,
    calls: Calls,
    read_faults: u64,
    write_faults: u64,
}

impl Model for MemLink {
    ghost use Rattle.outside_links.specs.LinkState.{LinkState};

    ghost Value = { LinkState };

    ghost use Rattle.std.specs.Prelude.{◌≤◌, length, take, drop};

    ghost view = { λ s. record {
      was_read = take s.taken s.bytes;
      left = drop s.taken s.bytes;
      written = s.written.items;
      piece = s.piece;
      starved = s.starved;
      calls = s.calls;
      read_faults = s.read_faults;
      write_faults = s.write_faults;
    } };

    ghost invariant = { λ s. (s.taken ≤ length s.bytes) × (1 ≤ s.piece) };
}

impl MemLink {
    /// A link that is to be read as these bytes, at most `piece` of them, at least 1, at a time.
    /// The calls with these numbers, counted from 1, are to fail.
    pub fn new(alloc: Global, bytes: FileBytes, piece: usize, fails: CallNumbers) -> MemLink
        requires { 1 ≤ piece }
        ensures { result ≡ record {
          was_read = [];
          left = bytes;
          written = [];
          piece = piece;
          starved = false;
          calls = uncalled fails;
          read_faults = 0;
          write_faults = 0;
        } }
    {
        MemLink {
            bytes,
            taken: 0,
            written: Vec::new(alloc),
            piece,
            starved: false,
            calls: Calls::new(fails),
            read_faults: 0,
            write_faults: 0,
        }
    }

    /// The bytes that were written.
    pub fn written(&self) -> &[u8]
        ensures { result.now ≡ self.now.written }
    {
        self.written.as_slice()
    }

    /// Whether some write found no memory for its bytes.
    pub fn is_starved(&self) -> bool
        ensures { result ≡ self.now.starved }
    {
        self.starved
    }
}

impl Link for MemLink {
    ghost read_faults = { λ s. s.read_faults };

    ghost write_faults = { λ s. s.write_faults };

    ghost left = { λ s. Some s.left };

    ghost was_read = { λ s. Some s.was_read };

    ghost was_written = { λ s. Some s.written };

    fn read(&mut self, into: &mut [u8]) -> ReadAns
        requires { 0 < length into.old }
        ensures piece { FitsRoom result (length into.old) }
        ensures bytes { Takes result into.new (Some self.old.left) (Some self.new.left) }
        ensures told { Reads result into.new (Some self.old.was_read) (Some self.new.was_read) }
        ensures end { EndsWhereNothingIsLeft result self.old.left }
        ensures faults { Counts (read_failed result) self.old.read_faults self.new.read_faults }
        ensures written { Some self.new.written ≡ Some self.old.written }
        ensures write_faults { self.new.write_faults ≡ self.old.write_faults }

        // It fails at the calls that it was told to fail at alone, and gives as much as it may.
        ensures fails { IsTrue (read_failed result) ↔ IsDue self.old.calls }
        ensures size { GetsPiece result (min (length self.old.left) (min self.old.piece (length into.old))) }
        ensures calls { self.new.calls ≡ counted (read_failed result) self.old.calls }
        ensures same { (self.new.piece ≡ self.old.piece) × (self.new.starved ≡ self.old.starved) }
    {
        if self.calls.is_due() {
            self.calls.count_failed();
            self.read_faults = self.read_faults.saturating_add(1);
            return ReadAns::Failed;
        }
        self.calls.count_passed();
        let left = &self.bytes.as_bytes()[self.taken..];
        let count = left.len().min(self.piece.min(into.len()));
        if count == 0 {
            return ReadAns::End;
        }
        into[..count].copy_from_slice(&left[..count]);
        self.taken += count;
        ReadAns::Got(count)
    }

    fn write(&mut self, from: &[u8]) -> WriteAns
        requires { 0 < length from.now }
        ensures piece { FitsOffer result (length from.now) }
        ensures bytes { Adds result from.now (Some self.old.written) (Some self.new.written) }
        ensures faults { Counts (write_failed result) self.old.write_faults self.new.write_faults }
        ensures read { Some self.new.was_read ≡ Some self.old.was_read }
        ensures left { Some self.new.left ≡ Some self.old.left }
        ensures read_faults { self.new.read_faults ≡ self.old.read_faults }

        // It fails exactly at the calls that it was told to fail at, as long as memory lasts, and takes all else whole.
        ensures fails { self.new.starved ≡ false → IsTrue (write_failed result) ↔ IsDue self.old.calls }
        ensures due { IsDue self.old.calls → IsTrue (write_failed result) × (self.new.starved ≡ self.old.starved) }
        ensures starved { IsTrue self.old.starved → IsTrue self.new.starved }
        ensures all { TakesAll result (length from.now) }
        ensures calls { self.new.calls ≡ counted (write_failed result) self.old.calls }
        ensures same { self.new.piece ≡ self.old.piece }
    {
        if self.calls.is_due() {
            self.calls.count_failed();
            self.write_faults = self.write_faults.saturating_add(1);
            return WriteAns::Failed;
        }
        if self.written.extend_from_slice(from).is_err() {
            self.starved = true;
            self.calls.count_failed();
            self.write_faults = self.write_faults.saturating_add(1);
            return WriteAns::Failed;
        }
        self.calls.count_passed();
        WriteAns::Took(from.len())
    }
}
