ghost use Rattle.std.specs.Prelude.{◌≡◌, ◌<◌, ℕ, List, Option, length, IfSome};
ghost use Rattle.outside.specs.Faults.{Counts};
ghost use Rattle.outside.specs.ReadAns.{read_failed, FitsRoom, Takes, EndsWhereNothingIsLeft};
ghost use Rattle.outside.specs.WriteAns.{write_failed, FitsOffer, Adds};
ghost use Rattle.outside_links.specs.Reading.{Reads};

use outside::{ReadAns, WriteAns};

/// A connection: bytes that come in, and bytes that go out.
pub trait Link: Send + Drop {
    /// How many reads have failed.
    ghost read_faults: { Self → ℕ };

    /// How many writes have failed.
    ghost write_faults: { Self → ℕ };

    /// The bytes that are left to be read, where it tells them.
    ghost left: { Self → Option (List ℕ) };

    /// The bytes that were read, where it tells them.
    ghost was_read: { Self → Option (List ℕ) };

    /// The bytes that were written, where it tells them.
    ghost was_written: { Self → Option (List ℕ) };

    /// Gives some of the bytes that are left, at the beginning of the slice. It leaves what was written.
    fn read(&mut self, into: &mut [u8]) -> ReadAns
        requires { 0 < length into.old }
        ensures piece { FitsRoom result (length into.old) }
        ensures bytes { Takes result into.new (left self.old) (left self.new) }
        ensures told { Reads result into.new (was_read self.old) (was_read self.new) }
        ensures end { IfSome (left self.old) (EndsWhereNothingIsLeft result) }
        ensures faults { Counts (read_failed result) (read_faults self.old) (read_faults self.new) }
        ensures written { was_written self.new ≡ was_written self.old }
        ensures write_faults { write_faults self.new ≡ write_faults self.old };

    /// Takes some of the bytes, from the slice's beginning on. It leaves what was read and what is left.
    fn write(&mut self, from: &[u8]) -> WriteAns
        requires { 0 < length from.now }
        ensures piece { FitsOffer result (length from.now) }
        ensures bytes { Adds result from.now (was_written self.old) (was_written self.new) }
        ensures faults { Counts (write_failed result) (write_faults self.old) (write_faults self.new) }
        ensures read { was_read self.new ≡ was_read self.old }
        ensures left { left self.new ≡ left self.old }
        ensures read_faults { read_faults self.new ≡ read_faults self.old };
}
