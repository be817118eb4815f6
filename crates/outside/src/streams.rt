ghost use Rattle.std.specs.Prelude.{◌≡◌, ◌<◌, ℕ, List, Option, length, IfSome};
ghost use Rattle.outside.specs.Faults.{Counts};
ghost use Rattle.outside.specs.ReadAns.{read_failed, FitsRoom, Takes, EndsWhereNothingIsLeft};
ghost use Rattle.outside.specs.WriteAns.{write_failed, FitsOffer, Adds};

use crate::answers::{ReadAns, WriteAns};

/// Where bytes come from.
pub trait Source {
    /// How many reads have failed.
    ghost faults: { Self → ℕ };

    /// The bytes that are left, where it tells them.
    ghost left: { Self → Option (List ℕ) };

    /// Gives some of the bytes that are left, at the beginning of the slice.
    fn read(&mut self, into: &mut [u8]) -> ReadAns
        requires { 0 < length into.old }
        ensures piece { FitsRoom result (length into.old) }
        ensures bytes { Takes result into.new (left self.old) (left self.new) }
        ensures end { IfSome (left self.old) (EndsWhereNothingIsLeft result) }
        ensures faults { Counts (read_failed result) (faults self.old) (faults self.new) };
}

/// Where bytes go to.
pub trait Sink {
    /// How many writes have failed.
    ghost faults: { Self → ℕ };

    /// The bytes that were written, where it tells them.
    ghost written: { Self → Option (List ℕ) };

    /// Takes some of the bytes, from the slice's beginning on.
    fn write(&mut self, from: &[u8]) -> WriteAns
        requires { 0 < length from.now }
        ensures piece { FitsOffer result (length from.now) }
        ensures bytes { Adds result from.now (written self.old) (written self.new) }
        ensures faults { Counts (write_failed result) (faults self.old) (faults self.new) };
}
