ghost use Rattle.std.specs.Prelude.{◌≡◌, ◌↔◌, IsTrue, true, false};
ghost use Rattle.outside.specs.CallState.{uncalled};
ghost use Rattle.outside.specs.Calls.{counted, IsDue};
ghost use Rattle.outside.specs.Faults.{Rose};

use crate::files::CallNumbers;
use std::marker::Model;

/// The calls of an object in memory: which are to fail, and how many were made and failed.
#[derive(Drop)]
pub struct Calls {
    fails: CallNumbers,
    made: u64,
    faults: u64,
}

impl Model for Calls {
    ghost use Rattle.outside.specs.CallState.{CallState};

    ghost Value = { CallState };

    ghost view = { λ c. record { fails = c.fails; made = c.made; faults = c.faults } };

    ghost use Rattle.outside.specs.CallState.{most};
    ghost use Rattle.std.specs.Prelude.{◌≤◌};

    ghost invariant = { λ c. (c.made ≤ most) × (c.faults ≤ most) };
}

impl Calls {
    /// No calls yet. Those with these numbers, counted from 1, are to fail.
    pub fn new(fails: CallNumbers) -> Calls
        ensures { result ≡ uncalled fails }
    {
        Calls {
            fails,
            made: 0,
            faults: 0,
        }
    }

    /// Whether the next call is to fail.
    pub fn is_due(&self) -> bool
        ensures { IsTrue result ↔ IsDue self.now }
    {
        self.fails.as_slice().contains(&self.made.saturating_add(1))
    }

    /// Counts a call that didn't fail.
    pub fn count_passed(&mut self)
        ensures { self.new ≡ counted false self.old }
    {
        self.made = self.made.saturating_add(1);
    }

    /// Counts a call that failed.
    pub fn count_failed(&mut self)
        ensures counted { self.new ≡ counted true self.old }
        ensures rose { Rose self.old.faults self.new.faults }
    {
        self.made = self.made.saturating_add(1);
        self.faults = self.faults.saturating_add(1);
    }
}
