//! Amounts that are set aside, seat by seat.
ghost use Rattle.std.specs.Prelude.{◌≡◌, ◌+◌, ◌<◌, ◌≤◌, ◌^◌, length, sum, slice_index, slice_set, replicate, IfOk};

use std::alloc::{AllocError, Global};
use std::marker::Model;

/// An amount for each of 64 seats. Together they are below 2^32.
#[derive(Drop)]
pub struct Spares {
    amounts: Vec<u32>,
    total: u32,
}

impl Model for Spares {
    ghost use Rattle.std.specs.Prelude.{◌≡◌, ℕ, List, sum};

    ghost Value = { List ℕ };

    ghost view = { λ s. s.amounts.items };

    ghost invariant = { λ s. s.total ≡ sum s.amounts.items };
}

impl Spares {
    /// Nothing for each of 64 seats.
    pub fn new(alloc: Global) -> Result<Spares, AllocError>
        ensures { IfOk result (λ spares. spares ≡ replicate 64 0) }
    {
        Ok(Spares {
            amounts: Vec::from_elem(alloc, 0, 64)?,
            total: 0,
        })
    }

    /// The amounts of all seats together.
    pub fn total(&self) -> u32
        ensures { result ≡ sum self.now }
    {
        self.total
    }

    /// The amount of a seat.
    pub fn of(&self, seat: u32) -> u32
        requires { seat < length self.now }
        ensures { result ≡ slice_index self.now seat }
    {
        self.amounts[seat as usize]
    }

    /// Sets aside so much more for a seat.
    pub fn grow(&mut self, seat: u32, more: u32)
        requires seat { seat < length self.old }
        requires fits { sum self.old + more < 2 ^ 32 }
        ensures { self.new ≡ slice_set self.old seat (slice_index self.old seat + more) }
    {
        let now = self.amounts[seat as usize] + more;
        self.total += more;
        self.amounts[seat as usize] = now;
    }

    /// Leaves so much of what is set aside for a seat.
    pub fn shrink(&mut self, seat: u32, left: u32)
        requires seat { seat < length self.old }
        requires less { left ≤ slice_index self.old seat }
        ensures { self.new ≡ slice_set self.old seat left }
    {
        let before = self.amounts[seat as usize];
        self.total -= before - left;
        self.amounts[seat as usize] = left;
    }
}
