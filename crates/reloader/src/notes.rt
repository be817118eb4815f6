//! What hooks leave behind.
ghost use Rattle.std.specs.Prelude.{◌≡◌, ◌<◌, ◌≤◌, ◌++◌, ◌∷◌, ◌↔◌, [], length, IfOk, IsTrue, slice_get, false};

use std::alloc::{AllocError, Global};
use std::marker::Model;

// How many numbers there is room for.
const MOST_NOTES: usize = 1_024;

/// Numbers that hooks left, in the order in which they were left. There is room for 1,024 of them from the start.
#[derive(Drop)]
pub struct Notes {
    numbers: Vec<u32>,
}

impl Model for Notes {
    ghost use Rattle.std.specs.Prelude.{ℕ, List, ◌≤◌, length, vec_capacity};

    ghost Value = { List ℕ };

    ghost view = { λ notes. notes.numbers.items };

    ghost invariant = { λ notes. (length notes.numbers.items ≤ 1024) × (1024 ≤ vec_capacity notes.numbers) };
}

impl Notes {
    /// No numbers yet. The other calls take no memory.
    pub fn new(alloc: Global) -> Result<Notes, AllocError>
        ensures { IfOk result (λ notes. notes ≡ []) }
    {
        let mut numbers = Vec::new(alloc);
        numbers.reserve(MOST_NOTES)?;
        Ok(Notes { numbers })
    }

    /// Adds a number. It answers false where 1,024 are kept, and then adds none.
    pub fn note(&mut self, n: u32) -> bool
        ensures answer { IsTrue result ↔ (length self.old < 1024) }
        ensures noted { IsTrue result → self.new ≡ self.old ++ n ∷ [] }
        ensures full { result ≡ false → self.new ≡ self.old }
    {
        if self.numbers.len() >= MOST_NOTES {
            return false;
        }
        self.numbers.push_reserved(n);
        true
    }

    /// How many numbers there are.
    pub fn count(&self) -> u32
        ensures { result ≡ length self.now }
    {
        self.numbers.len() as u32
    }

    /// The number at a place, which is counted from 0. None where there is none.
    pub fn at(&self, place: u32) -> Option<u32>
        ensures { result ≡ slice_get self.now place }
    {
        self.numbers.get(place as usize).copied()
    }
}
