ghost use Rattle.std.specs.Prelude.{◌≡◌, ◌<◌, ◌-◌, ◌++◌, ◌∷◌, [], length, take, slice_get, Some};

use crate::seat::Saved;
use std::alloc::AllocError;
use std::marker::Model;

/// What a seat's open yields put aside, the last at the end. It has eight places and never takes memory.
#[derive(Drop)]
pub struct SavedList {
    places: [Saved; 8],
    count: usize,
}

impl Model for SavedList {
    ghost use Rattle.std.specs.Prelude.{List, ◌≡◌, ◌≤◌, take, length};
    ghost use Rattle.share_lock.specs.declared.seat.Saved.{Saved};

    ghost Value = { List Saved };

    ghost view = { λ s. take s.count s.places };

    ghost invariant = { λ s. (length s.places ≡ 8) × (s.count ≤ 8) };
}

impl SavedList {
    /// Nothing is put aside.
    pub fn new() -> SavedList
        ensures { result ≡ [] }
    {
        let nothing = Saved {
            shares: 0,
            wait: None,
        };
        SavedList {
            places: [nothing; 8],
            count: 0,
        }
    }

    /// The number of open yields.
    pub fn len(&self) -> usize
        ensures { result ≡ length self.now }
    {
        self.count
    }

    /// What the open yield at this place put aside, counted from 0 in the order in which they began.
    pub fn at(&self, place: usize) -> &Saved
        requires { place < length self.now }
        ensures { slice_get self.now place ≡ Some result.now }
    {
        let places = &self.places;
        &places[place]
    }

    /// Adds at the end. It takes no memory.
    pub fn push(&mut self, item: Saved)
        requires { length self.old < 8 }
        ensures { self.new ≡ self.old ++ item ∷ [] }
    {
        self.places[self.count] = item;
        self.count += 1;
    }

    /// Takes the last one off.
    pub(crate) fn pop(&mut self) -> Saved
        requires { 0 < length self.old }
        ensures { self.old ≡ self.new ++ result ∷ [] }
    {
        self.count -= 1;
        self.places[self.count]
    }

    /// The same list. It takes no memory, so it is never refused.
    pub fn copy(&self) -> Result<SavedList, AllocError>
        ensures { result ≡ Ok self.now }
    {
        Ok(self.duplicate())
    }

    pub(crate) fn duplicate(&self) -> SavedList
        ensures { result ≡ self.now }
    {
        SavedList {
            places: self.places,
            count: self.count,
        }
    }
}
