//! A list of entries with a count, and room, for each seat.
ghost use Rattle.std.specs.Prelude.{◌≡◌, ℕ, ◌+◌, ◌%◌, ◌^◌, ◌<◌, [], ◌∷◌, ◌++◌, List, replicate, slice_index, slice_set};
ghost use Rattle.std.specs.Prelude.{OnOk, OnErr};

use std::alloc::{AllocError, Global};
use turn_lock::Booked;

/// An entry is the number of the ticket that added it, and how many that ticket had added before.
#[derive(Drop)]
pub struct Tally {
    pub entries: Vec<(u32, u32)>,
    pub counts: [u32; 64],
    pub room: [u32; 64],
}

impl Booked for Tally {
    type Entry = (u32, u32);

    type Row = (u32, u32);

    ghost history = { λ t. t.entries.items };

    ghost seat_of = { λ e. e.0 };

    ghost rows = { λ t k. (slice_index t.counts k, slice_index t.room k) };

    ghost rest = { (0, 0) };

    fn length(&self) -> u64 {
        self.entries.len() as u64
    }
}

impl Tally {
    /// No entries, and no room.
    pub fn new(alloc: Global) -> Tally
        ensures entries { result.entries.items ≡ [] }
        ensures counts { result.counts ≡ replicate 64 0 }
        ensures room { result.room ≡ replicate 64 0 }
    {
        Tally {
            entries: Vec::new(alloc),
            counts: [0; 64],
            room: [0; 64],
        }
    }

    /// Adds an entry of the seat and counts it.
    pub fn add(&mut self, seat: u32) -> Result<(), AllocError>
        requires seat { seat < 64 }
        ensures added { OnOk result
            (self.new.entries.items ≡ self.old.entries.items ++ (seat, slice_index self.old.counts seat) ∷ []) }
        ensures counted { OnOk result
            (self.new.counts ≡ slice_set self.old.counts seat ((slice_index self.old.counts seat + 1) % 2 ^ 32)) }
        ensures room { self.new.room ≡ self.old.room }
        ensures err { OnErr result ((self.new.entries.items ≡ self.old.entries.items)
            × (self.new.counts ≡ self.old.counts)) }
    {
        let place = self.counts[seat as usize];
        self.entries.push((seat, place))?;
        self.counts[seat as usize] = place.wrapping_add(1);
        Ok(())
    }

    /// Sets the room of the seat.
    pub fn set_room(&mut self, seat: u32, room: u32)
        requires seat { seat < 64 }
        ensures { self.new ≡ record self.old { room = slice_set self.old.room seat room } }
    {
        self.room[seat as usize] = room;
    }
}
