//! The system and what can be read of it.
ghost use Rattle.std.specs.Prelude.{◌≡◌, ◌<◌, ◌≤◌, ℕ, length, Some, IfOk, slice_get, option_map};
ghost use Rattle.system_seats.specs.Seats.{mark, row};
ghost use Rattle.system_seats.specs.Copies.{mark_part};
ghost use Rattle.system_events.specs.State.{is_in, section_want, running_request};
ghost use Rattle.system_events.specs.Legal.{start, IsAfter};
ghost use Rattle.system_events.specs.Right.{IsRight};
ghost use Rattle.system_laws.specs.Lawful.{IsExclusive, MayTake, AreOpened, AreSteady, IsTable, DefinesOnce};
ghost use Rattle.system_laws.specs.Lawful.{DefinesNeeded};
ghost use Rattle.system_core.specs.Tables.{lookup};

use crate::fact::Fact;
use crate::reading::{request_at, want_at};
use crate::table::value_in;
use std::alloc::{AllocError, Global};
use std::marker::Model;
use system_events::{Counts, Entry, Kept, Matter, Want};
use system_laws::every_legal_history;
use system_places::Places;
use system_seats::{SeatTable, SystemRow};

/// One history of events, and the state after it.
#[derive(Drop)]
pub struct System<M: Matter> {
    pub(crate) seats: SeatTable,
    pub(crate) entries: Vec<Entry<M>>,
    // The tasks that were defined since the last Reload.
    pub(crate) facts: Vec<Fact<M>>,
    // The places of the facts by the hashes of their tasks.
    pub(crate) places: Places,
    pub(crate) counts: Counts<M>,
}

impl<M: Matter> Model for System<M> {
    ghost use Rattle.std.specs.Prelude.{◌-◌, min, vec_len, vec_capacity};
    ghost use Rattle.system_core.specs.Keeping.{Book, IsKept, state_of};

    ghost Value = { Book M M.Task M.Value M.Program M.Request M.Reply M.Fault };

    ghost view = { λ s. record {
      state = state_of s.entries.items s.seats s.facts.items s.counts;
      room = vec_capacity s.entries - vec_len s.entries;
      values = min (vec_capacity s.facts - vec_len s.facts) s.places.room;
    } };

    ghost invariant = { λ s. IsKept M.facts s.entries.items s.seats s.facts.items s.places.hashes s.counts };
}

impl<M: Matter> System<M> {
    /// Generation 0, which is the empty snapshot, all seats at rest, and a history of that one Reload.
    pub fn new(alloc: Global, seats: u32) -> Result<System<M>, AllocError>
        requires { (0 < seats) × (seats ≤ 64) }
        ensures { IfOk result (λ system. system.state ≡ start M.facts seats) }
    {
        let seats = SeatTable::new(alloc, seats)?;
        let program = M::empty(alloc)?;
        let counts = Counts {
            generation: 0,
            program: M::share(&program),
            requests: 0,
            reply_bytes: 0,
            changed_bytes: 0,
        };
        let mut entries = Vec::new(alloc);
        entries.push(Entry {
            seat: 0,
            kept: Kept::Reload(program),
        })?;
        Ok(System {
            seats,
            entries,
            facts: Vec::new(alloc),
            places: Places::new(alloc)?,
            counts,
        })
    }

    /// Makes room for so many entries and values more. The other calls take no memory.
    pub fn reserve(&mut self, entries: u32, values: u32) -> Result<(), AllocError>
        ensures state { self.new.state ≡ self.old.state }
        ensures room { IfOk result (λ _. (entries ≤ self.new.room) × (values ≤ self.new.values)) }
        ensures kept { (self.old.room ≤ self.new.room) × (self.old.values ≤ self.new.values) }
    {
        self.entries.reserve(entries as usize)?;
        self.facts.reserve(values as usize)?;
        self.places.reserve(values)
    }

    /// How many seats there are.
    pub fn seat_count(&self) -> usize
        ensures { result ≡ length self.now.state.seats.lock.rows }
    {
        self.seats.seat_count()
    }

    /// The number of the generation in force.
    pub fn generation(&self) -> u32
        ensures { result ≡ self.now.state.counts.generation }
    {
        self.counts.generation
    }

    /// The program in force.
    pub fn program(&self) -> &M::Program
        ensures { result.now ≡ self.now.state.counts.program }
    {
        &self.counts.program
    }

    /// The value of a task of the table.
    pub fn value(&self, task: &M::Task) -> Option<&M::Value>
        ensures { option_map (λ value. value.now) result ≡ lookup M.facts task.now self.now.state.table }
    {
        value_in(&self.entries, &self.facts, &self.places, task)
    }

    // Whether the table has a task.
    pub(crate) fn is_defined(&self, task: &M::Task) -> bool
        ensures { result ≡ is_in M.facts task.now self.now.state.table }
    {
        self.value(task).is_some()
    }

    /// The seat's row.
    pub fn row(&self, seat: u32) -> &SystemRow
        requires { seat < length self.now.state.seats.lock.rows }
        ensures lock { result.now.lock ≡ row self.now.state.seats seat }
        ensures marks { mark_part result.now ≡ mark self.now.state.seats seat }
    {
        self.seats.row(seat)
    }

    /// What the seat's section is for: the want of its Seek, or without one of its Take.
    pub fn section_want(&self, seat: u32) -> Option<&Want<M>>
        requires { seat < length self.now.state.seats.lock.rows }
        ensures { option_map (λ want. want.now) result ≡ section_want self.now.state seat }
    {
        want_at(&self.entries, self.seats.marks(seat).section)
    }

    /// The request that the seat runs.
    pub fn running_request(&self, seat: u32) -> Option<&M::Request>
        requires { seat < length self.now.state.seats.lock.rows }
        ensures { option_map (λ request. request.now) result ≡ running_request self.now.state seat }
    {
        request_at(&self.entries, self.seats.marks(seat).running)
    }

    /// How many entries the history has.
    pub fn length(&self) -> u64
        ensures { result ≡ length self.now.state.history }
    {
        self.entries.len() as u64
    }

    /// The entry at a place of the history.
    pub fn entry(&self, place: u64) -> &Entry<M>
        requires { place < length self.now.state.history }
        ensures { slice_get self.now.state.history place ≡ Some result.now }
    {
        &self.entries[place as usize]
    }

    /// The history is legal, and the state is the one that it leaves, whatever was done before.
    pub fn tells_legal(&self)
        ensures { (seats : ℕ) × IsAfter M.facts seats self.now.state }
    {
        let _ = &self.entries;
    }

    /// What follows of a legal history and the state after it.
    pub fn tells_laws(&self)
        ensures right { IsRight M.facts self.now.state.history }
        ensures exclusive { IsExclusive self.now.state.seats }
        ensures may_take { MayTake M.facts self.now.state }
        ensures table { IsTable M.facts self.now.state.counts.program self.now.state.table }
        ensures once { DefinesOnce M.facts self.now.state.history }
        ensures needed { (seats : ℕ) × DefinesNeeded M.facts seats self.now.state.history }
        ensures sections { AreOpened self.now.state }
        ensures steady { AreSteady self.now.state }
    {
        self.tells_legal();
        every_legal_history::<M>();
    }
}
