//! Entering an event, or refusing it.
ghost use Rattle.std.specs.Prelude.{◌≡◌, ◌≢◌, ℕ, ◌<◌, ◌≤◌, ◌+◌, ◌-◌, length, Some, None};
ghost use Rattle.system_seats.specs.Seats.{row, mark};
ghost use Rattle.system_seats.specs.declared.guard.Guard.{Guard};
ghost use Rattle.system_events.specs.Guards.{guard_of};
ghost use Rattle.system_events.specs.Steps.{effect, Condition, kept_of, value_of, IsKnown};
ghost use Rattle.system_events.specs.Legal.{IsStep};
ghost use Rattle.system_core.specs.Keeping.{values_used};

use crate::moves::{move_counts, move_seats, move_table, split_act};
use crate::system::System;
use system_events::{Applied, Entry, Event, Matter};

impl<M: Matter> System<M> {
    /// Enters an event, or refuses it by the first guard of its row that is true, and then changes nothing. It takes no
    /// memory: the room for an entry, and for a defined value, was reserved before.
    pub fn apply(&mut self, event: Event<M>) -> Applied<M>
        requires seat { event.seat < length self.old.state.seats.lock.rows }
        requires room { 0 < self.old.room }
        requires values { values_used event.act ≤ self.old.values }
        requires condition { Condition M.facts self.old.state event.seat (kept_of event.act) }
        requires known { IsKnown M.facts self.old.state event.act }
        ensures done { guard_of M.facts self.old.state event.seat (kept_of event.act) ≡ None →
            (result ≡ Applied.Done)
            × (self.new.state ≡ effect M.facts self.old.state event.seat (kept_of event.act)) }
        ensures step { guard_of M.facts self.old.state event.seat (kept_of event.act) ≡ None →
            IsStep M.facts self.old.state (record { seat = event.seat; kept = kept_of event.act }) self.new.state }
        ensures others { (seat : ℕ) → seat ≢ event.seat →
            (row self.new.state.seats seat ≡ row self.old.state.seats seat)
            × (mark self.new.state.seats seat ≡ mark self.old.state.seats seat) }
        ensures room { self.old.room ≤ self.new.room + 1 }
        ensures values { self.old.values ≤ self.new.values + values_used event.act }
        ensures refused { (guard : Guard) →
            guard_of M.facts self.old.state event.seat (kept_of event.act) ≡ Some guard →
            (result ≡ Applied.Refused guard event) × (self.new ≡ self.old) }
    {
        if let Some(guard) = self.first_guard(&event) {
            return Applied::Refused(guard, event);
        }
        self.enter(event);
        Applied::Done
    }

    // Enters an event that no guard refuses.
    fn enter(&mut self, event: Event<M>)
        requires seat { event.seat < length self.old.state.seats.lock.rows }
        requires room { 0 < self.old.room }
        requires values { values_used event.act ≤ self.old.values }
        requires condition { Condition M.facts self.old.state event.seat (kept_of event.act) }
        requires known { IsKnown M.facts self.old.state event.act }
        requires passed { guard_of M.facts self.old.state event.seat (kept_of event.act) ≡ None }
        ensures state { self.new.state ≡ effect M.facts self.old.state event.seat (kept_of event.act) }
        ensures others { (seat : ℕ) → seat ≢ event.seat →
            (row self.new.state.seats seat ≡ row self.old.state.seats seat)
            × (mark self.new.state.seats seat ≡ mark self.old.state.seats seat) }
        ensures room { self.new.room ≡ self.old.room - 1 }
        ensures values { self.old.values ≤ self.new.values + values_used event.act }
    {
        let seat = event.seat;
        let place = self.entries.len() as u64;
        let (kept, value) = split_act(event.act);
        move_seats(&mut self.seats, seat, &kept, place);
        move_table(&mut self.facts, &mut self.places, &kept, value, place);
        move_counts(&mut self.counts, &kept);
        self.entries.push_reserved(Entry { seat, kept });
    }
}
