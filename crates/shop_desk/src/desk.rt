//! A system with the room that is set aside for its seats.
ghost use Rattle.std.specs.Prelude.{◌≡◌, ◌<◌, ◌≤◌, ◌+◌, ℕ, length, slice_index, slice_set, replicate, IfOk, OnOk};
ghost use Rattle.std.specs.Prelude.{OnErr};
ghost use Rattle.std.specs.Prelude.{Some, None};
ghost use Rattle.system_events.specs.declared.event.Event.{Event};
ghost use Rattle.share_lock.specs.Rows.{eligible};
ghost use Rattle.system_seats.specs.declared.guard.Guard.{Guard};
ghost use Rattle.system_seats.specs.declared.table.SystemRow.{SystemRow};
ghost use Rattle.system_events.specs.Guards.{guard_of};
ghost use Rattle.system_events.specs.Steps.{Condition, kept_of, IsKnown};
ghost use Rattle.system_events.specs.Legal.{start, IsAfter};
ghost use Rattle.system_core.specs.Keeping.{values_used};
ghost use Rattle.shop_base.specs.Rows.{seat_row, with_room};
ghost use Rattle.shop_base.specs.Acts.{list_of, next_row};
ghost use Rattle.shop_base.specs.Passes.{begins_of, begins};
ghost use Rattle.shop_desk.specs.Ledgers.{desk_row, OthersStay, OneMore, setting_aside, acted};

use crate::spares::Spares;
use shop_base::PassRow;
use std::alloc::{AllocError, Global};
use std::marker::Model;
use system_core::{Act, Applied, Entry, Event, Matter, System};
use turn_lock::Booked;

/// A system of 64 seats, and the entries and values that are set aside for each of them.
#[derive(Drop)]
pub struct Desk<M: Matter> {
    pub(crate) system: System<M>,
    pub(crate) entries: Spares,
    pub(crate) values: Spares,
}

impl<M: Matter> Model for Desk<M> {
    ghost use Rattle.shop_desk.specs.Ledgers.{Ledger, IsCovered};

    ghost Value = { Ledger M M.Task M.Value M.Program M.Request M.Reply M.Fault };

    ghost view = { λ d. record { state = d.system.state; entries = d.entries; values = d.values } };

    ghost invariant = { λ d. IsCovered M.facts d.system d.entries d.values };
}

impl<M: Matter> Booked for Desk<M> {
    type Entry = Entry<M>;

    type Row = PassRow;

    ghost use Rattle.shop_base.specs.Rows.{at_rest};
    ghost use Rattle.shop_base.specs.Passes.{seat_of};
    ghost use Rattle.shop_desk.specs.Ledgers.{desk_row};

    ghost history = { λ d. d.state.history };

    ghost seat_of = { seat_of };

    ghost rows = { desk_row };

    ghost rest = { at_rest };

    fn length(&self) -> u64 {
        self.system.length()
    }
}

impl<M: Matter> Desk<M> {
    /// A new system, all seats at rest.
    pub fn new(alloc: Global) -> Result<Desk<M>, AllocError>
        ensures { IfOk result (λ desk. desk
            ≡ record { state = start M.facts 64; entries = replicate 64 0; values = replicate 64 0 }) }
    {
        Ok(Desk {
            system: System::new(alloc, 64)?,
            entries: Spares::new(alloc)?,
            values: Spares::new(alloc)?,
        })
    }

    /// The number of the generation in force.
    pub fn generation(&self) -> u32
        ensures { result ≡ self.now.state.counts.generation }
    {
        self.system.generation()
    }

    /// The program in force.
    pub fn program(&self) -> &M::Program
        ensures { result.now ≡ self.now.state.counts.program }
    {
        self.system.program()
    }

    /// How many entries the history has.
    pub fn entry_count(&self) -> u64
        ensures { result ≡ length self.now.state.history }
    {
        self.system.length()
    }

    /// The state is the one that the history leaves, which is legal.
    pub fn tells_legal(&self)
        ensures after { IsAfter M.facts 64 self.now.state }
        ensures even { (length self.now.entries ≡ 64) × (length self.now.values ≡ 64) }
    {
        let _ = &self.system;
    }

    /// Sets aside so many entries and values more for a seat.
    pub fn set_aside(&mut self, seat: u32, entries: u32, values: u32) -> Result<(), AllocError>
        requires { seat < 64 }
        ensures ok { OnOk result (self.new ≡ setting_aside self.old seat (slice_index self.old.entries seat + entries)
            (slice_index self.old.values seat + values)) }
        ensures err { OnErr result (self.new ≡ self.old) }
        ensures row { OnOk result (desk_row self.new seat ≡ with_room (seat_row self.old.state.seats seat)
            (slice_index self.old.entries seat + entries) (slice_index self.old.values seat + values)) }
        ensures others { OthersStay seat self.old self.new }
    {
        let (Some(all_entries), Some(all_values)) = (
            self.entries.total().checked_add(entries),
            self.values.total().checked_add(values),
        ) else {
            return Err(AllocError);
        };
        self.system.reserve(all_entries, all_values)?;
        self.entries.grow(seat, entries);
        self.values.grow(seat, values);
        Ok(())
    }

    /// How many entries are set aside for a seat.
    pub fn entries_of(&self, seat: u32) -> u32
        requires { seat < 64 }
        ensures { result ≡ slice_index self.now.entries seat }
    {
        self.entries.of(seat)
    }

    /// How many values are set aside for a seat.
    pub fn values_of(&self, seat: u32) -> u32
        requires { seat < 64 }
        ensures { result ≡ slice_index self.now.values seat }
    {
        self.values.of(seat)
    }

    /// Leaves so many of the entries and values that are set aside for a seat.
    pub fn give_up(&mut self, seat: u32, entries: u32, values: u32)
        requires seat { seat < 64 }
        requires entries { entries ≤ slice_index self.old.entries seat }
        requires values { values ≤ slice_index self.old.values seat }
        ensures left { self.new ≡ setting_aside self.old seat entries values }
        ensures row { desk_row self.new seat ≡ with_room (seat_row self.old.state.seats seat) entries values }
        ensures others { OthersStay seat self.old self.new }
    {
        self.entries.shrink(seat, entries);
        self.values.shrink(seat, values);
    }

    /// Enters an act of a seat and leaves so many entries and values aside for it; or refuses it by the first guard of
    /// its row that is true, and changes nothing. An entry of those set aside is used, and a value where one is
    /// defined.
    pub(crate) fn act(&mut self, seat: u32, act: Act<M>, entries: u32, values: u32) -> Applied<M>
        requires seat { seat < 64 }
        requires entries { entries + 1 ≤ slice_index self.old.entries seat }
        requires values { values + values_used act ≤ slice_index self.old.values seat }
        requires condition { Condition M.facts self.old.state seat (kept_of act) }
        requires known { IsKnown M.facts self.old.state act }
        ensures after { IsAfter M.facts 64 self.old.state }
        ensures done { result ≡ Applied.Done → self.new ≡ acted M.facts self.old seat (kept_of act) entries values }
        ensures none { result ≡ Applied.Done → guard_of M.facts self.old.state seat (kept_of act) ≡ None }
        ensures row { result ≡ Applied.Done → (r : SystemRow) → seat_row self.old.state.seats seat ≡ r →
            desk_row self.new seat ≡ with_room (next_row (eligible (list_of r) self.old.state.seats.lock.rows)
            (length self.old.state.history) r (kept_of act)) entries values }
        ensures begun { result ≡ Applied.Done → begins seat self.new.state.history
            ≡ begins seat self.old.state.history + begins_of (kept_of act) }
        ensures gained { OneMore seat self.old self.new }
        ensures others { OthersStay seat self.old self.new }
        ensures passed { guard_of M.facts self.old.state seat (kept_of act) ≡ None → result ≡ Applied.Done }
        ensures refused { (guard : Guard) (event : Event M M.Task M.Value M.Program M.Request M.Reply M.Fault) →
            result ≡ Applied.Refused guard event →
            (guard_of M.facts self.old.state seat (kept_of act) ≡ Some guard)
            × (event ≡ record { seat = seat; act = act }) × (self.new ≡ self.old) }
    {
        self.tells_legal();
        match self.system.apply(Event { seat, act }) {
            Applied::Done => {
                self.entries.shrink(seat, entries);
                self.values.shrink(seat, values);
                Applied::Done
            }
            Applied::Refused(guard, event) => Applied::Refused(guard, event),
        }
    }
}
