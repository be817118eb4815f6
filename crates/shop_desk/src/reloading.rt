//! Unloads and reloads.
ghost use Rattle.std.specs.Prelude.{◌≡◌, ◌<◌, ◌≤◌, ◌-◌, ◌++◌, ◌∷◌, [], ℕ, true, false, length, slice_index, Some};
ghost use Rattle.share_lock.specs.Rows.{busy_exclusive};
ghost use Rattle.system_seats.specs.declared.guard.Guard.{Guard};
ghost use Rattle.system_events.specs.declared.event.Kept.{Kept};
ghost use Rattle.system_events.specs.declared.event.Want.{Want};
ghost use Rattle.system_events.specs.Guards.{reload_limits};
ghost use Rattle.shop_base.specs.Rows.{sharing_seat, seeking_unload_seat, unloading_seat, with_room};
ghost use Rattle.shop_base.specs.Passes.{entry, begins};
ghost use Rattle.shop_desk.specs.Ledgers.{desk_row, OthersStay, OneMore};

use crate::desk::Desk;
use system_core::{Act, Applied, Guard, Matter, Want};

/// What a reload answers.
#[derive(Clone, Copy, Debug, PartialEq, Eq)]
pub enum Reloading {
    Reloaded,
    /// Nothing has changed, or a limit is met: this guard is true.
    Refused(Guard),
}

impl<M: Matter> Desk<M> {
    /// Takes an unload. Where the exclusive side is busy it answers false, and the seat seeks it.
    pub fn unload(&mut self, seat: u32) -> bool
        requires seat { seat < 64 }
        requires shares { (desk_row self.old seat).seat ≡ sharing_seat }
        requires room { 2 ≤ slice_index self.old.entries seat }
        ensures taken { result ≡ true →
            self.new.state.history ≡ self.old.state.history ++ entry seat (Kept.Take Want.Unload) ∷ [] }
        ensures taken_row { result ≡ true → desk_row self.new seat
            ≡ with_room (unloading_seat (length self.old.state.history))
            (slice_index self.old.entries seat - 2) (slice_index self.old.values seat) }
        ensures seeking { result ≡ false →
            self.new.state.history ≡ self.old.state.history ++ entry seat (Kept.Seek Want.Unload) ∷ [] }
        ensures seeking_row { result ≡ false → desk_row self.new seat
            ≡ with_room (seeking_unload_seat (length self.old.state.history))
            (slice_index self.old.entries seat - 1) (slice_index self.old.values seat) }
        ensures begun { begins seat self.new.state.history ≡ begins seat self.old.state.history }
        ensures gained { OneMore seat self.old self.new }
        ensures others { OthersStay seat self.old self.new }
    {
        let entries = self.entries_of(seat);
        let values = self.values_of(seat);
        match self.act(seat, Act::Take(Want::Unload), entries - 2, values) {
            Applied::Done => true,
            Applied::Refused(..) => {
                self.seek_unload(seat);
                false
            }
        }
    }

    // Seeks an unload, where the exclusive side is busy.
    fn seek_unload(&mut self, seat: u32)
        requires seat { seat < 64 }
        requires shares { (desk_row self.old seat).seat ≡ sharing_seat }
        requires room { 1 ≤ slice_index self.old.entries seat }
        requires busy { let lock = self.old.state.seats.lock in
            busy_exclusive lock.rows lock.exclusive seat 1 ≡ true }
        ensures entry { self.new.state.history
            ≡ self.old.state.history ++ entry seat (Kept.Seek Want.Unload) ∷ [] }
        ensures row { desk_row self.new seat
            ≡ with_room (seeking_unload_seat (length self.old.state.history))
            (slice_index self.old.entries seat - 1) (slice_index self.old.values seat) }
        ensures begun { begins seat self.new.state.history ≡ begins seat self.old.state.history }
        ensures gained { OneMore seat self.old self.new }
        ensures others { OthersStay seat self.old self.new }
    {
        let entries = self.entries_of(seat);
        let values = self.values_of(seat);
        match self.act(seat, Act::Seek(Want::Unload), entries - 1, values) {
            Applied::Done => {}
            Applied::Refused(..) => unreachable!(),
        }
    }

    /// Takes the unload that the seat seeks, if the exclusive side isn't busy.
    pub fn take_sought_unload(&mut self, seat: u32) -> bool
        requires seat { seat < 64 }
        requires seeks { (opened : ℕ) × ((desk_row self.old seat).seat ≡ seeking_unload_seat opened) }
        requires room { 1 ≤ slice_index self.old.entries seat }
        ensures taken { result ≡ true →
            self.new.state.history ≡ self.old.state.history ++ entry seat (Kept.Take Want.Unload) ∷ [] }
        ensures row { result ≡ true → (opened : ℕ) → (desk_row self.old seat).seat ≡ seeking_unload_seat opened →
            desk_row self.new seat ≡ with_room (unloading_seat opened)
            (slice_index self.old.entries seat - 1) (slice_index self.old.values seat) }
        ensures busy { result ≡ false → self.new ≡ self.old }
        ensures begun { begins seat self.new.state.history ≡ begins seat self.old.state.history }
        ensures gained { OneMore seat self.old self.new }
        ensures others { OthersStay seat self.old self.new }
    {
        let entries = self.entries_of(seat);
        let values = self.values_of(seat);
        match self.act(seat, Act::Take(Want::Unload), entries - 1, values) {
            Applied::Done => true,
            Applied::Refused(..) => false,
        }
    }

    /// Puts the program of the next generation into force.
    pub fn reload(&mut self, seat: u32, program: M::Program) -> Reloading
        requires seat { seat < 64 }
        requires unloads { (opened : ℕ) × ((desk_row self.old seat).seat ≡ unloading_seat opened) }
        requires room { 1 ≤ slice_index self.old.entries seat }
        requires program { M.facts.IsProgram program }
        ensures entry { result ≡ Reloading.Reloaded →
            self.new.state.history ≡ self.old.state.history ++ entry seat (Kept.Reload program) ∷ [] }
        ensures row { result ≡ Reloading.Reloaded → desk_row self.new seat ≡ with_room (desk_row self.old seat).seat
            (slice_index self.old.entries seat - 1) (slice_index self.old.values seat) }
        ensures refused { (guard : Guard) → result ≡ Reloading.Refused guard →
            (reload_limits M.facts self.old.state.counts program ≡ Some guard) × (self.new ≡ self.old) }
        ensures begun { begins seat self.new.state.history ≡ begins seat self.old.state.history }
        ensures gained { OneMore seat self.old self.new }
        ensures others { OthersStay seat self.old self.new }
    {
        let entries = self.entries_of(seat);
        let values = self.values_of(seat);
        match self.act(seat, Act::Reload(program), entries - 1, values) {
            Applied::Done => Reloading::Reloaded,
            Applied::Refused(guard, _) => Reloading::Refused(guard),
        }
    }
}
