//! The yields of a request that runs.
ghost use Rattle.std.specs.Prelude.{◌≡◌, ◌<◌, ◌≤◌, ◌-◌, ◌++◌, ◌∷◌, [], ℕ, true, false, slice_index};
ghost use Rattle.system_events.specs.declared.event.Kept.{Kept};
ghost use Rattle.shop_base.specs.Rows.{running_seat, yielding_seat, IsRunning, IsYielding, with_room};
ghost use Rattle.shop_base.specs.Passes.{entry, begins};
ghost use Rattle.shop_desk.specs.Ledgers.{desk_row, OthersStay, OneMore};

use crate::desk::Desk;
use system_core::{Act, Applied, Matter};

impl<M: Matter> Desk<M> {
    /// Puts the share of a request that runs aside, and lets loads go first.
    pub fn yield_share(&mut self, seat: u32)
        requires seat { seat < 64 }
        requires runs { IsRunning (desk_row self.old seat).seat }
        requires room { 1 ≤ slice_index self.old.entries seat }
        ensures entry { self.new.state.history ≡ self.old.state.history ++ entry seat Kept.Yield ∷ [] }
        ensures row { (begun : ℕ) → (desk_row self.old seat).seat ≡ running_seat begun →
            desk_row self.new seat ≡ with_room (yielding_seat begun)
            (slice_index self.old.entries seat - 1) (slice_index self.old.values seat) }
        ensures begun { begins seat self.new.state.history ≡ begins seat self.old.state.history }
        ensures gained { OneMore seat self.old self.new }
        ensures others { OthersStay seat self.old self.new }
    {
        let entries = self.entries_of(seat);
        let values = self.values_of(seat);
        match self.act(seat, Act::Yield, entries - 1, values) {
            Applied::Done => {}
            Applied::Refused(..) => unreachable!(),
        }
    }

    /// Takes the share back, if nobody is exclusive.
    pub fn retake(&mut self, seat: u32) -> bool
        requires seat { seat < 64 }
        requires yields { IsYielding (desk_row self.old seat).seat }
        requires room { 1 ≤ slice_index self.old.entries seat }
        ensures entry { result ≡ true →
            self.new.state.history ≡ self.old.state.history ++ entry seat Kept.Retake ∷ [] }
        ensures row { result ≡ true → (begun : ℕ) → (desk_row self.old seat).seat ≡ yielding_seat begun →
            desk_row self.new seat ≡ with_room (running_seat begun)
            (slice_index self.old.entries seat - 1) (slice_index self.old.values seat) }
        ensures busy { result ≡ false → self.new ≡ self.old }
        ensures begun { begins seat self.new.state.history ≡ begins seat self.old.state.history }
        ensures gained { OneMore seat self.old self.new }
        ensures others { OthersStay seat self.old self.new }
    {
        let entries = self.entries_of(seat);
        let values = self.values_of(seat);
        match self.act(seat, Act::Retake, entries - 1, values) {
            Applied::Done => true,
            Applied::Refused(..) => false,
        }
    }
}
