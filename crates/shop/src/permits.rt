//! The yields of a request that runs.
ghost use Rattle.std.specs.Prelude.{◌≡◌, ◌<◌, ◌≤◌, ◌-◌, ℕ, true, false};
ghost use Rattle.turn_lock.specs.Entries.{Lags};
ghost use Rattle.system_events.specs.declared.event.Kept.{Kept};
ghost use Rattle.shop_base.specs.Rows.{running_seat, yielding_seat, IsRunning, IsYielding, with_room};
ghost use Rattle.shop_base.specs.Passes.{seat_of, moved, Made};

use crate::pass::Pass;
use crate::shop::Shop;
use std::sync::Wait;
use system_core::Matter;

impl<M: Matter> Shop<M> {
    /// Puts the share of the request that runs aside, and lets loads go first. It uses one half of a pair that `begin`
    /// set aside.
    pub fn permit_begin<R: Wait>(&self, rt: &R, pass: &mut Pass<M>)
        requires own { pass.old.shop ≡ self.now }
        requires runs { IsRunning pass.old.row.seat }
        requires room { 4 ≤ pass.old.row.entries }
        ensures same { pass.new ≡ moved pass.old pass.new.row pass.new.seen }
        ensures row { (begun : ℕ) → pass.old.row.seat ≡ running_seat begun →
            pass.new.row ≡ with_room (yielding_seat begun) (pass.old.row.entries - 1) pass.old.row.values }
        ensures made { Made pass.old.number Kept.Yield pass.old.seen pass.new.seen }
    {
        let number = pass.ticket.number();
        let mut desk = self.lock.enter(rt, &mut pass.ticket);
        desk.yield_share(number);
        self.leave(&mut pass.ticket, &mut pass.generation, desk);
        self.bell.ring();
    }

    /// Takes the share back, as soon as nobody is exclusive.
    #[tactic(auto, using(crate::proofs::Turns::lags_later, crate::proofs::Turns::lags_self))]
    pub fn permit_end<R: Wait>(&self, rt: &R, pass: &mut Pass<M>)
        requires own { pass.old.shop ≡ self.now }
        requires yields { IsYielding pass.old.row.seat }
        requires room { 3 ≤ pass.old.row.entries }
        ensures same { pass.new ≡ moved pass.old pass.new.row pass.new.seen }
        ensures row { (begun : ℕ) → pass.old.row.seat ≡ yielding_seat begun →
            pass.new.row ≡ with_room (running_seat begun) (pass.old.row.entries - 1) pass.old.row.values }
        ensures made { Made pass.old.number Kept.Retake pass.old.seen pass.new.seen }
    {
        'tries: for _ in rt.forever() {
            let heard = self.bell.rings();
            if self.try_retake(rt, pass) {
                return;
            }
            self.bell.wait(rt, heard);
        }
        unreachable!()
    }

    // Tries to take the share back, in one turn.
    fn try_retake<R: Wait>(&self, rt: &R, pass: &mut Pass<M>) -> bool
        requires own { pass.old.shop ≡ self.now }
        requires yields { IsYielding pass.old.row.seat }
        requires room { 3 ≤ pass.old.row.entries }
        ensures made { result ≡ true → (pass.new ≡ moved pass.old pass.new.row pass.new.seen)
            × Made pass.old.number Kept.Retake pass.old.seen pass.new.seen }
        ensures row { result ≡ true → (begun : ℕ) → pass.old.row.seat ≡ yielding_seat begun →
            pass.new.row ≡ with_room (running_seat begun) (pass.old.row.entries - 1) pass.old.row.values }
        ensures busy { result ≡ false → (pass.new ≡ moved pass.old pass.old.row pass.new.seen)
            × Lags seat_of pass.old.number pass.old.seen pass.new.seen }
    {
        let number = pass.ticket.number();
        let mut desk = self.lock.enter(rt, &mut pass.ticket);
        let retaken = desk.retake(number);
        self.leave(&mut pass.ticket, &mut pass.generation, desk);
        retaken
    }
}
