//! Leaving a section.
ghost use Rattle.std.specs.Prelude.{◌≡◌, ◌≤◌, ◌-◌, ℕ, true, false};
ghost use Rattle.turn_lock.specs.Entries.{Lags};
ghost use Rattle.system_events.specs.declared.event.Kept.{Kept};
ghost use Rattle.shop_base.specs.Rows.{running_seat, loading_seat, calm_seat, leaving_seat, exclusive_seat, IsLoading};
ghost use Rattle.shop_base.specs.Rows.{with_room};
ghost use Rattle.shop_base.specs.Passes.{seat_of, moved, Made};
ghost use Rattle.shop.specs.Leaving.{Leaves};

use crate::pass::Pass;
use crate::shop::Shop;
use std::sync::Wait;
use system_core::Matter;

impl<M: Matter> Shop<M> {
    /// Is exclusive no more, and returns when those that go first have loaded.
    pub fn done_loading<R: Wait>(&self, rt: &R, pass: &mut Pass<M>)
        requires own { pass.old.shop ≡ self.now }
        requires loads { IsLoading pass.old.row.seat }
        requires room { 4 ≤ pass.old.row.entries }
        ensures same { pass.new ≡ moved pass.old pass.new.row pass.new.seen }
        ensures row { (begun opened : ℕ) → pass.old.row.seat ≡ loading_seat begun opened →
            pass.new.row ≡ with_room (running_seat begun) (pass.old.row.entries - 2) pass.old.row.values }
        ensures made { Leaves pass.old.number pass.old.seen pass.new.seen }
    {
        self.leave_section(rt, pass);
    }

    /// Leaves a section of a load or an unload. It uses two entries of those set aside.
    pub fn leave_section<R: Wait>(&self, rt: &R, pass: &mut Pass<M>)
        requires own { pass.old.shop ≡ self.now }
        requires exclusive { (opened : ℕ) × (pass.old.row.seat ≡ exclusive_seat pass.old.row.seat.running opened) }
        requires room { 2 ≤ pass.old.row.entries }
        ensures same { pass.new ≡ moved pass.old (with_room (calm_seat pass.old.row.seat.running)
            (pass.old.row.entries - 2) pass.old.row.values) pass.new.seen }
        ensures made { Leaves pass.old.number pass.old.seen pass.new.seen }
    {
        if self.release(rt, pass) {
            return;
        }
        self.await_resume(rt, pass);
    }

    // Is exclusive no more, in one turn. It answers false where others go first, and the seat waits for them.
    fn release<R: Wait>(&self, rt: &R, pass: &mut Pass<M>) -> bool
        requires own { pass.old.shop ≡ self.now }
        requires exclusive { (opened : ℕ) × (pass.old.row.seat ≡ exclusive_seat pass.old.row.seat.running opened) }
        requires room { 2 ≤ pass.old.row.entries }
        ensures free { result ≡ true → pass.new ≡ moved pass.old (with_room (calm_seat pass.old.row.seat.running)
            (pass.old.row.entries - 2) pass.old.row.values) pass.new.seen }
        ensures waits { result ≡ false → pass.new ≡ moved pass.old (with_room (leaving_seat pass.old.row.seat.running)
            (pass.old.row.entries - 1) pass.old.row.values) pass.new.seen }
        ensures made { Made pass.old.number Kept.Release pass.old.seen pass.new.seen }
    {
        let number = pass.ticket.number();
        let mut desk = self.lock.enter(rt, &mut pass.ticket);
        let free = desk.release(number);
        self.leave(&mut pass.ticket, &mut pass.generation, desk);
        self.bell.ring();
        free
    }

    // Waits no more, as soon as nobody goes first any longer.
    #[tactic(auto, using(crate::proofs::Turns::lags_later, crate::proofs::Turns::lags_self))]
    fn await_resume<R: Wait>(&self, rt: &R, pass: &mut Pass<M>)
        requires own { pass.old.shop ≡ self.now }
        requires waits { pass.old.row.seat ≡ leaving_seat pass.old.row.seat.running }
        requires room { 1 ≤ pass.old.row.entries }
        ensures same { pass.new ≡ moved pass.old (with_room (calm_seat pass.old.row.seat.running)
            (pass.old.row.entries - 1) pass.old.row.values) pass.new.seen }
        ensures made { Made pass.old.number Kept.Resume pass.old.seen pass.new.seen }
    {
        'tries: for _ in rt.forever() {
            let heard = self.bell.rings();
            if self.try_resume(rt, pass) {
                self.bell.ring();
                return;
            }
            self.bell.wait(rt, heard);
        }
        unreachable!()
    }

    // Tries to wait no more, in one turn.
    fn try_resume<R: Wait>(&self, rt: &R, pass: &mut Pass<M>) -> bool
        requires own { pass.old.shop ≡ self.now }
        requires waits { pass.old.row.seat ≡ leaving_seat pass.old.row.seat.running }
        requires room { 1 ≤ pass.old.row.entries }
        ensures made { result ≡ true → (pass.new ≡ moved pass.old (with_room (calm_seat pass.old.row.seat.running)
            (pass.old.row.entries - 1) pass.old.row.values) pass.new.seen)
            × Made pass.old.number Kept.Resume pass.old.seen pass.new.seen }
        ensures busy { result ≡ false → (pass.new ≡ moved pass.old pass.old.row pass.new.seen)
            × Lags seat_of pass.old.number pass.old.seen pass.new.seen }
    {
        let number = pass.ticket.number();
        let mut desk = self.lock.enter(rt, &mut pass.ticket);
        let resumed = desk.resume(number);
        self.leave(&mut pass.ticket, &mut pass.generation, desk);
        resumed
    }
}
