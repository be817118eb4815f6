//! Loads of tasks.
ghost use Rattle.std.specs.Prelude.{◌≡◌, ◌<◌, ◌≤◌, ◌∷◌, [], ℕ, ◌+◌, ◌-◌, true, false, length, IfOk, OnOk, OnErr, Ok};
ghost use Rattle.std.specs.Prelude.{None, Some, Contains, IsSome, slice_index, ◌++◌};
ghost use Rattle.share_lock.specs.Rows.{busy_exclusive};
ghost use Rattle.turn_lock.specs.Entries.{Lags};
ghost use Rattle.system_events.specs.declared.event.Kept.{Kept};
ghost use Rattle.system_events.specs.declared.event.Want.{Want};
ghost use Rattle.system_events.specs.State.{is_in, section_want};
ghost use Rattle.system_events.specs.Steps.{Condition};
ghost use Rattle.shop_base.specs.Rows.{running_seat, seeking_seat, loading_seat, IsRunning, IsSeeking, IsLoading};
ghost use Rattle.shop_base.specs.Rows.{with_room};
ghost use Rattle.shop_base.specs.Passes.{seat_of, seen_state, moved, Made, entry};
ghost use Rattle.shop_desk.specs.Ledgers.{desk_row, OneMore, OthersStay};
ghost use Rattle.shop.specs.Seeking.{SeeksTask, LoadsTask};

use crate::copies::Copies;
use crate::pass::Pass;
use crate::shop::Shop;
use shop_desk::{Desk, Loading};
use std::alloc::AllocError;
use std::mem;
use std::sync::Wait;
use system_core::Matter;

impl<M: Copies> Shop<M> {
    /// Takes a load of a task, or seeks it where the exclusive side is busy. Where the table has the task there is no
    /// event. It sets room aside for the Take, the Release and the Resume. While it seeks, the request's share is put
    /// aside and the pass keeps a copy of the task.
    pub fn start_loading<R: Wait>(
        &self,
        rt: &R,
        pass: &mut Pass<M>,
        task: &M::Task,
    ) -> Result<Loading, AllocError>
        requires own { pass.old.shop ≡ self.now }
        requires runs { IsRunning pass.old.row.seat }
        requires task { Contains (M.facts.tasks (seen_state M.facts pass.old).counts.program) task.now }
        // The table has the task exactly where it answers so.
        ensures present { result ≡ Ok Loading.Present →
            (is_in M.facts task.now (seen_state M.facts pass.new).table ≡ true)
            × (pass.new ≡ moved pass.old pass.old.row pass.new.seen)
            × Lags seat_of pass.old.number pass.old.seen pass.new.seen }
        ensures taken { result ≡ Ok Loading.Taken → (pass.new ≡ moved pass.old pass.new.row pass.new.seen)
            × Made pass.old.number (Kept.Take (Want.Load task.now)) pass.old.seen pass.new.seen
            × LoadsTask M.facts pass.new task.now }
        ensures taken_row { result ≡ Ok Loading.Taken → (begun : ℕ) → pass.old.row.seat ≡ running_seat begun →
            pass.new.row ≡ with_room (loading_seat begun (length pass.new.seen - 1))
            (pass.old.row.entries + 2) pass.old.row.values }
        ensures seeking { result ≡ Ok Loading.Seeking →
            (pass.new ≡ record (moved pass.old pass.new.row pass.new.seen) { sought = Some task.now })
            × Made pass.old.number (Kept.Seek (Want.Load task.now)) pass.old.seen pass.new.seen
            × SeeksTask M.facts pass.new task.now }
        ensures seeking_row { result ≡ Ok Loading.Seeking → (begun : ℕ) → pass.old.row.seat ≡ running_seat begun →
            pass.new.row ≡ with_room (seeking_seat begun (length pass.new.seen - 1))
            (pass.old.row.entries + 3) pass.old.row.values }
        ensures err { OnErr result ((pass.new ≡ moved pass.old pass.old.row pass.new.seen)
            × Lags seat_of pass.old.number pass.old.seen pass.new.seen) }
    {
        let first = M::copy_task(task)?;
        let sought = M::copy_task(task)?;
        let loading = self.first_load(rt, pass, first)?;
        match loading {
            Loading::Seeking => {
                pass.sought = Some(sought);
                self.bell.ring();
                Ok(Loading::Seeking)
            }
            Loading::Taken => Ok(Loading::Taken),
            Loading::Present => Ok(Loading::Present),
        }
    }
}

impl<M: Matter> Shop<M> {
    // Takes a load, seeks it, or finds the task in the table, in one turn.
    fn first_load<R: Wait>(
        &self,
        rt: &R,
        pass: &mut Pass<M>,
        task: M::Task,
    ) -> Result<Loading, AllocError>
        requires own { pass.old.shop ≡ self.now }
        requires runs { IsRunning pass.old.row.seat }
        requires task { Contains (M.facts.tasks (seen_state M.facts pass.old).counts.program) task }
        ensures same { pass.new ≡ moved pass.old pass.new.row pass.new.seen }
        ensures present { result ≡ Ok Loading.Present →
            (is_in M.facts task (seen_state M.facts pass.new).table ≡ true)
            × (pass.new ≡ moved pass.old pass.old.row pass.new.seen)
            × Lags seat_of pass.old.number pass.old.seen pass.new.seen }
        ensures taken { result ≡ Ok Loading.Taken →
            Made pass.old.number (Kept.Take (Want.Load task)) pass.old.seen pass.new.seen }
        ensures taken_row { result ≡ Ok Loading.Taken → (begun : ℕ) → pass.old.row.seat ≡ running_seat begun →
            pass.new.row ≡ with_room (loading_seat begun (length pass.new.seen - 1))
            (pass.old.row.entries + 2) pass.old.row.values }
        ensures taken_section { result ≡ Ok Loading.Taken →
            section_want (seen_state M.facts pass.new) pass.old.number ≡ Some (Want.Load task) }
        ensures seeking { result ≡ Ok Loading.Seeking →
            Made pass.old.number (Kept.Seek (Want.Load task)) pass.old.seen pass.new.seen }
        ensures seeking_row { result ≡ Ok Loading.Seeking → (begun : ℕ) → pass.old.row.seat ≡ running_seat begun →
            pass.new.row ≡ with_room (seeking_seat begun (length pass.new.seen - 1))
            (pass.old.row.entries + 3) pass.old.row.values }
        ensures seeking_section { result ≡ Ok Loading.Seeking →
            section_want (seen_state M.facts pass.new) pass.old.number ≡ Some (Want.Load task) }
        ensures seeking_task { result ≡ Ok Loading.Seeking →
            Contains (M.facts.tasks (seen_state M.facts pass.new).counts.program) task }
        ensures err { OnErr result ((pass.new ≡ moved pass.old pass.old.row pass.new.seen)
            × Lags seat_of pass.old.number pass.old.seen pass.new.seen) }
    {
        let number = pass.ticket.number();
        let mut desk = self.lock.enter(rt, &mut pass.ticket);
        desk.tells_legal();
        let loading = desk.first_load(number, task);
        self.leave(&mut pass.ticket, &mut pass.generation, desk);
        loading
    }

    /// Takes the load that the pass seeks, if nobody else is exclusive or shares.
    pub fn try_loading<R: Wait>(&self, rt: &R, pass: &mut Pass<M>, task: &M::Task) -> bool
        requires own { pass.old.shop ≡ self.now }
        requires seeks { SeeksTask M.facts pass.old task.now }
        requires room { 5 ≤ pass.old.row.entries }
        ensures taken { result ≡ true →
            (pass.new ≡ record (moved pass.old pass.new.row pass.new.seen) { sought = None })
            × Made pass.old.number (Kept.Take (Want.Load task.now)) pass.old.seen pass.new.seen
            × LoadsTask M.facts pass.new task.now }
        ensures row { result ≡ true → (begun opened : ℕ) → pass.old.row.seat ≡ seeking_seat begun opened →
            pass.new.row ≡ with_room (loading_seat begun opened) (pass.old.row.entries - 1) pass.old.row.values }
        ensures waits { result ≡ false → (pass.new ≡ moved pass.old pass.old.row pass.new.seen)
            × Lags seat_of pass.old.number pass.old.seen pass.new.seen
            × SeeksTask M.facts pass.new task.now }
        // The exclusive side was busy at that turn.
        ensures busy { result ≡ false → let lock = (seen_state M.facts pass.new).seats.lock in
            busy_exclusive lock.rows lock.exclusive pass.old.number 0 ≡ true }
    {
        let number = pass.ticket.number();
        let mut desk = self.lock.enter(rt, &mut pass.ticket);
        desk.tells_legal();
        let sought = mem::replace(&mut pass.sought, None);
        let back = take_load(&mut desk, number, task, sought);
        self.leave(&mut pass.ticket, &mut pass.generation, desk);
        match back {
            Some(kept) => {
                pass.sought = Some(kept);
                false
            }
            None => true,
        }
    }

    /// Takes the load that the pass seeks, as soon as nobody else is exclusive or shares.
    pub fn await_loading<R: Wait>(&self, rt: &R, pass: &mut Pass<M>, task: &M::Task)
        requires own { pass.old.shop ≡ self.now }
        requires seeks { SeeksTask M.facts pass.old task.now }
        requires room { 5 ≤ pass.old.row.entries }
        ensures same { pass.new ≡ record (moved pass.old pass.new.row pass.new.seen) { sought = None } }
        ensures made { Made pass.old.number (Kept.Take (Want.Load task.now)) pass.old.seen pass.new.seen }
        ensures loads { LoadsTask M.facts pass.new task.now }
        ensures row { (begun opened : ℕ) → pass.old.row.seat ≡ seeking_seat begun opened →
            pass.new.row ≡ with_room (loading_seat begun opened) (pass.old.row.entries - 1) pass.old.row.values }
    {
        'tries: for _ in rt.forever() {
            let heard = self.bell.rings();
            if self.try_loading(rt, pass, task) {
                return;
            }
            self.bell.wait(rt, heard);
        }
        unreachable!()
    }

    /// Sets so many entries and values more aside, for as many tasks to be defined.
    pub fn room<R: Wait>(&self, rt: &R, pass: &mut Pass<M>, values: u32) -> Result<(), AllocError>
        requires own { pass.old.shop ≡ self.now }
        ensures ok { OnOk result (pass.new ≡ moved pass.old (with_room pass.old.row.seat
            (pass.old.row.entries + values) (pass.old.row.values + values)) pass.new.seen) }
        ensures err { OnErr result (pass.new ≡ moved pass.old pass.old.row pass.new.seen) }
        ensures seen { Lags seat_of pass.old.number pass.old.seen pass.new.seen }
    {
        let number = pass.ticket.number();
        let mut desk = self.lock.enter(rt, &mut pass.ticket);
        let room = desk.set_aside(number, values, values);
        self.leave(&mut pass.ticket, &mut pass.generation, desk);
        room
    }

    /// Defines a task that the load needs, with the value that is known of it. It uses one entry and one value of those
    /// set aside.
    pub fn define<R: Wait>(&self, rt: &R, pass: &mut Pass<M>, task: M::Task, value: M::Value)
        requires own { pass.old.shop ≡ self.now }
        requires loads { IsLoading pass.old.row.seat }
        requires room { 5 ≤ pass.old.row.entries }
        requires values { 1 ≤ pass.old.row.values }
        requires new { is_in M.facts task (seen_state M.facts pass.old).table ≡ false }
        requires needed { Condition M.facts (seen_state M.facts pass.old) pass.old.number (Kept.Define task) }
        requires known { M.facts.known (seen_state M.facts pass.old).counts.program task ≡ Some value }
        ensures same { pass.new ≡ moved pass.old (with_room pass.old.row.seat
            (pass.old.row.entries - 1) (pass.old.row.values - 1)) pass.new.seen }
        ensures made { Made pass.old.number (Kept.Define task) pass.old.seen pass.new.seen }
        ensures table { (seen_state M.facts pass.new).table
            ≡ (seen_state M.facts pass.old).table ++ (task, value) ∷ [] }
        // It still loads the task that it loaded.
        ensures section { (sought : M.Task) → LoadsTask M.facts pass.old sought → LoadsTask M.facts pass.new sought }
    {
        let number = pass.ticket.number();
        let mut desk = self.lock.enter(rt, &mut pass.ticket);
        desk.tells_legal();
        desk.define(number, task, value);
        self.leave(&mut pass.ticket, &mut pass.generation, desk);
    }
}

// Takes the load that a seat seeks, or hands its task back.
fn take_load<M: Matter>(
    desk: &mut Desk<M>,
    seat: u32,
    task: &M::Task,
    sought: Option<M::Task>,
) -> Option<M::Task>
    requires seat { seat < 64 }
    requires seeks { IsSeeking (desk_row desk.old seat).seat }
    requires room { 1 ≤ slice_index desk.old.entries seat }
    requires sought { sought ≡ Some task.now }
    requires section { section_want desk.old.state seat ≡ Some (Want.Load task.now) }
    requires task { Condition M.facts desk.old.state seat (Kept.Take (Want.Load task.now)) }
    ensures taken { result ≡ None → desk.new.state.history
        ≡ desk.old.state.history ++ entry seat (Kept.Take (Want.Load task.now)) ∷ [] }
    ensures row { result ≡ None → (begun opened : ℕ) → (desk_row desk.old seat).seat ≡ seeking_seat begun opened →
        desk_row desk.new seat ≡ with_room (loading_seat begun opened)
        (slice_index desk.old.entries seat - 1) (slice_index desk.old.values seat) }
    ensures back { (back : M.Task) → result ≡ Some back → (back ≡ task.now) × (desk.new ≡ desk.old) }
    ensures busy { IsSome result →
        busy_exclusive desk.old.state.seats.lock.rows desk.old.state.seats.lock.exclusive seat 0 ≡ true }
    ensures gained { OneMore seat desk.old desk.new }
    ensures others { OthersStay seat desk.old desk.new }
{
    let _ = task;
    match sought {
        Some(sought) => desk.take_sought(seat, sought),
        None => unreachable!(),
    }
}
