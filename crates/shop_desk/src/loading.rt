//! Loads, and the yields of a request that runs.
ghost use Rattle.std.specs.Prelude.{◌≡◌, ◌<◌, ◌≤◌, ◌+◌, ◌-◌, ◌++◌, ◌∷◌, [], ℕ, true, false, length, slice_index};
ghost use Rattle.std.specs.Prelude.{Some, None, IsSome, Ok, OnErr};
ghost use Rattle.share_lock.specs.Rows.{busy_exclusive};
ghost use Rattle.system_seats.specs.Seats.{row, is_calm};
ghost use Rattle.system_events.specs.declared.event.Kept.{Kept};
ghost use Rattle.system_events.specs.declared.event.Want.{Want};
ghost use Rattle.system_events.specs.State.{is_in, section_want};
ghost use Rattle.system_events.specs.Steps.{Condition};
ghost use Rattle.shop_base.specs.Rows.{running_seat, seeking_seat, loading_seat, calm_seat, leaving_seat};
ghost use Rattle.shop_base.specs.Rows.{exclusive_seat, IsRunning, IsSeeking, IsLoading, with_room, seat_row};
ghost use Rattle.shop_base.specs.Passes.{entry, begins};
ghost use Rattle.shop_desk.specs.Ledgers.{desk_row, OthersStay, OneMore, setting_aside};
ghost use Rattle.shop_desk.specs.Taken.{task_taken};

use crate::desk::Desk;
use share_lock::Phase;
use std::alloc::AllocError;
use system_core::{Act, Applied, Matter, Want};

/// What the start of a load answers.
#[derive(Clone, Copy, Debug, PartialEq, Eq)]
pub enum Loading {
    /// The seat is exclusive.
    Taken,
    /// The seat seeks to be exclusive.
    Seeking,
    /// The task is in the table.
    Present,
}

// What a Take of a load is of.
fn task_taken<M: Matter>(act: Act<M>) -> Option<M::Task>
    ensures { result ≡ task_taken act }
{
    match act {
        Act::Take(Want::Load(task)) => Some(task),
        _ => None,
    }
}

impl<M: Matter> Desk<M> {
    /// Sets room aside for a load, and takes it or seeks it where the exclusive side is busy. Where the table has the
    /// task it makes no event.
    pub fn first_load(&mut self, seat: u32, task: M::Task) -> Result<Loading, AllocError>
        requires seat { seat < 64 }
        requires runs { IsRunning (desk_row self.old seat).seat }
        requires task { Condition M.facts self.old.state seat (Kept.Take (Want.Load task)) }
        ensures present { result ≡ Ok Loading.Present →
            (is_in M.facts task self.old.state.table ≡ true) × (self.new ≡ self.old) }
        ensures taken { result ≡ Ok Loading.Taken →
            self.new.state.history ≡ self.old.state.history ++ entry seat (Kept.Take (Want.Load task)) ∷ [] }
        ensures taken_row { result ≡ Ok Loading.Taken → (begun : ℕ) →
            (desk_row self.old seat).seat ≡ running_seat begun →
            desk_row self.new seat ≡ with_room (loading_seat begun (length self.old.state.history))
            (slice_index self.old.entries seat + 2) (slice_index self.old.values seat) }
        ensures seeking { result ≡ Ok Loading.Seeking →
            self.new.state.history ≡ self.old.state.history ++ entry seat (Kept.Seek (Want.Load task)) ∷ [] }
        ensures seeking_row { result ≡ Ok Loading.Seeking → (begun : ℕ) →
            (desk_row self.old seat).seat ≡ running_seat begun →
            desk_row self.new seat ≡ with_room (seeking_seat begun (length self.old.state.history))
            (slice_index self.old.entries seat + 3) (slice_index self.old.values seat) }
        ensures err { OnErr result (self.new ≡ self.old) }
        ensures begun { begins seat self.new.state.history ≡ begins seat self.old.state.history }
        ensures gained { OneMore seat self.old self.new }
        ensures others { OthersStay seat self.old self.new }
    {
        let entries = self.entries_of(seat);
        let values = self.values_of(seat);
        match self.set_aside(seat, 4, 0) {
            Ok(()) => Ok(self.load(seat, task, entries, values)),
            Err(error) => Err(error),
        }
    }

    // Takes a load, for which room is set aside already, or seeks it, or leaves so much aside.
    fn load(&mut self, seat: u32, task: M::Task, entries: u32, values: u32) -> Loading
        requires seat { seat < 64 }
        requires runs { IsRunning (desk_row self.old seat).seat }
        requires room { entries + 4 ≤ slice_index self.old.entries seat }
        requires values { values ≤ slice_index self.old.values seat }
        requires task { Condition M.facts self.old.state seat (Kept.Take (Want.Load task)) }
        ensures present { result ≡ Loading.Present →
            (is_in M.facts task self.old.state.table ≡ true) × (self.new ≡ setting_aside self.old seat entries values) }
        ensures taken { result ≡ Loading.Taken →
            self.new.state.history ≡ self.old.state.history ++ entry seat (Kept.Take (Want.Load task)) ∷ [] }
        ensures taken_row { result ≡ Loading.Taken → (begun : ℕ) → (desk_row self.old seat).seat ≡ running_seat begun →
            desk_row self.new seat
            ≡ with_room (loading_seat begun (length self.old.state.history)) (entries + 2) values }
        ensures seeking { result ≡ Loading.Seeking →
            self.new.state.history ≡ self.old.state.history ++ entry seat (Kept.Seek (Want.Load task)) ∷ [] }
        ensures seeking_row { result ≡ Loading.Seeking → (begun : ℕ) →
            (desk_row self.old seat).seat ≡ running_seat begun →
            desk_row self.new seat
            ≡ with_room (seeking_seat begun (length self.old.state.history)) (entries + 3) values }
        ensures begun { begins seat self.new.state.history ≡ begins seat self.old.state.history }
        ensures gained { OneMore seat self.old self.new }
        ensures others { OthersStay seat self.old self.new }
    {
        let _all_entries = self.entries_of(seat);
        if self.has(&task) {
            self.give_up(seat, entries, values);
            return Loading::Present;
        }
        match self.act(seat, Act::Take(Want::Load(task)), entries + 2, values) {
            Applied::Done => Loading::Taken,
            Applied::Refused(_, event) => match task_taken(event.act) {
                Some(task) => {
                    self.seek_load(seat, task, entries, values);
                    Loading::Seeking
                }
                None => unreachable!(),
            },
        }
    }

    // Seeks a load, where the exclusive side is busy.
    fn seek_load(&mut self, seat: u32, task: M::Task, entries: u32, values: u32)
        requires seat { seat < 64 }
        requires runs { IsRunning (desk_row self.old seat).seat }
        requires room { entries + 4 ≤ slice_index self.old.entries seat }
        requires values { values ≤ slice_index self.old.values seat }
        requires new { is_in M.facts task self.old.state.table ≡ false }
        requires busy { let lock = self.old.state.seats.lock in
            busy_exclusive lock.rows lock.exclusive seat 0 ≡ true }
        requires task { Condition M.facts self.old.state seat (Kept.Seek (Want.Load task)) }
        ensures entry { self.new.state.history
            ≡ self.old.state.history ++ entry seat (Kept.Seek (Want.Load task)) ∷ [] }
        ensures row { (begun : ℕ) → (desk_row self.old seat).seat ≡ running_seat begun →
            desk_row self.new seat
            ≡ with_room (seeking_seat begun (length self.old.state.history)) (entries + 3) values }
        ensures begun { begins seat self.new.state.history ≡ begins seat self.old.state.history }
        ensures gained { OneMore seat self.old self.new }
        ensures others { OthersStay seat self.old self.new }
    {
        let _all_entries = self.entries_of(seat);
        match self.act(seat, Act::Seek(Want::Load(task)), entries + 3, values) {
            Applied::Done => {}
            Applied::Refused(..) => unreachable!(),
        }
    }

    // Whether the table has a task.
    fn has(&self, task: &M::Task) -> bool
        ensures { result ≡ is_in M.facts task.now self.now.state.table }
    {
        self.system.value(task).is_some()
    }

    /// Takes a load that the seat seeks, or hands its task back where the exclusive side is busy.
    pub fn take_sought(&mut self, seat: u32, task: M::Task) -> Option<M::Task>
        requires seat { seat < 64 }
        requires seeks { IsSeeking (desk_row self.old seat).seat }
        requires room { 1 ≤ slice_index self.old.entries seat }
        requires sought { section_want self.old.state seat ≡ Some (Want.Load task) }
        requires task { Condition M.facts self.old.state seat (Kept.Take (Want.Load task)) }
        ensures taken { result ≡ None →
            self.new.state.history ≡ self.old.state.history ++ entry seat (Kept.Take (Want.Load task)) ∷ [] }
        ensures row { result ≡ None → (begun opened : ℕ) → (desk_row self.old seat).seat ≡ seeking_seat begun opened →
            desk_row self.new seat ≡ with_room (loading_seat begun opened)
            (slice_index self.old.entries seat - 1) (slice_index self.old.values seat) }
        ensures back { (back : M.Task) → result ≡ Some back → (back ≡ task) × (self.new ≡ self.old) }
        ensures busy { IsSome result →
            busy_exclusive self.old.state.seats.lock.rows self.old.state.seats.lock.exclusive seat 0 ≡ true }
        ensures begun { begins seat self.new.state.history ≡ begins seat self.old.state.history }
        ensures gained { OneMore seat self.old self.new }
        ensures others { OthersStay seat self.old self.new }
    {
        let entries = self.entries_of(seat);
        let values = self.values_of(seat);
        match self.act(seat, Act::Take(Want::Load(task)), entries - 1, values) {
            Applied::Done => None,
            Applied::Refused(_, event) => task_taken(event.act),
        }
    }

    /// Defines a task of the load that the seat is exclusive for.
    pub fn define(&mut self, seat: u32, task: M::Task, value: M::Value)
        requires seat { seat < 64 }
        requires loads { IsLoading (desk_row self.old seat).seat }
        requires room { 1 ≤ slice_index self.old.entries seat }
        requires values { 1 ≤ slice_index self.old.values seat }
        requires new { is_in M.facts task self.old.state.table ≡ false }
        requires needed { Condition M.facts self.old.state seat (Kept.Define task) }
        requires known { M.facts.known self.old.state.counts.program task ≡ Some value }
        ensures entry { self.new.state.history ≡ self.old.state.history ++ entry seat (Kept.Define task) ∷ [] }
        ensures row { desk_row self.new seat ≡ with_room (desk_row self.old seat).seat
            (slice_index self.old.entries seat - 1) (slice_index self.old.values seat - 1) }
        ensures begun { begins seat self.new.state.history ≡ begins seat self.old.state.history }
        ensures gained { OneMore seat self.old self.new }
        ensures others { OthersStay seat self.old self.new }
    {
        let entries = self.entries_of(seat);
        let values = self.values_of(seat);
        match self.act(seat, Act::Define(task, value), entries - 1, values - 1) {
            Applied::Done => {}
            Applied::Refused(..) => unreachable!(),
        }
    }

    /// Is exclusive no more. It answers false where others go first, and the seat waits for them.
    pub fn release(&mut self, seat: u32) -> bool
        requires seat { seat < 64 }
        requires exclusive { (opened : ℕ)
            × ((desk_row self.old seat).seat ≡ exclusive_seat (desk_row self.old seat).seat.running opened) }
        requires room { 2 ≤ slice_index self.old.entries seat }
        ensures entry { self.new.state.history ≡ self.old.state.history ++ entry seat Kept.Release ∷ [] }
        ensures free { result ≡ true → desk_row self.new seat
            ≡ with_room (calm_seat (desk_row self.old seat).seat.running)
            (slice_index self.old.entries seat - 2) (slice_index self.old.values seat) }
        ensures waits { result ≡ false → desk_row self.new seat
            ≡ with_room (leaving_seat (desk_row self.old seat).seat.running)
            (slice_index self.old.entries seat - 1) (slice_index self.old.values seat) }
        ensures begun { begins seat self.new.state.history ≡ begins seat self.old.state.history }
        ensures gained { OneMore seat self.old self.new }
        ensures others { OthersStay seat self.old self.new }
    {
        let entries = self.entries_of(seat);
        let values = self.values_of(seat);
        match self.act(seat, Act::Release, entries - 1, values) {
            Applied::Done => self.give_up_resume(seat, entries, values),
            Applied::Refused(..) => unreachable!(),
        }
    }

    /// Waits no more, if nobody goes first any longer.
    pub fn resume(&mut self, seat: u32) -> bool
        requires seat { seat < 64 }
        requires waits { (desk_row self.old seat).seat ≡ leaving_seat (desk_row self.old seat).seat.running }
        requires room { 1 ≤ slice_index self.old.entries seat }
        ensures entry { result ≡ true →
            self.new.state.history ≡ self.old.state.history ++ entry seat Kept.Resume ∷ [] }
        ensures row { result ≡ true → desk_row self.new seat
            ≡ with_room (calm_seat (desk_row self.old seat).seat.running)
            (slice_index self.old.entries seat - 1) (slice_index self.old.values seat) }
        ensures busy { result ≡ false → self.new ≡ self.old }
        ensures begun { begins seat self.new.state.history ≡ begins seat self.old.state.history }
        ensures gained { OneMore seat self.old self.new }
        ensures others { OthersStay seat self.old self.new }
    {
        let entries = self.entries_of(seat);
        let values = self.values_of(seat);
        match self.act(seat, Act::Resume, entries - 1, values) {
            Applied::Done => true,
            Applied::Refused(..) => false,
        }
    }
}

// The halves of a release that follow its event.
impl<M: Matter> Desk<M> {
    fn is_calm(&self, seat: u32) -> bool
        requires { seat < 64 }
        ensures { result ≡ is_calm (row self.now.state.seats seat).phase }
    {
        self.tells_legal();
        match self.system.row(seat).lock.phase {
            Phase::Calm => true,
            Phase::Seeking(_) => false,
            Phase::Releasing(_) => false,
        }
    }

    // Where the seat needn't wait, gives up what is set aside for its Resume: of so many entries two are left.
    fn give_up_resume(&mut self, seat: u32, entries: u32, values: u32) -> bool
        requires seat { seat < 64 }
        requires entries { (2 ≤ entries) × (entries - 1 ≤ slice_index self.old.entries seat) }
        requires values { values ≤ slice_index self.old.values seat }
        ensures calm { result ≡ is_calm (row self.old.state.seats seat).phase }
        ensures free { result ≡ true → self.new ≡ setting_aside self.old seat (entries - 2) values }
        ensures free_row { result ≡ true →
            desk_row self.new seat ≡ with_room (seat_row self.old.state.seats seat) (entries - 2) values }
        ensures others { OthersStay seat self.old self.new }
        ensures waits { result ≡ false → self.new ≡ self.old }
    {
        if self.is_calm(seat) {
            self.give_up(seat, entries - 2, values);
            true
        } else {
            false
        }
    }
}
