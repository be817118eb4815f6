//! The effects of each event, each where no guard of its row is true.
ghost use Rattle.std.specs.Prelude.{◌≡◌, ◌<◌, ◌≤◌, length, true, false, None, slice_set};
ghost use Rattle.share_lock.specs.Lock.{owns, row_of, changed_at, taken_by, seeking};
ghost use Rattle.share_lock.specs.Rows.{busy_exclusive};
ghost use Rattle.system_seats.specs.Seats.{row, mark, is_calm, purpose_bit, purpose_list};
ghost use Rattle.system_seats.specs.Guards.{share_guard, unshare_guard, yield_guard, retake_guard, seek_guard};
ghost use Rattle.system_seats.specs.Guards.{take_guard, release_guard, resume_guard, begin_guard, end_guard};
ghost use Rattle.system_seats.specs.Copies.{copied};
ghost use Rattle.system_seats.specs.Effects.{release_lock, after_share, after_unshare, after_yield, after_retake};
ghost use Rattle.system_seats.specs.Effects.{after_seek, after_take, after_release, after_resume, after_begin};
ghost use Rattle.system_seats.specs.Effects.{after_end, purpose_of_section};

use crate::guard::{Marks, Purpose};
use crate::table::{SeatTable, SystemRow};
use interlock::Interlock;
use share_lock::{LockState, Phase};

impl SeatTable {
    /// The seat takes a share.
    pub fn share(&mut self, seat: u32)
        requires seat { seat < length self.old.lock.rows }
        requires passed { share_guard self.old seat ≡ None }
        ensures { self.new ≡ after_share self.old seat }
    {
        let marks = self.marks(seat);
        self.lock.start_running(seat);
        put(&mut self.rows, &self.lock, seat, marks);
    }

    /// The seat gives its share back.
    pub fn unshare(&mut self, seat: u32)
        requires seat { seat < length self.old.lock.rows }
        requires passed { unshare_guard self.old seat ≡ None }
        ensures { self.new ≡ after_unshare self.old seat }
    {
        let marks = self.marks(seat);
        self.lock.done_running(seat);
        put(&mut self.rows, &self.lock, seat, marks);
    }
}

impl SeatTable {
    /// The seat puts its share aside and lets loads go first.
    pub fn yield_share(&mut self, seat: u32)
        requires seat { seat < length self.old.lock.rows }
        requires passed { yield_guard self.old seat ≡ None }
        ensures { self.new ≡ after_yield self.old seat }
    {
        let marks = self.marks(seat);
        self.lock.permit_begin(seat);
        put(&mut self.rows, &self.lock, seat, marks);
    }

    /// The seat takes back the share that it put aside.
    pub fn retake(&mut self, seat: u32)
        requires seat { seat < length self.old.lock.rows }
        requires passed { retake_guard self.old seat ≡ None }
        ensures { self.new ≡ after_retake self.old seat }
    {
        let marks = self.marks(seat);
        self.lock.permit_end(seat);
        put(&mut self.rows, &self.lock, seat, marks);
    }

    /// The seat seeks to be exclusive, and lets others of a kind go first. The entry at this place opens its section.
    pub fn seek(&mut self, seat: u32, purpose: Purpose, place: u64)
        requires seat { seat < length self.old.lock.rows }
        requires passed { seek_guard self.old seat purpose false ≡ None }
        ensures { self.new ≡ after_seek self.old seat purpose place }
    {
        let marks = self.marks(seat);
        start(&mut self.lock, seat, purpose);
        put(
            &mut self.rows,
            &self.lock,
            seat,
            Marks {
                section: Some(place),
                ..marks
            },
        );
    }

    /// The seat becomes exclusive. Where it didn't seek, the entry at this place opens its section.
    pub fn take(&mut self, seat: u32, purpose: Purpose, place: u64)
        requires seat { seat < length self.old.lock.rows }
        requires passed { take_guard self.old seat purpose false true ≡ None }
        ensures { self.new ≡ after_take self.old seat place }
    {
        if self.is_calm(seat) {
            self.take_calm(seat, purpose, place);
        } else {
            self.take_sought(seat, purpose, place);
        }
    }

    fn take_calm(&mut self, seat: u32, purpose: Purpose, place: u64)
        requires seat { seat < length self.old.lock.rows }
        requires passed { take_guard self.old seat purpose false true ≡ None }
        requires calm { is_calm (row self.old seat).phase ≡ true }
        ensures { self.new ≡ after_take self.old seat place }
    {
        let marks = self.marks(seat);
        start(&mut self.lock, seat, purpose);
        put(
            &mut self.rows,
            &self.lock,
            seat,
            Marks {
                section: Some(place),
                ..marks
            },
        );
    }

    fn take_sought(&mut self, seat: u32, _purpose: Purpose, _place: u64)
        requires seat { seat < length self.old.lock.rows }
        requires passed { take_guard self.old seat _purpose false true ≡ None }
        requires calm { is_calm (row self.old seat).phase ≡ false }
        ensures { self.new ≡ after_take self.old seat _place }
    {
        let marks = self.marks(seat);
        self.lock.try_resume(seat);
        put(&mut self.rows, &self.lock, seat, marks);
    }

    fn section_purpose(&self, seat: u32) -> Purpose
        requires { seat < length self.now.lock.rows }
        ensures { result ≡ purpose_of_section (mark self.now seat) }
    {
        if self.runs(seat) {
            Purpose::Load
        } else {
            Purpose::Unload
        }
    }

    /// The seat is exclusive no more. Where another seat can go first, it waits.
    pub fn release(&mut self, seat: u32)
        requires seat { seat < length self.old.lock.rows }
        requires passed { release_guard self.old seat ≡ None }
        ensures { self.new ≡ after_release self.old seat }
    {
        let marks = self.marks(seat);
        let purpose = self.section_purpose(seat);
        stop(&mut self.lock, seat, purpose);
        put(
            &mut self.rows,
            &self.lock,
            seat,
            Marks {
                section: None,
                ..marks
            },
        );
    }

    /// The seat waits no more.
    pub fn resume(&mut self, seat: u32)
        requires seat { seat < length self.old.lock.rows }
        requires passed { resume_guard self.old seat ≡ None }
        ensures { self.new ≡ after_resume self.old seat }
    {
        let marks = self.marks(seat);
        self.lock.try_resume(seat);
        put(&mut self.rows, &self.lock, seat, marks);
    }

    /// The seat runs the request of the Begin at this place.
    pub fn begin(&mut self, seat: u32, place: u64)
        requires seat { seat < length self.old.lock.rows }
        requires passed { begin_guard self.old seat ≡ None }
        ensures { self.new ≡ after_begin self.old seat place }
    {
        let marks = self.marks(seat);
        put(
            &mut self.rows,
            &self.lock,
            seat,
            Marks {
                running: Some(place),
                ..marks
            },
        );
    }

    /// The seat runs no request.
    pub fn end(&mut self, seat: u32)
        requires seat { seat < length self.old.lock.rows }
        requires passed { end_guard self.old seat ≡ None }
        ensures { self.new ≡ after_end self.old seat }
    {
        let marks = self.marks(seat);
        put(
            &mut self.rows,
            &self.lock,
            seat,
            Marks {
                running: None,
                ..marks
            },
        );
    }
}

// Becomes exclusive, or seeks to.
fn start(lock: &mut LockState, seat: u32, purpose: Purpose)
    requires seat { seat < length lock.old.rows }
    requires calm { (row_of lock.old seat).phase ≡ Phase.Calm }
    requires depth { lock.old.depth ≤ 1 }
    requires room { length (row_of lock.old seat).yields < 8 }
    requires apart { owns lock.old.exclusive seat ≡ false }
    ensures taken { busy_exclusive lock.old.rows lock.old.exclusive seat (purpose_bit purpose) ≡ false
        → lock.new ≡ taken_by seat lock.old }
    ensures seeking { busy_exclusive lock.old.rows lock.old.exclusive seat (purpose_bit purpose) ≡ true
        → lock.new ≡ changed_at lock.old seat (seeking (purpose_bit purpose) (purpose_list purpose)) }
{
    match purpose {
        Purpose::Load => {
            lock.start_loading(seat);
        }
        Purpose::Unload => {
            lock.start_unloading(seat);
        }
    }
}

// Ends being exclusive, or waits for those that go first.
fn stop(lock: &mut LockState, seat: u32, purpose: Purpose)
    requires seat { seat < length lock.old.rows }
    requires depth { lock.old.depth ≤ 1 }
    requires room { length (row_of lock.old seat).yields < 8 }
    requires exclusive { owns lock.old.exclusive seat ≡ true }
    ensures { lock.new ≡ release_lock lock.old seat (purpose_list purpose) }
{
    match purpose {
        Purpose::Load => {
            lock.done_loading(seat);
        }
        Purpose::Unload => {
            lock.done_unloading(seat);
        }
    }
}

// Copies the lock's row, and sets the marks.
fn put(rows: &mut Vec<SystemRow>, lock: &LockState, seat: u32, marks: Marks)
    requires rows { seat < length rows.old.items }
    requires lock { seat < length lock.now.rows }
    ensures { rows.new.items ≡ slice_set rows.old.items seat (copied lock.now seat marks) }
{
    rows[seat as usize] = SystemRow {
        lock: lock.raw_state().at(seat as usize).copy(),
        running: marks.running,
        section: marks.section,
    };
}
