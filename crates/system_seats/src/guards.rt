//! The guards of each event, in order.
ghost use Rattle.std.specs.Prelude.{◌≡◌, ◌<◌, length, Some, None, is_some};
ghost use Rattle.share_lock.specs.Rows.{busy_exclusive};
ghost use Rattle.system_seats.specs.Seats.{row, runs_at, is_owner, purpose_bit};
ghost use Rattle.system_seats.specs.Guards.{share_guard, unshare_guard, yield_guard, retake_guard, seek_guard};
ghost use Rattle.system_seats.specs.Guards.{take_guard, release_guard, resume_guard, begin_guard, end_guard};
ghost use Rattle.system_seats.specs.Guards.{define_guard, reload_guard, seeks_this, list_of_phase, own_want, own_seek};
ghost use Rattle.system_seats.specs.Guards.{own_take};

use crate::guard::{Guard, Purpose};
use crate::table::SeatTable;
use share_lock::Phase;

impl SeatTable {
    // Whether some seat is exclusive.
    fn is_any_exclusive(&self) -> bool
        ensures { result ≡ is_some self.now.lock.exclusive }
    {
        self.lock.exclusive().is_some()
    }

    // Whether the seat has to wait until it is exclusive for this.
    fn is_busy_for(&self, seat: u32, purpose: Purpose) -> bool
        requires { seat < length self.now.lock.rows }
        ensures { result ≡ busy_exclusive self.now.lock.rows self.now.lock.exclusive seat (purpose_bit purpose) }
    {
        self.lock.is_busy_for_exclusive(seat, bit_of(purpose))
    }

    // The list of a seat that waits after a release.
    fn releasing_list(&self, seat: u32) -> u8
        requires { seat < length self.now.lock.rows }
        ensures { result ≡ list_of_phase (row self.now seat).phase }
    {
        match self.lock.raw_state().at(seat as usize).phase {
            Phase::Calm => 0,
            Phase::Seeking(_) => 0,
            Phase::Releasing(list) => list,
        }
    }

    // Whether the seat seeks this: for the purpose, and, as `wanted` says, for the task.
    fn seeks(&self, seat: u32, purpose: Purpose, wanted: bool) -> bool
        requires { seat < length self.now.lock.rows }
        ensures { result ≡ seeks_this purpose wanted (row self.now seat).phase }
    {
        match self.lock.raw_state().at(seat as usize).phase {
            Phase::Calm => false,
            Phase::Seeking(bit) => bit == bit_of(purpose) && wanted,
            Phase::Releasing(_) => false,
        }
    }

    /// The first true guard of a Share.
    pub fn share_guard(&self, seat: u32) -> Option<Guard>
        requires { seat < length self.now.lock.rows }
        ensures { result ≡ share_guard self.now seat }
    {
        if !self.is_calm(seat) {
            Some(Guard::Pending)
        } else if self.has_share(seat) || self.has_yield(seat) || self.is_exclusive(seat) {
            Some(Guard::Sharing)
        } else if self.lock.is_busy_for_share(seat, 7) {
            Some(Guard::BusyShare)
        } else {
            None
        }
    }

    /// The first true guard of an Unshare.
    pub fn unshare_guard(&self, seat: u32) -> Option<Guard>
        requires { seat < length self.now.lock.rows }
        ensures { result ≡ unshare_guard self.now seat }
    {
        if !self.has_share(seat) {
            Some(Guard::NoShare)
        } else if self.is_exclusive(seat) {
            Some(Guard::Exclusive)
        } else if self.runs(seat) {
            Some(Guard::Running)
        } else {
            None
        }
    }

    /// The first true guard of a Yield.
    pub fn yield_guard(&self, seat: u32) -> Option<Guard>
        requires { seat < length self.now.lock.rows }
        ensures { result ≡ yield_guard self.now seat }
    {
        if !self.has_share(seat) {
            Some(Guard::NoShare)
        } else if self.is_exclusive(seat) {
            Some(Guard::Exclusive)
        } else if !self.runs(seat) {
            Some(Guard::NotRunning)
        } else {
            None
        }
    }

    /// The first true guard of a Retake.
    pub fn retake_guard(&self, seat: u32) -> Option<Guard>
        requires { seat < length self.now.lock.rows }
        ensures { result ≡ retake_guard self.now seat }
    {
        if !self.is_calm(seat) || !self.has_yield(seat) {
            Some(Guard::NotYielded)
        } else if self.lock.is_another_exclusive(seat) {
            Some(Guard::OtherExclusive)
        } else {
            None
        }
    }

    // What a want adds to the guards of the row.
    fn want_guard(&self, seat: u32, purpose: Purpose, known: bool) -> Option<Guard>
        requires { seat < length self.now.lock.rows }
        ensures { result ≡ own_want purpose (runs_at self.now seat) known None }
    {
        let runs = self.runs(seat);
        match purpose {
            Purpose::Load => {
                if !runs {
                    Some(Guard::NotRunning)
                } else if known {
                    Some(Guard::InTable)
                } else {
                    None
                }
            }
            Purpose::Unload => { if runs { Some(Guard::Running) } else { None } }
        }
    }

    // The guards of a seek that look at the seat's own row.
    fn section_guard(&self, seat: u32, purpose: Purpose, known: bool) -> Option<Guard>
        requires { seat < length self.now.lock.rows }
        ensures { result ≡ own_seek purpose (row self.now seat) (runs_at self.now seat)
            (is_owner self.now seat) known None }
    {
        if !self.has_share(seat) {
            Some(Guard::NoShare)
        } else if self.is_exclusive(seat) {
            Some(Guard::Exclusive)
        } else {
            self.want_guard(seat, purpose, known)
        }
    }

    /// The first true guard of a Seek. `known` says whether it is a load of a task in the table.
    pub fn seek_guard(&self, seat: u32, purpose: Purpose, known: bool) -> Option<Guard>
        requires { seat < length self.now.lock.rows }
        ensures { result ≡ seek_guard self.now seat purpose known }
    {
        match self.section_guard(seat, purpose, known) {
            Some(guard) => Some(guard),
            None => {
                if self.is_busy_for(seat, purpose) {
                    None
                } else {
                    Some(Guard::NotBusy)
                }
            }
        }
    }

    // The guards of a take that look at the seat's own row.
    fn own_take_guard(
        &self,
        seat: u32,
        purpose: Purpose,
        known: bool,
        wanted: bool,
    ) -> Option<Guard>
        requires { seat < length self.now.lock.rows }
        ensures { result ≡ own_take purpose (row self.now seat) (runs_at self.now seat)
            (is_owner self.now seat) known wanted None }
    {
        if self.is_calm(seat) {
            self.section_guard(seat, purpose, known)
        } else if !self.seeks(seat, purpose, wanted) {
            Some(Guard::WrongWant)
        } else {
            None
        }
    }

    /// The first true guard of a Take. `known` is as for a Seek, and `wanted` says whether the seat's section is this
    /// want.
    pub fn take_guard(
        &self,
        seat: u32,
        purpose: Purpose,
        known: bool,
        wanted: bool,
    ) -> Option<Guard>
        requires { seat < length self.now.lock.rows }
        ensures { result ≡ take_guard self.now seat purpose known wanted }
    {
        match self.own_take_guard(seat, purpose, known, wanted) {
            Some(guard) => Some(guard),
            None => {
                if self.is_busy_for(seat, purpose) {
                    Some(Guard::BusyExclusive)
                } else {
                    None
                }
            }
        }
    }

    /// The first true guard of a Release.
    pub fn release_guard(&self, seat: u32) -> Option<Guard>
        requires { seat < length self.now.lock.rows }
        ensures { result ≡ release_guard self.now seat }
    {
        if self.is_exclusive(seat) {
            None
        } else {
            Some(Guard::NotExclusive)
        }
    }

    /// The first true guard of a Resume.
    pub fn resume_guard(&self, seat: u32) -> Option<Guard>
        requires { seat < length self.now.lock.rows }
        ensures { result ≡ resume_guard self.now seat }
    {
        if !self.is_releasing(seat) {
            Some(Guard::NotReleasing)
        } else if self.is_any_exclusive() {
            Some(Guard::OtherExclusive)
        } else if self.lock.is_eligible(self.releasing_list(seat)) {
            Some(Guard::StillEligible)
        } else {
            None
        }
    }

    /// The first true guard of a Begin that look at the seats.
    pub fn begin_guard(&self, seat: u32) -> Option<Guard>
        requires { seat < length self.now.lock.rows }
        ensures { result ≡ begin_guard self.now seat }
    {
        if !self.has_share(seat) {
            Some(Guard::NoShare)
        } else if self.runs(seat) {
            Some(Guard::Running)
        } else if self.is_any_exclusive() {
            Some(Guard::Exclusive)
        } else {
            None
        }
    }

    /// The first true guard of an End.
    pub fn end_guard(&self, seat: u32) -> Option<Guard>
        requires { seat < length self.now.lock.rows }
        ensures { result ≡ end_guard self.now seat }
    {
        if !self.runs(seat) {
            Some(Guard::NotRunning)
        } else if !self.has_share(seat) {
            Some(Guard::NoShare)
        } else if self.is_exclusive(seat) {
            Some(Guard::Exclusive)
        } else {
            None
        }
    }

    /// The first true guard of a Define that look at the seats.
    pub fn define_guard(&self, seat: u32) -> Option<Guard>
        requires { seat < length self.now.lock.rows }
        ensures { result ≡ define_guard self.now seat }
    {
        if self.is_exclusive(seat) && self.runs(seat) {
            None
        } else {
            Some(Guard::NotLoading)
        }
    }

    /// The first true guard of a Reload that look at the seats.
    pub fn reload_guard(&self, seat: u32) -> Option<Guard>
        requires { seat < length self.now.lock.rows }
        ensures { result ≡ reload_guard self.now seat }
    {
        if self.is_exclusive(seat) && !self.runs(seat) {
            None
        } else {
            Some(Guard::NotUnloading)
        }
    }
}

// The purpose in the lock's numbers.
pub(crate) fn bit_of(purpose: Purpose) -> u8
    ensures { result ≡ purpose_bit purpose }
{
    match purpose {
        Purpose::Load => 0,
        Purpose::Unload => 1,
    }
}
