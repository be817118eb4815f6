//! Whether a call of the lock may be made: the condition of each call, as a reading that changes nothing.
ghost use Rattle.std.specs.Prelude.{◌≡◌, ◌≢◌, ◌<◌, ◌⊎◌, ◌↔◌, IsTrue, length, true, false};
ghost use Rattle.share_lock.specs.Rows.{is_nothing, last_saved};
ghost use Rattle.share_lock.specs.Lock.{row_of, owns};

use crate::lock::LockState;
use crate::seat::Phase;

impl LockState {
    /// Whether the number is that of a seat.
    pub fn is_seat(&self, seat: u32) -> bool
        ensures { IsTrue result ↔ (seat < length self.now.rows) }
    {
        (seat as usize) < self.raw_state().len()
    }

    /// Whether the seat is in the midst of nothing: it neither seeks nor waits after a release.
    pub fn is_calm(&self, seat: u32) -> bool
        requires { seat < length self.now.rows }
        ensures { IsTrue result ↔ ((row_of self.now seat).phase ≡ Phase.Calm) }
    {
        match self.raw_state().at(seat as usize).phase {
            Phase::Calm => true,
            Phase::Seeking(_) | Phase::Releasing(_) => false,
        }
    }

    /// How many yields of the seat are open.
    pub fn open_yields(&self, seat: u32) -> usize
        requires { seat < length self.now.rows }
        ensures { result ≡ length (row_of self.now seat).yields }
    {
        self.raw_state().at(seat as usize).yields.len()
    }

    // Whether the last yield was of a seat without shares.
    fn yielded_nothing(&self, seat: u32) -> bool
        requires seat { seat < length self.now.rows }
        requires yielded { 0 < length (row_of self.now seat).yields }
        ensures { IsTrue result ↔ (is_nothing (last_saved (row_of self.now seat)) ≡ true) }
    {
        let yields = &self.raw_state().at(seat as usize).yields;
        let last = yields.at(yields.len() - 1);
        last.shares == 0 && last.wait.is_none()
    }

    /// Whether `start_sharing` may be called.
    pub fn can_share(&self, seat: u32) -> bool
        ensures { IsTrue result ↔ ((seat < length self.now.rows)
            × ((row_of self.now seat).phase ≡ Phase.Calm)
            × ((row_of self.now seat).shares < 1000)) }
    {
        self.is_seat(seat) && self.is_calm(seat) && self.holds(seat).shares < 1000
    }

    /// Whether `stop_sharing` may be called.
    pub fn can_unshare(&self, seat: u32) -> bool
        ensures { IsTrue result ↔ ((seat < length self.now.rows) × (0 < (row_of self.now seat).shares)) }
    {
        self.is_seat(seat) && self.holds(seat).shares > 0
    }

    /// Whether `start_exclusive`, with a purpose up to 6 and a list without new shares, may be called.
    pub fn can_start(&self, seat: u32) -> bool
        ensures { IsTrue result ↔ ((seat < length self.now.rows)
            × ((row_of self.now seat).phase ≡ Phase.Calm)
            × (self.now.depth < 1000)
            × (length (row_of self.now seat).yields < 8)) }
    {
        self.is_seat(seat)
            && self.is_calm(seat)
            && self.depth() < 1000
            && self.open_yields(seat) < 8
    }

    /// Whether `stop_exclusive`, with a list without new shares, may be called.
    pub fn can_stop(&self, seat: u32) -> bool
        ensures { IsTrue result ↔ ((seat < length self.now.rows)
            × (owns self.now.exclusive seat ≡ true)
            × (length (row_of self.now seat).yields < 8)) }
    {
        self.is_seat(seat) && self.is_exclusive(seat) && self.open_yields(seat) < 8
    }

    /// Whether `yield_shares` may be called.
    pub fn can_yield(&self, seat: u32) -> bool
        ensures { IsTrue result ↔ ((seat < length self.now.rows)
            × ((row_of self.now seat).phase ≡ Phase.Calm)
            × (owns self.now.exclusive seat ≡ false)
            × (length (row_of self.now seat).yields < 8)) }
    {
        self.is_seat(seat)
            && self.is_calm(seat)
            && !self.is_exclusive(seat)
            && self.open_yields(seat) < 8
    }

    /// Whether `retake` may be called.
    pub fn can_retake(&self, seat: u32) -> bool
        ensures { IsTrue result ↔ ((seat < length self.now.rows)
            × ((row_of self.now seat).phase ≡ Phase.Calm)
            × (0 < length (row_of self.now seat).yields)
            × (((row_of self.now seat).shares ≡ 0) ⊎ (is_nothing (last_saved (row_of self.now seat)) ≡ true))) }
    {
        self.is_seat(seat)
            && self.is_calm(seat)
            && self.open_yields(seat) > 0
            && (self.holds(seat).shares == 0 || self.yielded_nothing(seat))
    }

    /// Whether `try_resume` may be called.
    pub fn can_resume(&self, seat: u32) -> bool
        ensures { IsTrue result ↔ ((seat < length self.now.rows)
            × ((row_of self.now seat).phase ≢ Phase.Calm)) }
    {
        self.is_seat(seat) && !self.is_calm(seat)
    }
}
