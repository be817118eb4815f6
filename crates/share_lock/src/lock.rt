ghost use Rattle.std.specs.Prelude.{◌≡◌, ◌≢◌, ◌<◌, ◌≤◌, ◌+◌, ◌-◌, ◌⊎◌, ℕ, length, true, false, slice_get, IfOk, Bool};
ghost use Rattle.std.specs.Prelude.{if◌then◌else◌};
ghost use Rattle.share_lock.specs.declared.seat.Row.{Row};
ghost use Rattle.share_lock.specs.Rows.{has_bit, another, another_exclusive, busy_share, busy_exclusive, eligible};
ghost use Rattle.share_lock.specs.Rows.{is_nothing, last_saved};
ghost use Rattle.share_lock.specs.Lock.{IsSound, lock_at_rest, owns, row_of, changed_at, taken_by, released};
ghost use Rattle.share_lock.specs.Lock.{refuses_share, holds_back, with_share, without_share, seeking, releasing};
ghost use Rattle.share_lock.specs.Lock.{yielded, restored};

use crate::answers::{Holds, Resume, Share, Start, Stop};
use crate::row_list::Rows;
use crate::seat::{Phase, Row, Wait};
use std::alloc::{AllocError, Global};
use std::marker::Model;

/// Who shares, who is exclusive, who waits and for what. No call but `new` takes memory.
#[derive(Drop)]
pub struct LockState {
    rows: Rows,
    exclusive: Option<u32>,
    depth: u32,
}

impl Model for LockState {
    ghost use Rattle.share_lock.specs.Lock.{Lock, IsSound};

    ghost Value = { Lock };

    ghost view = { λ s. record { rows = s.rows; exclusive = s.exclusive; depth = s.depth } };

    ghost invariant = { λ s. IsSound (record { rows = s.rows; exclusive = s.exclusive; depth = s.depth }) };
}

impl LockState {
    /// Seats that do nothing.
    pub fn new(alloc: Global, seats: u32) -> Result<LockState, AllocError>
        requires { (0 < seats) × (seats ≤ 64) }
        ensures { IfOk result (λ lock. lock ≡ lock_at_rest seats) }
    {
        let mut rows = Rows::new(alloc);
        'seats: for _ in 0..seats {
            rows.push(Row::new())?;
        }
        Ok(LockState {
            rows,
            exclusive: None,
            depth: 0,
        })
    }

    /// Takes one share more.
    pub fn start_sharing(&mut self, seat: u32) -> Share
        requires seat { seat < length self.old.rows }
        requires calm { (row_of self.old seat).phase ≡ Phase.Calm }
        requires few { (row_of self.old seat).shares < 1000 }
        ensures busy { refuses_share self.old.rows self.old.exclusive seat ≡ true
            → (result ≡ Share.Busy) × (self.new ≡ self.old) }
        ensures taken { refuses_share self.old.rows self.old.exclusive seat ≡ false
            → (result ≡ Share.Taken) × (self.new ≡ changed_at self.old seat with_share) }
    {
        if self.refuses_share(seat) {
            return Share::Busy;
        }
        self.rows.share(seat as usize);
        Share::Taken
    }

    /// Gives one share back.
    pub fn stop_sharing(&mut self, seat: u32)
        requires seat { seat < length self.old.rows }
        requires some { 0 < (row_of self.old seat).shares }
        ensures { self.new ≡ changed_at self.old seat without_share }
    {
        self.rows.unshare(seat as usize);
    }

    /// Becomes exclusive, once more if the seat is so already. Where that is busy and it may wait, the seat yields
    /// what it has to seats with a purpose in `list`, and seeks.
    pub fn start_exclusive(&mut self, seat: u32, purpose: u8, list: u8, no_wait: bool) -> Start
        requires seat { seat < length self.old.rows }
        requires calm { (row_of self.old seat).phase ≡ Phase.Calm }
        requires purpose { purpose ≤ 6 }
        requires list { has_bit list 7 ≡ false }
        requires depth { self.old.depth < 1000 }
        requires room { length (row_of self.old seat).yields < 8 }
        ensures again { owns self.old.exclusive seat ≡ true
            → (result ≡ Start.Taken) × (self.new ≡ record self.old { depth = self.old.depth + 1 }) }
        ensures taken { owns self.old.exclusive seat ≡ false
            → busy_exclusive self.old.rows self.old.exclusive seat purpose ≡ false
            → (result ≡ Start.Taken) × (self.new ≡ taken_by seat self.old) }
        ensures busy { owns self.old.exclusive seat ≡ false
            → busy_exclusive self.old.rows self.old.exclusive seat purpose ≡ true → no_wait ≡ true
            → (result ≡ Start.Busy) × (self.new ≡ self.old) }
        ensures seeking { owns self.old.exclusive seat ≡ false
            → busy_exclusive self.old.rows self.old.exclusive seat purpose ≡ true
            → no_wait ≡ false
            → (result ≡ Start.Seeking)
            × (self.new ≡ changed_at self.old seat (seeking purpose list)) }
    {
        if self.is_exclusive(seat) {
            self.depth += 1;
            return Start::Taken;
        }
        if !self.is_busy_for_exclusive(seat, purpose) {
            self.exclusive = Some(seat);
            self.depth = 1;
            return Start::Taken;
        }
        if no_wait {
            return Start::Busy;
        }
        let wait = Wait {
            purpose: Some(purpose),
            list,
        };
        self.rows
            .yield_to(seat as usize, wait, true, Phase::Seeking(purpose));
        Start::Seeking
    }

    /// Ends being exclusive once. Where no seat is exclusive then and some waiting seat can go first, the seat yields
    /// what it has to seats with a purpose in `list`, and waits.
    pub fn stop_exclusive(&mut self, seat: u32, list: u8) -> Stop
        requires seat { seat < length self.old.rows }
        requires exclusive { owns self.old.exclusive seat ≡ true }
        requires list { has_bit list 7 ≡ false }
        requires room { length (row_of self.old seat).yields < 8 }
        ensures deeper { 1 < self.old.depth
            → (result ≡ Stop.Deeper) × (self.new ≡ record self.old { depth = self.old.depth - 1 }) }
        ensures waiting { self.old.depth ≤ 1 → eligible list self.old.rows ≡ true
            → (result ≡ Stop.Waiting)
            × (self.new ≡ released (changed_at self.old seat (releasing list))) }
        ensures free { self.old.depth ≤ 1 → eligible list self.old.rows ≡ false
            → (result ≡ Stop.Free) × (self.new ≡ released self.old) }
    {
        if self.depth > 1 {
            self.depth -= 1;
            return Stop::Deeper;
        }
        self.exclusive = None;
        self.depth = 0;
        if !self.rows.is_eligible(list) {
            return Stop::Free;
        }
        let wait = Wait {
            purpose: None,
            list,
        };
        self.rows
            .yield_to(seat as usize, wait, true, Phase::Releasing(list));
        Stop::Waiting
    }

    /// Puts the seat's shares and its wait aside, and waits without a purpose. New shares are admitted.
    pub fn yield_shares(&mut self, seat: u32, list: u8)
        requires seat { seat < length self.old.rows }
        requires calm { (row_of self.old seat).phase ≡ Phase.Calm }
        requires not_exclusive { owns self.old.exclusive seat ≡ false }
        requires room { length (row_of self.old seat).yields < 8 }
        ensures { self.new ≡ changed_at self.old seat (yielded list) }
    {
        let wait = Wait {
            purpose: None,
            list,
        };
        self.rows.yield_to(seat as usize, wait, false, Phase::Calm);
    }

    /// Takes back what the last `yield_shares` put aside.
    pub fn retake(&mut self, seat: u32) -> Resume
        requires seat { seat < length self.old.rows }
        requires calm { (row_of self.old seat).phase ≡ Phase.Calm }
        requires yielded { 0 < length (row_of self.old seat).yields }
        requires apart { ((row_of self.old seat).shares ≡ 0) ⊎ (is_nothing (last_saved (row_of self.old seat)) ≡ true) }
        ensures still { another_exclusive self.old.exclusive seat ≡ true
            → (result ≡ Resume.Still) × (self.new ≡ self.old) }
        ensures resumed { another_exclusive self.old.exclusive seat ≡ false
            → (result ≡ Resume.Resumed) × (self.new ≡ changed_at self.old seat restored) }
    {
        if self.is_another_exclusive(seat) {
            return Resume::Still;
        }
        self.rows.restore(seat as usize);
        Resume::Resumed
    }

    /// Tries to end the wait of a seat that seeks or releases.
    pub fn try_resume(&mut self, seat: u32) -> Resume
        requires seat { seat < length self.old.rows }
        requires pending { (row_of self.old seat).phase ≢ Phase.Calm }
        ensures seeking_still { (purpose : ℕ) → (row_of self.old seat).phase ≡ Phase.Seeking purpose
            → busy_exclusive self.old.rows self.old.exclusive seat purpose ≡ true
            → (result ≡ Resume.Still) × (self.new ≡ self.old) }
        ensures seeking_resumed { (purpose : ℕ) → (row_of self.old seat).phase ≡ Phase.Seeking purpose
            → busy_exclusive self.old.rows self.old.exclusive seat purpose ≡ false
            → (result ≡ Resume.Resumed)
            × (self.new ≡ taken_by seat (changed_at self.old seat restored)) }
        ensures releasing_still { (list : ℕ) → (row_of self.old seat).phase ≡ Phase.Releasing list
            → holds_back self.old.rows self.old.exclusive list ≡ true
            → (result ≡ Resume.Still) × (self.new ≡ self.old) }
        ensures releasing_resumed { (list : ℕ) → (row_of self.old seat).phase ≡ Phase.Releasing list
            → holds_back self.old.rows self.old.exclusive list ≡ false
            → (result ≡ Resume.Resumed) × (self.new ≡ changed_at self.old seat restored) }
    {
        match self.rows.at(seat as usize).phase {
            Phase::Calm => unreachable!(),
            Phase::Seeking(purpose) => self.resume_seeking(seat, purpose),
            Phase::Releasing(list) => self.resume_releasing(seat, list),
        }
    }

    /// What the seat has.
    pub fn holds(&self, seat: u32) -> Holds
        requires { seat < length self.now.rows }
        ensures shares { result.shares ≡ (row_of self.now seat).shares }
        ensures depth { result.depth ≡ (if owns self.now.exclusive seat then self.now.depth else 0) }
        ensures phase { result.phase ≡ (row_of self.now seat).phase }
    {
        let row = self.rows.at(seat as usize);
        Holds {
            shares: row.shares,
            depth: if self.is_exclusive(seat) {
                self.depth
            } else {
                0
            },
            phase: row.phase,
        }
    }

    /// The rows of all seats.
    pub fn raw_state(&self) -> &Rows
        ensures { result.now ≡ self.now.rows }
    {
        &self.rows
    }
}

/// Readings. They change nothing, and all but `is_eligible` take the same time however many seats there are.
impl LockState {
    /// The seat that is exclusive, if any.
    pub fn exclusive(&self) -> Option<u32>
        ensures { result ≡ self.now.exclusive }
    {
        self.exclusive
    }

    /// How many times over the exclusive seat is exclusive, and 0 where none is.
    pub fn depth(&self) -> u32
        ensures { result ≡ self.now.depth }
    {
        self.depth
    }

    /// Whether the seat is exclusive.
    pub fn is_exclusive(&self, seat: u32) -> bool
        ensures { result ≡ owns self.now.exclusive seat }
    {
        match self.exclusive {
            None => false,
            Some(owner) => owner == seat,
        }
    }

    /// Whether another seat is exclusive.
    pub fn is_another_exclusive(&self, seat: u32) -> bool
        ensures { result ≡ another_exclusive self.now.exclusive seat }
    {
        match self.exclusive {
            None => false,
            Some(owner) => owner != seat,
        }
    }

    /// Whether the seat has to wait for a share that this bit stands for: a new share is bit 7.
    pub fn is_busy_for_share(&self, seat: u32, bit: u8) -> bool
        requires seat { seat < length self.now.rows }
        requires bit { bit < 8 }
        ensures { result ≡ busy_share self.now.rows self.now.exclusive seat bit }
    {
        self.is_another_exclusive(seat) || self.rows.another_lacks(seat as usize, bit)
    }

    /// Whether the seat has to wait until it is exclusive for this purpose.
    pub fn is_busy_for_exclusive(&self, seat: u32, purpose: u8) -> bool
        requires seat { seat < length self.now.rows }
        requires purpose { purpose ≤ 6 }
        ensures { result ≡ busy_exclusive self.now.rows self.now.exclusive seat purpose }
    {
        self.is_busy_for_share(seat, purpose) || self.rows.another_shares(seat as usize)
    }

    /// Whether some waiting seat with a purpose in the list goes first. This looks at each row once.
    pub fn is_eligible(&self, list: u8) -> bool
        ensures { result ≡ eligible list self.now.rows }
    {
        self.rows.is_eligible(list)
    }
}

impl LockState {
    fn refuses_share(&self, seat: u32) -> bool
        requires { seat < length self.now.rows }
        ensures { result ≡ refuses_share self.now.rows self.now.exclusive seat }
    {
        let row = self.rows.at(seat as usize);
        if row.shares > 0 || self.is_exclusive(seat) {
            false
        } else if row.wait.is_some() {
            self.is_another_exclusive(seat)
        } else {
            self.is_busy_for_share(seat, 7)
        }
    }

    fn resume_seeking(&mut self, seat: u32, purpose: u8) -> Resume
        requires seat { seat < length self.old.rows }
        requires seeking { (row_of self.old seat).phase ≡ Phase.Seeking purpose }
        ensures still { busy_exclusive self.old.rows self.old.exclusive seat purpose ≡ true
            → (result ≡ Resume.Still) × (self.new ≡ self.old) }
        ensures resumed { busy_exclusive self.old.rows self.old.exclusive seat purpose ≡ false
            → (result ≡ Resume.Resumed)
            × (self.new ≡ taken_by seat (changed_at self.old seat restored)) }
    {
        if self.is_busy_for_exclusive(seat, purpose) {
            return Resume::Still;
        }
        self.rows.restore(seat as usize);
        self.exclusive = Some(seat);
        self.depth = 1;
        Resume::Resumed
    }

    fn resume_releasing(&mut self, seat: u32, list: u8) -> Resume
        requires seat { seat < length self.old.rows }
        requires releasing { (row_of self.old seat).phase ≡ Phase.Releasing list }
        ensures still { holds_back self.old.rows self.old.exclusive list ≡ true
            → (result ≡ Resume.Still) × (self.new ≡ self.old) }
        ensures resumed { holds_back self.old.rows self.old.exclusive list ≡ false
            → (result ≡ Resume.Resumed) × (self.new ≡ changed_at self.old seat restored) }
    {
        if self.exclusive.is_some() || self.rows.is_eligible(list) {
            return Resume::Still;
        }
        self.rows.restore(seat as usize);
        Resume::Resumed
    }
}

/// Every lock that calls can reach keeps this: beside an exclusive seat no other seat has a share.
pub fn exclusive_is_alone(lock: &LockState)
    ensures alone { (owner seat : ℕ) (row : Row) → lock.now.exclusive ≡ Some owner → seat ≢ owner
        → slice_get lock.now.rows seat ≡ Some row → row.shares ≡ 0 }
    ensures sound { IsSound lock.now }
{
    let _ = &lock.depth;
}

/// Another seat is one of a different number: some row but the seat's own passes a test exactly where `another` says
/// so.
pub fn another_is_some_other_seat(lock: &LockState)
    ensures found { (test : Row → Bool) (owner seat : ℕ) (row : Row) → seat ≢ owner
        → slice_get lock.now.rows seat ≡ Some row → test row ≡ true → another test lock.now.rows owner ≡ true }
    ensures none { (test : Row → Bool) (owner : ℕ) → another test lock.now.rows owner ≡ false
        → (seat : ℕ) (row : Row) → seat ≢ owner → slice_get lock.now.rows seat ≡ Some row → test row ≡ false }
{
    let _ = lock;
}
