//! The rows of all seats beside their lock.
ghost use Rattle.std.specs.Prelude.{◌≡◌, ◌<◌, ◌≤◌, length, IfOk};
ghost use Rattle.share_lock.specs.Rows.{holds_shares};
ghost use Rattle.system_seats.specs.Seats.{seats_at_rest, row, mark, runs_at, is_owner, is_calm, is_releasing};
ghost use Rattle.system_seats.specs.Seats.{has_yield};
ghost use Rattle.system_seats.specs.Shapes.{IsTidy};
ghost use Rattle.system_seats.specs.Copies.{mark_part};

use crate::guard::Marks;
use share_lock::{LockState, Phase, Row};
use std::alloc::{AllocError, Global};
use std::marker::Model;

/// One seat. It is exclusive exactly where its phase is Calm and it has a section.
#[derive(Drop)]
pub struct SystemRow {
    pub lock: Row,
    /// The place of the Begin of the request that it runs.
    pub running: Option<u64>,
    /// The place of the entry that opened its section: its Seek, or without one its Take.
    pub section: Option<u64>,
}

/// All seats.
#[derive(Drop)]
pub struct SeatTable {
    pub(crate) lock: LockState,
    // Each with a copy of the lock's row, so that a whole row can be lent.
    pub(crate) rows: Vec<SystemRow>,
}

impl Model for SeatTable {
    ghost use Rattle.std.specs.Prelude.{◌≡◌, map};
    ghost use Rattle.system_seats.specs.Seats.{Seats};
    ghost use Rattle.system_seats.specs.Shapes.{IsTidy};
    ghost use Rattle.system_seats.specs.Copies.{seats_of, lock_part};

    ghost Value = { Seats };

    ghost view = { λ s. seats_of s.lock s.rows.items };

    ghost invariant = { λ s. (map lock_part s.rows.items ≡ s.lock.rows) × IsTidy (seats_of s.lock s.rows.items) };
}

impl SeatTable {
    /// Seats that do nothing.
    pub fn new(alloc: Global, seats: u32) -> Result<SeatTable, AllocError>
        requires { (0 < seats) × (seats ≤ 64) }
        ensures { IfOk result (λ table. table ≡ seats_at_rest seats) }
    {
        let lock = LockState::new(alloc, seats)?;
        let mut rows = Vec::new(alloc);
        'seats: for _ in 0..seats {
            rows.push(SystemRow {
                lock: Row::new(),
                running: None,
                section: None,
            })?;
        }
        Ok(SeatTable { lock, rows })
    }

    /// How many seats there are.
    pub fn seat_count(&self) -> usize
        ensures { result ≡ length self.now.lock.rows }
    {
        self.lock.raw_state().len()
    }

    /// The seat's row.
    pub fn row(&self, seat: u32) -> &SystemRow
        requires { seat < length self.now.lock.rows }
        ensures lock { result.now.lock ≡ row self.now seat }
        ensures marks { mark_part result.now ≡ mark self.now seat }
    {
        &self.rows[seat as usize]
    }

    /// What all seats keep through every event: ten shapes, and at most one seat that is exclusive.
    pub fn tells_tidy(&self)
        ensures { IsTidy self.now }
    {
        let _ = &self.lock;
    }
}

/// What a seat has.
impl SeatTable {
    /// Whether the seat neither seeks nor waits after a release.
    pub fn is_calm(&self, seat: u32) -> bool
        requires { seat < length self.now.lock.rows }
        ensures { result ≡ is_calm (row self.now seat).phase }
    {
        match self.lock.raw_state().at(seat as usize).phase {
            Phase::Calm => true,
            Phase::Seeking(_) => false,
            Phase::Releasing(_) => false,
        }
    }

    /// Whether the seat waits after a release.
    pub fn is_releasing(&self, seat: u32) -> bool
        requires { seat < length self.now.lock.rows }
        ensures { result ≡ is_releasing (row self.now seat).phase }
    {
        match self.lock.raw_state().at(seat as usize).phase {
            Phase::Calm => false,
            Phase::Seeking(_) => false,
            Phase::Releasing(_) => true,
        }
    }

    /// Whether the seat has a share.
    pub fn has_share(&self, seat: u32) -> bool
        requires { seat < length self.now.lock.rows }
        ensures { result ≡ holds_shares (row self.now seat) }
    {
        self.lock.raw_state().at(seat as usize).shares > 0
    }

    /// Whether the seat has an open yield.
    pub fn has_yield(&self, seat: u32) -> bool
        requires { seat < length self.now.lock.rows }
        ensures { result ≡ has_yield (row self.now seat) }
    {
        self.lock.open_yields(seat) > 0
    }

    /// Whether the seat runs a request.
    pub fn runs(&self, seat: u32) -> bool
        requires { seat < length self.now.lock.rows }
        ensures { result ≡ runs_at self.now seat }
    {
        self.rows[seat as usize].running.is_some()
    }

    /// Whether the seat is exclusive.
    pub fn is_exclusive(&self, seat: u32) -> bool
        ensures { result ≡ is_owner self.now seat }
    {
        self.lock.is_exclusive(seat)
    }

    /// The places of the seat's running Begin and of the entry that opened its section.
    pub fn marks(&self, seat: u32) -> Marks
        requires { seat < length self.now.lock.rows }
        ensures { result ≡ mark self.now seat }
    {
        let row = &self.rows[seat as usize];
        Marks {
            running: row.running,
            section: row.section,
        }
    }
}
