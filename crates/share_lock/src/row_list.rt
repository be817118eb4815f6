ghost use Rattle.std.specs.Prelude.{◌≡◌, ◌<◌, ◌+◌, ◌-◌, ◌++◌, ◌∷◌, [], length, slice_get, slice_set, Some, OnOk, OnErr};
ghost use Rattle.std.specs.Prelude.{IfOk};
ghost use Rattle.share_lock.specs.Rows.{another, waits_without, holds_shares, is_open_to, purpose_of, eligible, row_at};
ghost use Rattle.share_lock.specs.Rows.{yielding, restoring, in_phase};
ghost use Rattle.share_lock.specs.declared.seat.Phase.TheVariants.{Calm};

use crate::counts::Counts;
use crate::seat::{Phase, Row, Wait, has_bit, lacks_bit};
use std::alloc::{AllocError, Global};
use std::marker::Model;

/// The rows of all seats.
#[derive(Drop)]
pub struct Rows {
    rows: Vec<Row>,
    counts: Counts,
}

impl Model for Rows {
    ghost use Rattle.std.specs.Prelude.{List};
    ghost use Rattle.share_lock.specs.declared.seat.Row.{Row};
    ghost use Rattle.share_lock.specs.Counted.{IsCountOf};

    ghost Value = { List Row };

    ghost view = { λ r. r.rows.items };

    ghost invariant = { λ r. IsCountOf r.rows.items r.counts };
}

impl Rows {
    /// No rows, which take no memory.
    pub fn new(alloc: Global) -> Rows
        ensures { result ≡ [] }
    {
        Rows {
            rows: Vec::new(alloc),
            counts: Counts::new(),
        }
    }

    /// The number of seats.
    pub fn len(&self) -> usize
        ensures { result ≡ length self.now }
    {
        self.rows.len()
    }

    /// The row of this seat.
    pub fn at(&self, place: usize) -> &Row
        requires { place < length self.now }
        ensures { slice_get self.now place ≡ Some result.now }
    {
        &self.rows[place]
    }

    /// Adds at the end. A refused push drops the row.
    pub fn push(&mut self, item: Row) -> Result<(), AllocError>
        ensures ok { OnOk result (self.new ≡ self.old ++ item ∷ []) }
        ensures err { OnErr result (self.new ≡ self.old) }
    {
        self.rows.reserve(1)?;
        self.counts.count_in(&item);
        self.rows.push_reserved(item);
        Ok(())
    }

    /// The same rows and counts, copied; an error where memory runs out.
    pub fn copy(&self) -> Result<Rows, AllocError>
        ensures { IfOk result (λ rows. rows ≡ self.now) }
    {
        let mut all = Rows::new(*self.rows.allocator());
        'rows: for row in &self.rows {
            all.push(row.copy())?;
        }
        Ok(all)
    }

    // Whether another seat has shares.
    pub(crate) fn another_shares(&self, seat: usize) -> bool
        requires { seat < length self.now }
        ensures { result ≡ another holds_shares self.now seat }
    {
        self.counts.sharing > usize::from(self.rows[seat].shares > 0)
    }

    // Whether another seat waits with a list that lacks the bit.
    pub(crate) fn another_lacks(&self, seat: usize, bit: u8) -> bool
        requires seat { seat < length self.now }
        requires bit { bit < 8 }
        ensures { result ≡ another (waits_without bit) self.now seat }
    {
        let own = lacks_bit(self.rows[seat].wait, bit);
        self.counts.lacking[bit as usize] > usize::from(own)
    }

    // Whether a wait is for a purpose in the list that every other waiting seat's list has.
    fn is_open(&self, list: u8, seat: usize, wait: Option<Wait>) -> bool
        requires { seat < length self.now }
        ensures { result ≡ is_open_to list self.now seat (purpose_of wait) }
    {
        match wait {
            Some(
                Wait {
                    purpose: Some(purpose),
                    ..
                },
            ) => has_bit(list, purpose) && !self.another_lacks(seat, purpose),
            _ => false,
        }
    }

    // Whether some waiting seat goes first. This looks at each row once.
    pub(crate) fn is_eligible(&self, list: u8) -> bool
        ensures { result ≡ eligible list self.now }
    {
        self.rows
            .iter()
            .enumerate()
            .any(|(seat, row)| self.is_open(list, seat, row.wait))
    }

    pub(crate) fn share(&mut self, seat: usize)
        requires seat { seat < length self.old }
        requires few { (row_at self.old seat).shares < 1000 }
        ensures { self.new ≡ slice_set self.old seat (let row = row_at self.old seat in
            record row { shares = row.shares + 1 }) }
    {
        let row = &mut self.rows[seat];
        self.counts.count_out(row);
        row.shares += 1;
        self.counts.count_in(row);
    }

    pub(crate) fn unshare(&mut self, seat: usize)
        requires seat { seat < length self.old }
        requires some { 0 < (row_at self.old seat).shares }
        ensures { self.new ≡ slice_set self.old seat (let row = row_at self.old seat in
            record row { shares = row.shares - 1 }) }
    {
        let row = &mut self.rows[seat];
        self.counts.count_out(row);
        row.shares -= 1;
        self.counts.count_in(row);
    }

    pub(crate) fn yield_to(&mut self, seat: usize, wait: Wait, blocks: bool, phase: Phase)
        requires seat { seat < length self.old }
        requires room { length (row_at self.old seat).yields < 8 }
        ensures { self.new ≡ slice_set self.old seat (in_phase phase (yielding (row_at self.old seat) wait blocks)) }
    {
        let row = &mut self.rows[seat];
        self.counts.count_out(row);
        row.yield_to(wait, blocks);
        row.phase = phase;
        self.counts.count_in(row);
    }

    pub(crate) fn restore(&mut self, seat: usize)
        requires seat { seat < length self.old }
        requires saved { 0 < length (row_at self.old seat).yields }
        ensures { self.new ≡ slice_set self.old seat (in_phase Calm (restoring (row_at self.old seat))) }
    {
        let row = &mut self.rows[seat];
        self.counts.count_out(row);
        row.restore();
        row.phase = Phase::Calm;
        self.counts.count_in(row);
    }
}
