//! How many rows hold shares, and how many wait without each bit, so that a call needs no look at every row.
ghost use Rattle.std.specs.Prelude.{◌≡◌, ◌+◌, ◌<◌, ◌≤◌, ◌^◌, ℕ, slice_index, cond, not};
ghost use Rattle.share_lock.specs.Rows.{holds_shares, waits_without, has_bit};
ghost use Rattle.share_lock.specs.Counted.{count_one};

use crate::seat::{Row, has_bit};

/// `sharing` is the number of rows that hold shares, `lacking[p]` that of rows that wait without the bit p.
#[derive(Drop)]
pub struct Counts {
    pub sharing: usize,
    pub lacking: [usize; 8],
}

impl Counts {
    pub(crate) fn new() -> Counts
        ensures sharing { result.sharing ≡ 0 }
        ensures lacking { (bit : ℕ) → bit < 8 → slice_index result.lacking bit ≡ 0 }
    {
        Counts {
            sharing: 0,
            lacking: [0; 8],
        }
    }

    // Counts a row in.
    pub(crate) fn count_in(&mut self, row: &Row)
        requires sharing { self.old.sharing < 2 ^ 60 }
        requires lacking { (bit : ℕ) → bit < 8 → slice_index self.old.lacking bit < 2 ^ 60 }
        ensures sharing { self.new.sharing ≡ self.old.sharing + count_one holds_shares row.now }
        ensures lacking { (bit : ℕ) → bit < 8
            → slice_index self.new.lacking bit ≡ slice_index self.old.lacking bit + count_one
            (waits_without bit) row.now }
    {
        if row.shares > 0 {
            self.sharing += 1;
        }
        if let Some(wait) = row.wait {
            add_lacking(&mut self.lacking, wait.list);
        }
    }

    // Takes a row out of the counts.
    pub(crate) fn count_out(&mut self, row: &Row)
        requires sharing { count_one holds_shares row.now ≤ self.old.sharing }
        requires lacking { (bit : ℕ) → bit < 8
            → count_one (waits_without bit) row.now ≤ slice_index self.old.lacking bit }
        ensures sharing { self.new.sharing + count_one holds_shares row.now ≡ self.old.sharing }
        ensures lacking { (bit : ℕ) → bit < 8
            → slice_index self.new.lacking bit + count_one (waits_without bit) row.now
            ≡ slice_index self.old.lacking bit }
    {
        if row.shares > 0 {
            self.sharing -= 1;
        }
        if let Some(wait) = row.wait {
            take_lacking(&mut self.lacking, wait.list);
        }
    }
}

fn add_lacking(lacking: &mut [usize; 8], list: u8)
    requires { (bit : ℕ) → bit < 8 → slice_index lacking.old bit < 2 ^ 60 }
    ensures { (bit : ℕ) → bit < 8
        → slice_index lacking.new bit ≡ slice_index lacking.old bit + cond (not (has_bit list bit)) 1 0 }
{
    'bits: for bit in 0..8u8 {
        if !has_bit(list, bit) {
            lacking[bit as usize] += 1;
        }
    }
}

fn take_lacking(lacking: &mut [usize; 8], list: u8)
    requires { (bit : ℕ) → bit < 8 → cond (not (has_bit list bit)) 1 0 ≤ slice_index lacking.old bit }
    ensures { (bit : ℕ) → bit < 8
        → slice_index lacking.new bit + cond (not (has_bit list bit)) 1 0 ≡ slice_index lacking.old bit }
{
    'bits: for bit in 0..8u8 {
        if !has_bit(list, bit) {
            lacking[bit as usize] -= 1;
        }
    }
}
