//! What the lock keeps of one seat.
ghost use Rattle.std.specs.Prelude.{◌≡◌, ◌<◌, length, true};
ghost use Rattle.share_lock.specs.Rows.{has_bit, lacks_bit, wait_inside, wait_admitting, yielding, restoring};
ghost use Rattle.share_lock.specs.Rows.{common_purpose};

use crate::saved_list::SavedList;

/// A seat that waits: what for, and what it admits meanwhile. Bit p of `list` admits the purpose p, bit 7 new shares.
#[derive(Clone, Copy, Debug, PartialEq, Eq)]
pub struct Wait {
    pub purpose: Option<u8>,
    pub list: u8,
}

/// What a yield put aside. One of no share and no wait is that of a seat without shares, and gives nothing back.
#[derive(Clone, Copy, Debug, PartialEq, Eq)]
pub struct Saved {
    pub shares: u32,
    pub wait: Option<Wait>,
}

/// What a seat is in the midst of.
#[derive(Clone, Copy, Debug, PartialEq, Eq)]
pub enum Phase {
    Calm,
    /// It waits to be exclusive for this purpose.
    Seeking(u8),
    /// It was exclusive, and lets seats with a purpose in this list go first.
    Releasing(u8),
}

/// One seat. `yields` has at most eight.
#[derive(Drop)]
pub struct Row {
    pub shares: u32,
    pub wait: Option<Wait>,
    pub yields: SavedList,
    pub phase: Phase,
}

// Whether a list has a bit.
pub(crate) fn has_bit(list: u8, bit: u8) -> bool
    ensures has { result ≡ has_bit list bit }
    ensures small { result ≡ true → bit < 8 }
{
    bit < 8 && (list >> bit) & 1 == 1
}

// Whether a seat with this wait waits with a list that lacks the bit.
pub(crate) fn lacks_bit(wait: Option<Wait>, bit: u8) -> bool
    ensures { result ≡ lacks_bit wait bit }
{
    match wait {
        None => false,
        Some(wait) => !has_bit(wait.list, bit),
    }
}

fn common_purpose(outer: Option<u8>, purpose: Option<u8>) -> Option<u8>
    ensures { result ≡ common_purpose outer purpose }
{
    match (outer, purpose) {
        (Some(p), Some(q)) if p == q => Some(q),
        _ => None,
    }
}

fn wait_inside(outer: Option<Wait>, wait: Wait) -> Wait
    ensures { result ≡ wait_inside outer wait }
{
    match outer {
        None => wait,
        Some(outer) => Wait {
            purpose: common_purpose(outer.purpose, wait.purpose),
            list: wait.list & outer.list,
        },
    }
}

fn wait_admitting(blocks: bool, wait: Wait) -> Wait
    ensures { result ≡ wait_admitting blocks wait }
{
    if blocks {
        wait
    } else {
        Wait {
            list: wait.list | 0x80,
            ..wait
        }
    }
}

impl Row {
    ghost use Rattle.share_lock.specs.Rows.{resting_row};

    /// The row of a seat that does nothing.
    pub fn new() -> Row
        ensures { result ≡ resting_row }
    {
        Row {
            shares: 0,
            wait: None,
            yields: SavedList::new(),
            phase: Phase::Calm,
        }
    }

    /// The same row. It takes no memory.
    pub fn copy(&self) -> Row
        ensures { result ≡ self.now }
    {
        Row {
            shares: self.shares,
            wait: self.wait,
            yields: self.yields.duplicate(),
            phase: self.phase,
        }
    }

    // Puts the shares and the wait aside, and waits.
    pub(crate) fn yield_to(&mut self, wait: Wait, blocks: bool)
        requires { length self.old.yields < 8 }
        ensures { self.new ≡ yielding self.old wait blocks }
    {
        if self.shares == 0 {
            self.yields.push(Saved {
                shares: 0,
                wait: None,
            });
            return;
        }
        self.yields.push(Saved {
            shares: self.shares,
            wait: self.wait,
        });
        self.shares = 0;
        self.wait = Some(wait_admitting(blocks, wait_inside(self.wait, wait)));
    }

    // Takes back what was put aside last.
    pub(crate) fn restore(&mut self)
        requires { 0 < length self.old.yields }
        ensures { self.new ≡ restoring self.old }
    {
        let saved = self.yields.pop();
        if saved.shares > 0 || saved.wait.is_some() {
            self.shares = saved.shares;
            self.wait = saved.wait;
        }
    }
}
