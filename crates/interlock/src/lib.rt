//! The load interlock: which of running, loading and unloading may stand side by side.
//!
//! It fixes the purposes and lists of a `share_lock`, as ActiveSupport's Interlock does. In the clauses below,
//! purpose 0 is
//! a load and purpose 1 an unload; list 1 is {0}, which admits loads, and list 3 is {0, 1}, which admits both.
//!
//! | Call | Is the lock's |
//! |---|---|
//! | `start_running`, `done_running` | `start_sharing`, `stop_sharing` |
//! | `start_loading`, `done_loading` | `start_exclusive` for 0 with {0}, `stop_exclusive` with {0} |
//! | `start_unloading`, `done_unloading` | `start_exclusive` for 1 with {0, 1}, `stop_exclusive` with {0, 1} |
//! | `permit_begin`, `permit_end` | `yield_shares` with {0}, `retake` |
#![tactic(auto)]

ghost use Rattle.std.specs.Prelude.{◌≡◌, ◌<◌, ◌≤◌, ◌+◌, ◌-◌, ◌⊎◌, length, true, false};
ghost use Rattle.share_lock.specs.Rows.{another_exclusive, busy_exclusive, eligible, is_nothing, last_saved};
ghost use Rattle.share_lock.specs.Lock.{Lock, row_of, owns, changed_at, taken_by, released, refuses_share, with_share};
ghost use Rattle.share_lock.specs.Lock.{without_share, seeking, releasing, yielded, restored};

use share_lock::{LockState, Phase, Resume, Share, Start, Stop};

/// The purpose of a load.
pub const LOAD: u8 = 0;

/// The purpose of an unload.
pub const UNLOAD: u8 = 1;

/// The list that admits loads: bit 0.
pub const LOADS: u8 = 0b01;

/// The list that admits loads and unloads: bits 0 and 1.
pub const LOADS_AND_UNLOADS: u8 = 0b11;

/// Running code shares; loading and unloading are exclusive. Where a load waits it admits other loads, where an unload
/// waits it admits both.
pub trait Interlock {
    ghost lock: { Self → Lock };

    /// One run more.
    fn start_running(&mut self, seat: u32) -> Share
        requires seat { seat < length (lock self.old).rows }
        requires calm { (row_of (lock self.old) seat).phase ≡ Phase.Calm }
        requires few { (row_of (lock self.old) seat).shares < 1000 }
        ensures busy { refuses_share (lock self.old).rows (lock self.old).exclusive seat ≡ true
            → (result ≡ Share.Busy) × (lock self.new ≡ lock self.old) }
        ensures taken { refuses_share (lock self.old).rows (lock self.old).exclusive seat ≡ false
            → (result ≡ Share.Taken) × (lock self.new ≡ changed_at (lock self.old) seat with_share) };

    /// One run less.
    fn done_running(&mut self, seat: u32)
        requires seat { seat < length (lock self.old).rows }
        requires some { 0 < (row_of (lock self.old) seat).shares }
        ensures { lock self.new ≡ changed_at (lock self.old) seat without_share };

    /// Loads alone, or seeks to, admitting other loads.
    fn start_loading(&mut self, seat: u32) -> Start
        requires seat { seat < length (lock self.old).rows }
        requires calm { (row_of (lock self.old) seat).phase ≡ Phase.Calm }
        requires depth { (lock self.old).depth < 1000 }
        requires room { length (row_of (lock self.old) seat).yields < 8 }
        ensures again { owns (lock self.old).exclusive seat ≡ true
            → (result ≡ Start.Taken) × (lock self.new ≡ record (lock self.old) { depth = (lock self.old).depth + 1 }) }
        ensures taken { owns (lock self.old).exclusive seat ≡ false
            → busy_exclusive (lock self.old).rows (lock self.old).exclusive seat 0 ≡ false
            → (result ≡ Start.Taken) × (lock self.new ≡ taken_by seat (lock self.old)) }
        ensures seeking { owns (lock self.old).exclusive seat ≡ false
            → busy_exclusive (lock self.old).rows (lock self.old).exclusive seat 0 ≡ true
            → (result ≡ Start.Seeking) × (lock self.new ≡ changed_at (lock self.old) seat (seeking 0 1)) };

    /// Ends a load. Where other loads can go first, it waits for them.
    fn done_loading(&mut self, seat: u32) -> Stop
        requires seat { seat < length (lock self.old).rows }
        requires exclusive { owns (lock self.old).exclusive seat ≡ true }
        requires room { length (row_of (lock self.old) seat).yields < 8 }
        ensures deeper { 1 < (lock self.old).depth
            → (result ≡ Stop.Deeper) × (lock self.new ≡ record (lock self.old) { depth = (lock self.old).depth - 1 }) }
        ensures waiting { (lock self.old).depth ≤ 1 → eligible 1 (lock self.old).rows ≡ true
            → (result ≡ Stop.Waiting) × (lock self.new ≡ released (changed_at (lock self.old) seat (releasing 1))) }
        ensures free { (lock self.old).depth ≤ 1 → eligible 1 (lock self.old).rows ≡ false
            → (result ≡ Stop.Free) × (lock self.new ≡ released (lock self.old)) };

    /// Unloads alone, or seeks to, admitting loads and other unloads.
    fn start_unloading(&mut self, seat: u32) -> Start
        requires seat { seat < length (lock self.old).rows }
        requires calm { (row_of (lock self.old) seat).phase ≡ Phase.Calm }
        requires depth { (lock self.old).depth < 1000 }
        requires room { length (row_of (lock self.old) seat).yields < 8 }
        ensures again { owns (lock self.old).exclusive seat ≡ true
            → (result ≡ Start.Taken) × (lock self.new ≡ record (lock self.old) { depth = (lock self.old).depth + 1 }) }
        ensures taken { owns (lock self.old).exclusive seat ≡ false
            → busy_exclusive (lock self.old).rows (lock self.old).exclusive seat 1 ≡ false
            → (result ≡ Start.Taken) × (lock self.new ≡ taken_by seat (lock self.old)) }
        ensures seeking { owns (lock self.old).exclusive seat ≡ false
            → busy_exclusive (lock self.old).rows (lock self.old).exclusive seat 1 ≡ true
            → (result ≡ Start.Seeking)
            × (lock self.new ≡ changed_at (lock self.old) seat (seeking 1 3)) };

    /// Ends an unload. Where loads or other unloads can go first, it waits for them.
    fn done_unloading(&mut self, seat: u32) -> Stop
        requires seat { seat < length (lock self.old).rows }
        requires exclusive { owns (lock self.old).exclusive seat ≡ true }
        requires room { length (row_of (lock self.old) seat).yields < 8 }
        ensures deeper { 1 < (lock self.old).depth
            → (result ≡ Stop.Deeper) × (lock self.new ≡ record (lock self.old) { depth = (lock self.old).depth - 1 }) }
        ensures waiting { (lock self.old).depth ≤ 1 → eligible 3 (lock self.old).rows ≡ true
            → (result ≡ Stop.Waiting)
            × (lock self.new ≡ released (changed_at (lock self.old) seat (releasing 3))) }
        ensures free { (lock self.old).depth ≤ 1 → eligible 3 (lock self.old).rows ≡ false
            → (result ≡ Stop.Free) × (lock self.new ≡ released (lock self.old)) };

    /// Yields its runs to loads.
    fn permit_begin(&mut self, seat: u32)
        requires seat { seat < length (lock self.old).rows }
        requires calm { (row_of (lock self.old) seat).phase ≡ Phase.Calm }
        requires not_exclusive { owns (lock self.old).exclusive seat ≡ false }
        requires room { length (row_of (lock self.old) seat).yields < 8 }
        ensures { lock self.new ≡ changed_at (lock self.old) seat (yielded 1) };

    /// Takes its runs back.
    fn permit_end(&mut self, seat: u32) -> Resume
        requires seat { seat < length (lock self.old).rows }
        requires calm { (row_of (lock self.old) seat).phase ≡ Phase.Calm }
        requires yielded { 0 < length (row_of (lock self.old) seat).yields }
        requires apart { ((row_of (lock self.old) seat).shares ≡ 0)
            ⊎ (is_nothing (last_saved (row_of (lock self.old) seat)) ≡ true) }
        ensures still { another_exclusive (lock self.old).exclusive seat ≡ true
            → (result ≡ Resume.Still) × (lock self.new ≡ lock self.old) }
        ensures resumed { another_exclusive (lock self.old).exclusive seat ≡ false
            → (result ≡ Resume.Resumed) × (lock self.new ≡ changed_at (lock self.old) seat restored) };
}

impl Interlock for LockState {
    ghost lock = { λ s. s };

    fn start_running(&mut self, seat: u32) -> Share {
        self.start_sharing(seat)
    }

    fn done_running(&mut self, seat: u32) {
        self.stop_sharing(seat);
    }

    fn start_loading(&mut self, seat: u32) -> Start {
        self.start_exclusive(seat, LOAD, LOADS, false)
    }

    fn done_loading(&mut self, seat: u32) -> Stop {
        self.stop_exclusive(seat, LOADS)
    }

    fn start_unloading(&mut self, seat: u32) -> Start {
        self.start_exclusive(seat, UNLOAD, LOADS_AND_UNLOADS, false)
    }

    fn done_unloading(&mut self, seat: u32) -> Stop {
        self.stop_exclusive(seat, LOADS_AND_UNLOADS)
    }

    fn permit_begin(&mut self, seat: u32) {
        self.yield_shares(seat, LOADS);
    }

    fn permit_end(&mut self, seat: u32) -> Resume {
        self.retake(seat)
    }
}
