//! Waiting for another turn, where the last one answered that something is busy.

use std::sync::Wait;
use std::sync::atomic::{AtomicU64, Ordering};

/// Rung after each turn that may let others go on. Who waits for it sleeps.
#[derive(Drop)]
pub struct Bell {
    rings: AtomicU64,
    // How many wait.
    sleepers: AtomicU64,
}

impl Bell {
    /// Not rung, and nobody waits.
    pub fn new() -> Bell {
        Bell {
            rings: AtomicU64::new(0),
            sleepers: AtomicU64::new(0),
        }
    }

    /// How often it was rung. To be asked before the turn that may answer that something is busy.
    pub fn rings(&self) -> u64 {
        self.rings.load(Ordering::SeqCst)
    }

    /// Wakes all who wait.
    pub fn ring(&self) {
        self.rings.fetch_add(1, Ordering::SeqCst);
        // Who counts itself among the sleepers after this look finds the new number, and doesn't sleep.
        if self.sleepers.load(Ordering::SeqCst) != 0 {
            self.rings.wake_all();
        }
    }

    /// Sleeps until it was rung more often than that. It may wake for no reason.
    pub fn wait<R: Wait>(&self, rt: &R, heard: u64) {
        self.sleepers.fetch_add(1, Ordering::SeqCst);
        self.rings.park(rt, (heard % (1 << 32)) as u32);
        self.sleepers.fetch_sub(1, Ordering::SeqCst);
    }
}
