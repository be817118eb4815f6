//! Where a test holds a worker.

use std::alloc::{AllocError, Global};
use std::sync::Arc;
use std::sync::atomic::{AtomicU64, Ordering};
use std::thread;

/// Where a worker is.
#[derive(Clone, Copy, Debug, PartialEq, Eq)]
pub enum Point {
    /// A request was begun.
    Begun,
    /// A request was answered.
    Answered,
}

/// What a worker goes through at each point. It says nothing.
pub trait Gate {
    fn at(&mut self, point: Point);
}

/// A gate that does nothing.
#[derive(Clone, Copy)]
pub struct OpenGate;

impl OpenGate {
    /// The gate that does nothing.
    pub fn new() -> OpenGate {
        OpenGate
    }
}

impl Gate for OpenGate {
    fn at(&mut self, _point: Point) {}
}

/// The most turns of the loop in which a gate holds its caller.
const MOST_TURNS: u64 = 200_000_000;

/// What the gates of one state share. Each number is 0 or 1.
#[derive(Drop)]
struct HoldState {
    begun: AtomicU64,
    answered: AtomicU64,
    gave_up: AtomicU64,
}

/// A gate that holds the first caller at `Begun` until some caller was at `Answered`, for at most 200,000,000 turns of
/// its loop.
#[derive(Drop)]
pub struct HoldGate {
    state: Arc<HoldState>,
}

impl HoldGate {
    /// A gate of a new state, which no caller has met; an error where memory runs out.
    pub fn new(alloc: Global) -> Result<HoldGate, AllocError> {
        let state = HoldState {
            begun: AtomicU64::new(0),
            answered: AtomicU64::new(0),
            gave_up: AtomicU64::new(0),
        };
        match Arc::new(alloc, state) {
            Ok(state) => Ok(HoldGate { state }),
            Err(_) => Err(AllocError),
        }
    }

    /// Another gate of the same state.
    pub fn share(&self) -> Result<HoldGate, AllocError> {
        Ok(HoldGate {
            state: Arc::try_clone(&self.state)?,
        })
    }

    /// Whether the turns were spent before a caller was at `Answered`.
    pub fn gave_up(&self) -> bool {
        self.state.gave_up.load(Ordering::SeqCst) == 1
    }

    /// Waits until some caller was at `Answered`, or the turns are spent.
    fn hold(&self) {
        for _ in 0..MOST_TURNS {
            if self.state.answered.load(Ordering::SeqCst) == 1 {
                return;
            }
            thread::yield_now();
        }
        self.state.gave_up.store(1, Ordering::SeqCst);
    }
}

impl Gate for HoldGate {
    fn at(&mut self, point: Point) {
        match point {
            Point::Answered => self.state.answered.store(1, Ordering::SeqCst),
            Point::Begun => if self.state.begun.swap(1, Ordering::SeqCst) == 0 {
                self.hold();
            },
        }
    }
}
