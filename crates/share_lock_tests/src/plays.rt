//! Plays over a lock: calls, each with what it is to answer.
use interlock::Interlock;
use share_lock::{LockState, Resume, Share, Start, Stop};
use std::process::Abort;

/// A call of the lock.
#[derive(Clone, Copy, Debug, PartialEq, Eq)]
pub enum Call {
    StartRunning,
    DoneRunning,
    StartLoading,
    DoneLoading,
    StartUnloading,
    DoneUnloading,
    PermitBegin,
    PermitEnd,
    StartSharing,
    StopSharing,
    /// For purpose 0 with list 1, without waiting.
    StartExclusive,
    /// With list 1.
    StopExclusive,
    /// With this list.
    YieldShares(u8),
    Retake,
    TryResume,
}

/// What a call answers.
#[derive(Clone, Copy, Debug, PartialEq, Eq)]
pub enum Answer {
    /// The call's condition doesn't hold.
    Refused,
    Done,
    Shared(Share),
    Started(Start),
    Stopped(Stop),
    Back(Resume),
}

/// A call of a seat, and what it is to answer.
#[derive(Clone, Copy)]
pub struct Step {
    pub seat: u32,
    pub call: Call,
    pub answer: Answer,
}

/// Makes the calls in their order and asserts what each answers.
pub fn play(rt: &impl Abort, lock: &mut LockState, steps: &[Step]) {
    for step in steps {
        let answer = make(lock, step.seat, step.call);
        assert_eq!(rt; answer, step.answer);
    }
}

fn make(lock: &mut LockState, seat: u32, call: Call) -> Answer {
    match call {
        Call::StartRunning | Call::StartSharing => shared(lock, seat, call == Call::StartRunning),
        Call::DoneRunning | Call::StopSharing => unshared(lock, seat, call == Call::DoneRunning),
        Call::StartLoading => started(lock, seat, true),
        Call::StartUnloading => started(lock, seat, false),
        Call::DoneLoading => stopped(lock, seat, true),
        Call::DoneUnloading => stopped(lock, seat, false),
        Call::StartExclusive => started_at_once(lock, seat),
        Call::StopExclusive => stopped_once(lock, seat),
        Call::PermitBegin => permitted(lock, seat),
        Call::YieldShares(list) => yielded(lock, seat, list),
        Call::PermitEnd | Call::Retake => back(lock, seat, call == Call::PermitEnd),
        Call::TryResume => resumed(lock, seat),
    }
}

fn shared(lock: &mut LockState, seat: u32, runs: bool) -> Answer {
    if !lock.can_share(seat) {
        Answer::Refused
    } else if runs {
        Answer::Shared(lock.start_running(seat))
    } else {
        Answer::Shared(lock.start_sharing(seat))
    }
}

fn unshared(lock: &mut LockState, seat: u32, runs: bool) -> Answer {
    if !lock.can_unshare(seat) {
        return Answer::Refused;
    }
    if runs {
        lock.done_running(seat);
    } else {
        lock.stop_sharing(seat);
    }
    Answer::Done
}

fn started(lock: &mut LockState, seat: u32, loads: bool) -> Answer {
    if !lock.can_start(seat) {
        Answer::Refused
    } else if loads {
        Answer::Started(lock.start_loading(seat))
    } else {
        Answer::Started(lock.start_unloading(seat))
    }
}

fn started_at_once(lock: &mut LockState, seat: u32) -> Answer {
    if !lock.can_start(seat) {
        return Answer::Refused;
    }
    Answer::Started(lock.start_exclusive(seat, 0, 1, true))
}

fn stopped(lock: &mut LockState, seat: u32, loads: bool) -> Answer {
    if !lock.can_stop(seat) {
        Answer::Refused
    } else if loads {
        Answer::Stopped(lock.done_loading(seat))
    } else {
        Answer::Stopped(lock.done_unloading(seat))
    }
}

fn stopped_once(lock: &mut LockState, seat: u32) -> Answer {
    if !lock.can_stop(seat) {
        return Answer::Refused;
    }
    Answer::Stopped(lock.stop_exclusive(seat, 1))
}

fn permitted(lock: &mut LockState, seat: u32) -> Answer {
    if !lock.can_yield(seat) {
        return Answer::Refused;
    }
    lock.permit_begin(seat);
    Answer::Done
}

fn yielded(lock: &mut LockState, seat: u32, list: u8) -> Answer {
    if !lock.can_yield(seat) {
        return Answer::Refused;
    }
    lock.yield_shares(seat, list);
    Answer::Done
}

fn back(lock: &mut LockState, seat: u32, permit: bool) -> Answer {
    if !lock.can_retake(seat) {
        Answer::Refused
    } else if permit {
        Answer::Back(lock.permit_end(seat))
    } else {
        Answer::Back(lock.retake(seat))
    }
}

fn resumed(lock: &mut LockState, seat: u32) -> Answer {
    if !lock.can_resume(seat) {
        return Answer::Refused;
    }
    Answer::Back(lock.try_resume(seat))
}
