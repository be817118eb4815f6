//! What a play gives, worked out by hand from the table of the calls.
use crate::plays::{Answer, Call, Step, play};
use share_lock::{
    Holds, LockState, Phase, Resume, Row, Rows, Saved, SavedList, Share, Start, Stop, Wait,
};
use std::test::Fail;

// Seat 0 shares, and yields to loads; it shares once more, and yields to loads and unloads.
static TWO_YIELDS: [Step; 4] = [
    Step {
        seat: 0,
        call: Call::StartSharing,
        answer: Answer::Shared(Share::Taken),
    },
    Step {
        seat: 0,
        call: Call::YieldShares(1),
        answer: Answer::Done,
    },
    Step {
        seat: 0,
        call: Call::StartSharing,
        answer: Answer::Shared(Share::Taken),
    },
    Step {
        seat: 0,
        call: Call::YieldShares(3),
        answer: Answer::Done,
    },
];

// The inner yield ends.
static ONE_BACK: [Step; 1] = [Step {
    seat: 0,
    call: Call::Retake,
    answer: Answer::Back(Resume::Resumed),
}];

// Its share is given back, and the outer yield ends. Seat 0 has a share then, so seat 1 is refused.
static BOTH_BACK: [Step; 3] = [
    Step {
        seat: 0,
        call: Call::StopSharing,
        answer: Answer::Done,
    },
    Step {
        seat: 0,
        call: Call::Retake,
        answer: Answer::Back(Resume::Resumed),
    },
    Step {
        seat: 1,
        call: Call::StartExclusive,
        answer: Answer::Started(Start::Busy),
    },
];

// Three seats share, and two of them load one after the other.
static THREE_LOADS: [Step; 13] = [
    Step {
        seat: 0,
        call: Call::StartRunning,
        answer: Answer::Shared(Share::Taken),
    },
    Step {
        seat: 1,
        call: Call::StartRunning,
        answer: Answer::Shared(Share::Taken),
    },
    Step {
        seat: 2,
        call: Call::StartRunning,
        answer: Answer::Shared(Share::Taken),
    },
    Step {
        seat: 0,
        call: Call::StartLoading,
        answer: Answer::Started(Start::Seeking),
    },
    Step {
        seat: 1,
        call: Call::StartLoading,
        answer: Answer::Started(Start::Seeking),
    },
    Step {
        seat: 0,
        call: Call::TryResume,
        answer: Answer::Back(Resume::Still),
    },
    Step {
        seat: 2,
        call: Call::DoneRunning,
        answer: Answer::Done,
    },
    Step {
        seat: 1,
        call: Call::TryResume,
        answer: Answer::Back(Resume::Resumed),
    },
    // Seat 0 waits for a load, so it goes first.
    Step {
        seat: 1,
        call: Call::DoneLoading,
        answer: Answer::Stopped(Stop::Waiting),
    },
    Step {
        seat: 0,
        call: Call::TryResume,
        answer: Answer::Back(Resume::Resumed),
    },
    Step {
        seat: 1,
        call: Call::TryResume,
        answer: Answer::Back(Resume::Still),
    },
    Step {
        seat: 0,
        call: Call::DoneLoading,
        answer: Answer::Stopped(Stop::Free),
    },
    Step {
        seat: 1,
        call: Call::TryResume,
        answer: Answer::Back(Resume::Resumed),
    },
];

// The list of the load that waits lacks unloads, so the unload goes after it, and after the run that loaded.
static UNLOAD_AFTER_LOAD: [Step; 11] = [
    Step {
        seat: 0,
        call: Call::StartRunning,
        answer: Answer::Shared(Share::Taken),
    },
    Step {
        seat: 1,
        call: Call::StartRunning,
        answer: Answer::Shared(Share::Taken),
    },
    Step {
        seat: 0,
        call: Call::StartLoading,
        answer: Answer::Started(Start::Seeking),
    },
    Step {
        seat: 1,
        call: Call::StartUnloading,
        answer: Answer::Started(Start::Seeking),
    },
    Step {
        seat: 1,
        call: Call::TryResume,
        answer: Answer::Back(Resume::Still),
    },
    Step {
        seat: 0,
        call: Call::TryResume,
        answer: Answer::Back(Resume::Resumed),
    },
    Step {
        seat: 0,
        call: Call::DoneLoading,
        answer: Answer::Stopped(Stop::Free),
    },
    Step {
        seat: 1,
        call: Call::TryResume,
        answer: Answer::Back(Resume::Still),
    },
    Step {
        seat: 0,
        call: Call::DoneRunning,
        answer: Answer::Done,
    },
    Step {
        seat: 1,
        call: Call::TryResume,
        answer: Answer::Back(Resume::Resumed),
    },
    Step {
        seat: 1,
        call: Call::DoneUnloading,
        answer: Answer::Stopped(Stop::Free),
    },
];

// A load within a load.
static LOAD_IN_LOAD: [Step; 2] = [
    Step {
        seat: 0,
        call: Call::StartLoading,
        answer: Answer::Started(Start::Taken),
    },
    Step {
        seat: 0,
        call: Call::StartLoading,
        answer: Answer::Started(Start::Taken),
    },
];

// Another seat is kept out, and the seat itself not.
static OUT_OF_LOADS: [Step; 5] = [
    Step {
        seat: 1,
        call: Call::StartRunning,
        answer: Answer::Shared(Share::Busy),
    },
    Step {
        seat: 0,
        call: Call::StartRunning,
        answer: Answer::Shared(Share::Taken),
    },
    Step {
        seat: 0,
        call: Call::DoneLoading,
        answer: Answer::Stopped(Stop::Deeper),
    },
    Step {
        seat: 0,
        call: Call::StopExclusive,
        answer: Answer::Stopped(Stop::Free),
    },
    Step {
        seat: 0,
        call: Call::DoneLoading,
        answer: Answer::Refused,
    },
];

// Seat 0 lets seat 1 load. Seat 2 doesn't pass a seat that blocks new shares.
static PERMIT: [Step; 10] = [
    Step {
        seat: 0,
        call: Call::StartRunning,
        answer: Answer::Shared(Share::Taken),
    },
    Step {
        seat: 1,
        call: Call::StartRunning,
        answer: Answer::Shared(Share::Taken),
    },
    Step {
        seat: 1,
        call: Call::StartLoading,
        answer: Answer::Started(Start::Seeking),
    },
    Step {
        seat: 2,
        call: Call::StartRunning,
        answer: Answer::Shared(Share::Busy),
    },
    Step {
        seat: 0,
        call: Call::PermitBegin,
        answer: Answer::Done,
    },
    Step {
        seat: 1,
        call: Call::TryResume,
        answer: Answer::Back(Resume::Resumed),
    },
    Step {
        seat: 0,
        call: Call::PermitEnd,
        answer: Answer::Back(Resume::Still),
    },
    Step {
        seat: 1,
        call: Call::DoneLoading,
        answer: Answer::Stopped(Stop::Free),
    },
    Step {
        seat: 0,
        call: Call::PermitEnd,
        answer: Answer::Back(Resume::Resumed),
    },
    Step {
        seat: 0,
        call: Call::PermitEnd,
        answer: Answer::Refused,
    },
];

fn wait_of(lock: &LockState, seat: u32) -> Option<Wait> {
    if (seat as usize) < lock.raw_state().len() {
        return lock.raw_state().at(seat as usize).wait;
    }
    None
}

fn holds(lock: &LockState, seat: u32) -> Option<Holds> {
    if (seat as usize) < lock.raw_state().len() {
        return Some(lock.holds(seat));
    }
    None
}

const ONE_SHARE: Holds = Holds {
    shares: 1,
    depth: 0,
    phase: Phase::Calm,
};

const TWICE_EXCLUSIVE: Holds = Holds {
    shares: 0,
    depth: 2,
    phase: Phase::Calm,
};

// Without a purpose, it admits loads and new shares.
const INNER_WAIT: Wait = Wait {
    purpose: None,
    list: 0x81,
};

#[test]
fn nested_yields_keep_what_both_admit_and_come_back_one_by_one(
    rt: HostRuntime,
) -> Result<(), Fail> {
    let mut lock = LockState::new(rt.alloc(), 2)?;
    play(&rt, &mut lock, &TWO_YIELDS);
    assert_eq!(rt; wait_of(&lock, 0), Some(INNER_WAIT));
    play(&rt, &mut lock, &ONE_BACK);
    assert_eq!(rt; wait_of(&lock, 0), Some(INNER_WAIT));
    play(&rt, &mut lock, &BOTH_BACK);
    assert_eq!(rt; wait_of(&lock, 0), None);
    assert_eq!(rt; holds(&lock, 0), Some(ONE_SHARE));
    Ok(())
}

#[test]
fn three_seats_that_seek_to_load_do_so_one_after_another(rt: HostRuntime) -> Result<(), Fail> {
    let mut lock = LockState::new(rt.alloc(), 3)?;
    play(&rt, &mut lock, &THREE_LOADS);
    assert_eq!(rt; holds(&lock, 1), Some(ONE_SHARE));
    Ok(())
}

#[test]
fn an_unload_waits_for_a_load_that_does_not_admit_it(rt: HostRuntime) -> Result<(), Fail> {
    let mut lock = LockState::new(rt.alloc(), 2)?;
    play(&rt, &mut lock, &UNLOAD_AFTER_LOAD);
    Ok(())
}

#[test]
fn a_load_within_a_load_is_deeper_and_keeps_others_out(rt: HostRuntime) -> Result<(), Fail> {
    let mut lock = LockState::new(rt.alloc(), 2)?;
    play(&rt, &mut lock, &LOAD_IN_LOAD);
    assert_eq!(rt; lock.depth(), 2);
    assert_eq!(rt; holds(&lock, 0), Some(TWICE_EXCLUSIVE));
    play(&rt, &mut lock, &OUT_OF_LOADS);
    Ok(())
}

#[test]
fn a_permit_lets_another_seat_load_and_ends_after_it(rt: HostRuntime) -> Result<(), Fail> {
    let mut lock = LockState::new(rt.alloc(), 3)?;
    play(&rt, &mut lock, &PERMIT);
    Ok(())
}

#[test]
fn lists_are_built_and_copied(rt: HostRuntime) -> Result<(), Fail> {
    let saved = Saved {
        shares: 2,
        wait: None,
    };
    let mut row = Row::new();
    row.yields.push(saved);
    row.yields = row.yields.copy()?;
    let mut rows = Rows::new(rt.alloc());
    rows.push(row.copy())?;
    rows.push(row)?;
    let all = rows.copy()?;
    assert_eq!(rt; all.len(), 2);
    assert_eq!(rt; all.at(1).yields.len(), 1);
    assert_eq!(rt; *all.at(1).yields.at(0), saved);
    assert_eq!(rt; SavedList::new().len(), 0);
    Ok(())
}
