//! Turns over a shared tally.
ghost use Rattle.std.specs.Prelude.{◌≡◌, None, All, IfOk};
ghost use Rattle.turn_lock.specs.Entries.{Begins};
ghost use Rattle.turn_lock_tests.specs.Ready.{IsReady, WasSeenIn};

use crate::tally::Tally;
use std::alloc::{AllocError, Global};
use std::sync::Wait;
use std::thread;
use std::thread::Threads;
use turn_lock::{Ticket, TurnLock};

/// An empty tally under a lock.
pub fn shared_tally(alloc: Global) -> Result<(TurnLock<Tally>, Ticket<Tally>), AllocError>
    ensures { IfOk result (λ t. IsReady t.0 t.1 × (t.1.number ≡ 0)) }
{
    TurnLock::new(alloc, Tally::new(alloc))
}

/// So many new tickets, or fewer where the numbers run out.
pub fn split_many(
    alloc: Global,
    lock: &TurnLock<Tally>,
    first: &mut Ticket<Tally>,
    count: u32,
) -> Result<Vec<Ticket<Tally>>, AllocError>
    requires { IsReady lock.now first.old × (first.old.number ≡ 0) }
    ensures first { IsReady lock.now first.new × (first.new.number ≡ 0) }
    ensures others { IfOk result (λ v. All (IsReady lock.now) v.items) }
{
    let mut tickets = Vec::new(alloc);
    for _ in 0..count {
        match lock.split(first) {
            Ok(ticket) => tickets.push(ticket)?,
            Err(_) => break,
        }
    }
    Ok(tickets)
}

/// The first ticket takes in what the others have seen: what each of them had seen begins what it has seen then.
pub fn gather(lock: &TurnLock<Tally>, first: &mut Ticket<Tally>, mut others: Vec<Ticket<Tally>>)
    requires first { IsReady lock.now first.old }
    requires others { All (IsReady lock.now) others.items }
    ensures ready { IsReady lock.now first.new }
    ensures same { first.new.number ≡ first.old.number }
    ensures mine { Begins first.old.seen first.new.seen }
    ensures theirs { All (WasSeenIn first.new.seen) others.items }
{
    while let Some(other) = others.pop() {
        lock.join(first, other);
    }
}

/// One turn, which adds an entry if there is memory.
pub fn add_one<R: Wait>(rt: &R, lock: &TurnLock<Tally>, ticket: &mut Ticket<Tally>)
    requires { IsReady lock.now ticket.old }
    ensures ready { IsReady lock.now ticket.new }
    ensures same { (ticket.new.number ≡ ticket.old.number) × (ticket.new.next ≡ ticket.old.next) }
{
    let seat = ticket.number();
    let mut tally = lock.enter(rt, ticket);
    let _ = tally.add(seat);
    lock.leave(ticket, tally);
}

/// So many turns.
pub fn add_many<R: Wait>(
    rt: &R,
    lock: &TurnLock<Tally>,
    mut ticket: Ticket<Tally>,
    turns: u32,
) -> Ticket<Tally>
    requires { IsReady lock.now ticket }
    ensures ready { IsReady lock.now result }
    ensures same { result.number ≡ ticket.number }
{
    for _ in 0..turns {
        add_one(rt, lock, &mut ticket);
    }
    ticket
}

/// Each ticket takes so many turns in a thread of its own.
pub fn add_by_all<R: Threads + Wait + Sync>(
    rt: &R,
    lock: &TurnLock<Tally>,
    tickets: Vec<Ticket<Tally>>,
    turns: u32,
) -> Result<Vec<Ticket<Tally>>, AllocError>
    requires { All (IsReady lock.now) tickets.items }
    ensures { IfOk result (λ v. All (IsReady lock.now) v.items) }
{
    thread::map_vec(
        rt,
        tickets,
        &|ticket| -> Ticket<Tally>
            requires { IsReady lock.now ticket }
            ensures { IsReady lock.entry.now result }
        { add_many(rt, lock, ticket, turns) },
    )
}

/// Sets room aside in one turn and reads it in the next. Whatever the other tickets do in between, it is still there.
pub fn set_and_read_room<R: Wait>(
    rt: &R,
    lock: &TurnLock<Tally>,
    ticket: &mut Ticket<Tally>,
    room: u32,
) -> u32
    requires { IsReady lock.now ticket.old }
    ensures room { result ≡ room }
    ensures ready { IsReady lock.now ticket.new }
{
    let seat = ticket.number();
    let mut tally = lock.enter(rt, ticket);
    tally.set_room(seat, room);
    lock.leave(ticket, tally);
    let tally = lock.enter(rt, ticket);
    let found = tally.room[seat as usize];
    lock.leave(ticket, tally);
    found
}
