use crate::tally::Tally;
use crate::turns::{add_by_all, add_many, gather, set_and_read_room, shared_tally, split_many};
use std::test::Fail;
use std::thread;
use turn_lock::SplitFault;

// The entries of each seat stand in the order in which it added them, and the counts are theirs.
fn is_in_order(tally: &Tally) -> bool {
    let mut seen = [0u32; 64];
    for (seat, place) in tally.entries.iter() {
        let Some(count) = seen.get_mut(*seat as usize) else {
            return false;
        };
        if *count != *place {
            return false;
        }
        *count = count.wrapping_add(1);
    }
    seen == tally.counts
}

#[test]
fn two_threads_take_a_thousand_turns_each(rt: HostRuntime) -> Result<(), Fail> {
    let (lock, mut first) = shared_tally(rt.alloc())?;
    let second = lock.split(&mut first)?;
    let (shared, handle) = (&lock, &rt);
    let (mut first, second) = thread::join(
        &rt,
        move || add_many(handle, shared, first, 1000),
        move || add_many(handle, shared, second, 1000),
    );
    lock.join(&mut first, second);
    let tally = lock.enter(&rt, &mut first);
    let entries = tally.entries.len();
    let counts = (tally.counts[0], tally.counts[1]);
    let in_order = is_in_order(&tally);
    lock.leave(&mut first, tally);
    assert_eq!(rt; entries, 2000);
    assert_eq!(rt; counts, (1000, 1000));
    assert!(rt; in_order);
    Ok(())
}

#[test]
fn sixty_three_numbers_are_given_and_none_again_after_a_join(rt: HostRuntime) -> Result<(), Fail> {
    let (lock, mut first) = shared_tally(rt.alloc())?;
    assert_eq!(rt; first.number(), 0);
    let tickets = split_many(rt.alloc(), &lock, &mut first, 63)?;
    let mut number = 0u32;
    for ticket in tickets.iter() {
        number = number.wrapping_add(1);
        assert_eq!(rt; ticket.number(), number);
    }
    assert_eq!(rt; number, 63);
    assert!(rt; matches!(lock.split(&mut first), Err(SplitFault::PassesFull(64))));
    gather(&lock, &mut first, tickets);
    assert!(rt; matches!(lock.split(&mut first), Err(SplitFault::PassesFull(64))));
    Ok(())
}

#[test]
fn sixteen_threads_take_five_hundred_turns_each(rt: HostRuntime) -> Result<(), Fail> {
    let (lock, mut first) = shared_tally(rt.alloc())?;
    let others = split_many(rt.alloc(), &lock, &mut first, 16)?;
    let others = add_by_all(&rt, &lock, others, 500)?;
    gather(&lock, &mut first, others);
    let tally = lock.enter(&rt, &mut first);
    let entries = tally.entries.len();
    let in_order = is_in_order(&tally);
    lock.leave(&mut first, tally);
    assert_eq!(rt; entries, 8000);
    assert!(rt; in_order);
    Ok(())
}

#[test]
fn room_is_kept_in_a_turn_without_an_entry(rt: HostRuntime) -> Result<(), Fail> {
    let (lock, mut first) = shared_tally(rt.alloc())?;
    assert_eq!(rt; set_and_read_room(&rt, &lock, &mut first, 7), 7);
    Ok(())
}
