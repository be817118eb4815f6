ghost use Rattle.std.specs.Prelude.{◌≡◌};

use crate::{Executor, Hook, Notes, UpdateCheck, Wrapping};
use outside::{FilePath, Stamp, Stamps};
use std::alloc::{AllocError, Global};
use std::test::Fail;

// Notes its numbers.
#[derive(Drop)]
struct Noting {
    before: u32,
    after: u32,
    prepare: u32,
}

impl Hook for Noting {
    ghost use Rattle.reloader.specs.Noted.{noted};

    ghost before_hook = { λ h notes. h };

    ghost before_notes = { λ h notes. noted h.before notes };

    ghost after_hook = { λ h notes. h };

    ghost after_notes = { λ h notes. noted h.after notes };

    ghost prepare_hook = { λ h notes. h };

    ghost prepare_notes = { λ h notes. noted h.prepare notes };

    fn before(&mut self, notes: &mut Notes) {
        let _ = notes.note(self.before);
    }

    fn after(&mut self, notes: &mut Notes) {
        let _ = notes.note(self.after);
    }

    fn prepare(&mut self, notes: &mut Notes) {
        let _ = notes.note(self.prepare);
    }
}

fn wrap_again(executor: &mut Executor) -> u32
    ensures { executor.new.wraps.depth ≡ executor.old.wraps.depth }
{
    if executor.depth() >= 1000 {
        return 0;
    }
    executor.wrap(
        |inside| -> u32
            ensures { inside.new.wraps.depth ≡ inside.old.wraps.depth }
        { inside.depth() },
    )
}

fn are_noted(executor: &Executor, wanted: &[u32]) -> bool {
    let mut place = 0u32;
    for n in wanted {
        if executor.notes().at(place) != Some(*n) {
            return false;
        }
        place = place.saturating_add(1);
    }
    executor.notes().count() == place
}

#[test]
fn hooks_are_called_around_the_outermost_wrap(rt: HostRuntime) -> Result<(), Fail> {
    let alloc = rt.alloc();
    let mut hooks: Vec<Box<dyn Hook>> = Vec::new(alloc);
    let first = Noting {
        before: 1,
        after: 3,
        prepare: 5,
    };
    let second = Noting {
        before: 2,
        after: 4,
        prepare: 6,
    };
    hooks.push(Box::new(alloc, first)?)?;
    hooks.push(Box::new(alloc, second)?)?;
    let mut executor = Executor::new(hooks, Notes::new(alloc)?);
    let inner_depth = executor.wrap(
        |inside| -> u32
            ensures { inside.new.wraps.depth ≡ inside.old.wraps.depth }
        { wrap_again(inside) },
    );
    assert_eq!(rt; inner_depth, 2);
    assert_eq!(rt; executor.depth(), 0);
    assert!(rt; are_noted(&executor, &[1, 2, 3, 4]));
    executor.begin_wrap();
    executor.prepared();
    executor.end_wrap();
    assert!(rt; are_noted(&executor, &[1, 2, 3, 4, 1, 2, 5, 6, 3, 4]));
    Ok(())
}

#[test]
fn a_thousand_and_twenty_four_numbers_are_kept(rt: HostRuntime) -> Result<(), Fail> {
    let mut notes = Notes::new(rt.alloc())?;
    for n in 0..1024u32 {
        assert!(rt; notes.note(n));
    }
    assert!(rt; !notes.note(1024));
    assert_eq!(rt; notes.count(), 1024);
    assert_eq!(rt; notes.at(1023), Some(1023));
    assert_eq!(rt; notes.at(1024), None);
    Ok(())
}

fn stamps(alloc: Global, time: u64) -> Result<Stamps, AllocError> {
    let mut stamps = Stamps::new(alloc);
    stamps.push((
        FilePath::from_slice(alloc, b"app/a.rb")?,
        Stamp { length: 1, time },
    ))?;
    Ok(stamps)
}

#[test]
fn files_of_another_time_differ(rt: HostRuntime) -> Result<(), Fail> {
    let alloc = rt.alloc();
    let in_force = stamps(alloc, 1)?;
    assert!(rt; !UpdateCheck::differs(&in_force, &stamps(alloc, 1)?));
    assert!(rt; UpdateCheck::differs(&in_force, &stamps(alloc, 2)?));
    assert!(rt; UpdateCheck::differs(&in_force, &Stamps::new(alloc)));
    Ok(())
}
