//! A window over a link in memory, piece by piece.

use crate::{Filled, Window};
use lists::{Listed, Text};
use outside_links::MemLink;
use std::alloc::Global;
use std::test::Fail;

/// Fills a window that has room.
fn fill(window: &mut Window, link: &mut MemLink) -> Option<Filled> {
    if window.bytes().len() < 16_384 {
        Some(window.fill(link))
    } else {
        None
    }
}

#[test]
fn a_window_keeps_what_was_not_used_up(rt: HostRuntime) -> Result<(), Fail> {
    let bytes = Text::from_bytes(rt.alloc(), b"abcde")?;
    let fails = Listed::from_slice(rt.alloc(), &[2])?;
    let mut link = MemLink::new(rt.alloc(), bytes, 2, fails);
    let mut window = Window::new(rt.alloc())?;
    assert_eq!(rt; fill(&mut window, &mut link), Some(Filled::Got));
    assert_eq!(rt; window.bytes(), b"ab".as_slice());
    window.use_up(1);
    assert_eq!(rt; fill(&mut window, &mut link), Some(Filled::Failed));
    assert_eq!(rt; fill(&mut window, &mut link), Some(Filled::Got));
    assert_eq!(rt; window.bytes(), b"bcd".as_slice());
    assert_eq!(rt; fill(&mut window, &mut link), Some(Filled::Got));
    assert_eq!(rt; fill(&mut window, &mut link), Some(Filled::End));
    assert_eq!(rt; window.bytes(), b"bcde".as_slice());
    Ok(())
}
