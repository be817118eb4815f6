//! One turn of a worker.
ghost use Rattle.std.specs.Prelude.{◌≡◌};
ghost use Rattle.connection_items.specs.Ends.{Sight};
ghost use Rattle.connection_items.specs.Going.{Going, Turned, ended_step};
ghost use Rattle.worker.specs.Serves.{sight};

use crate::head::serve_head;
use crate::part::part;
use crate::serves_heads::ServesHeads;
use connection_items::{End, Reading, Step, Unreadable};
use connection_window::{Filled, Window};
use outside_links::Link;
use std::alloc::Global;
use std::sync::Wait;

/// The step where the input ended with so many bytes left.
fn ended<F: Drop>(left: usize) -> Step<F>
    ensures { result ≡ ended_step left }
{
    if left == 0 {
        Step::Over(End::Closed)
    } else {
        Step::Over(End::TornHead(left))
    }
}

/// Serves the first head of what is there, or reads a piece more.
pub fn turn<R: Wait, S: ServesHeads, L: Link>(
    rt: &R,
    alloc: Global,
    server: &mut S,
    link: &mut L,
    receipts: &mut Vec<S::Receipt>,
    window: &mut Window,
) -> Step<S::Limit>
    requires { S.is_at_rest server.old }
    ensures turned { (start : Sight S.Item S.Entry S.Receipt S.Hooks)
        → Going S.rules start (sight (S.standing server.old) receipts.old.items (L.was_read link.old)
        (L.left link.old) (L.was_written link.old) (L.read_faults link.old) (L.write_faults link.old)) window.old
        → Turned S.rules result start (sight (S.standing server.new) receipts.new.items (L.was_read link.new)
        (L.left link.new) (L.was_written link.new) (L.read_faults link.new) (L.write_faults link.new)) window.new }
    ensures rest { S.is_at_rest server.new }
{
    match server.read_head(alloc, window.bytes()) {
        Reading::Whole(size, parts) => {
            let step = serve_head(rt, alloc, server, link, receipts, &parts);
            window.use_up(size);
            step
        }
        Reading::More => match window.fill(link) {
            Filled::Got => Step::On,
            Filled::End => ended(window.bytes().len()),
            Filled::Failed => Step::Over(End::ReadFault),
        },
        Reading::Bad => part(
            link,
            End::BadHead,
            server.print_refusal(alloc, Unreadable::Bad),
        ),
        Reading::Long => part(
            link,
            End::LongHead,
            server.print_refusal(alloc, Unreadable::Long),
        ),
        Reading::Many => part(
            link,
            End::ManyHeaders,
            server.print_refusal(alloc, Unreadable::Many),
        ),
        Reading::Memory => Step::Over(End::Memory),
    }
}
