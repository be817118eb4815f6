//! One connection.
ghost use Rattle.std.specs.Prelude.{◌≡◌, ℕ, [], List, Some, IfSome};
ghost use Rattle.outside.specs.Faults.{Rose};
ghost use Rattle.connection_items.specs.Heads.{Heads};
ghost use Rattle.connection_items.specs.Ends.{Conversation};
ghost use Rattle.connection_items.specs.Answers.{IsWholeHeads, AllServed, LinkIsAnswered};
ghost use Rattle.connection_items.specs.declared.ends.End.TheVariants.{Full, Memory};
ghost use Rattle.worker.specs.Serves.{sight};

use crate::serves_heads::ServesHeads;
use crate::turn::turn;
use connection_items::{End, Step};
use connection_window::Window;
use lists::Listed;
use outside_links::Link;
use std::alloc::Global;
use std::sync::Wait;

/// What was made of a connection: the receipts of its replies in order, and how it ended.
#[derive(Drop)]
pub struct Served<R, F> {
    pub receipts: Listed<R>,
    pub end: End<F>,
}

/// Goes through the heads of a connection, from the first one to its end.
fn converse<R: Wait, S: ServesHeads, L: Link>(
    rt: &R,
    alloc: Global,
    server: &mut S,
    link: &mut L,
) -> Served<S::Receipt, S::Limit>
    requires { S.is_at_rest server.old }
    ensures conversation { Conversation S.rules
        (sight (S.standing server.old) [] (L.was_read link.old) (L.left link.old) (L.was_written link.old)
        (L.read_faults link.old) (L.write_faults link.old))
        (sight (S.standing server.new) result.receipts (L.was_read link.new) (L.left link.new)
        (L.was_written link.new) (L.read_faults link.new) (L.write_faults link.new)) result.end }
    ensures rest { S.is_at_rest server.new }
{
    let mut receipts = Vec::new(alloc);
    let Ok(mut window) = Window::new(alloc) else {
        return Served {
            receipts: Listed::from_vec(receipts),
            end: End::Memory,
        };
    };
    'turns: for _ in rt.forever() {
        match turn(rt, alloc, server, link, &mut receipts, &mut window) {
            Step::On => {}
            Step::Over(end) => {
                return Served {
                    receipts: Listed::from_vec(receipts),
                    end,
                };
            }
        }
    }
    unreachable!()
}

/// Serves one connection, from its first head to its end.
///
/// Where the link tells what is left, that is whole heads, no read and no write fails and no limit is met, each head
/// has its item and its response, in order; or memory ran out.
pub fn serve_connection<R: Wait, S: ServesHeads, L: Link>(
    rt: &R,
    alloc: Global,
    server: &mut S,
    link: &mut L,
) -> Served<S::Receipt, S::Limit>
    requires { S.is_at_rest server.old }
    ensures conversation { Conversation S.rules
        (sight (S.standing server.old) [] (L.was_read link.old) (L.left link.old) (L.was_written link.old)
        (L.read_faults link.old) (L.write_faults link.old))
        (sight (S.standing server.new) result.receipts (L.was_read link.new) (L.left link.new)
        (L.was_written link.new) (L.read_faults link.new) (L.write_faults link.new)) result.end }
    ensures complete { (all : List ℕ) (heads : List S.Parts) (rest : List ℕ)
        → L.left link.old ≡ Some all → Heads S.rules all heads rest → IsWholeHeads S.rules heads rest
        → (Rose (L.read_faults link.old) (L.read_faults link.new) → ⊥)
        → (Rose (L.write_faults link.old) (L.write_faults link.new) → ⊥)
        → ((limit : S.Limit) → result.end ≡ Full limit → ⊥)
        → AllServed S.rules result.end heads (S.standing server.old) (S.standing server.new)
        (L.was_written link.old) (L.was_written link.new) }
    ensures answered { IfSome (L.was_read link.old) (λ bytes. bytes ≡ [])
        → IfSome (L.was_written link.old) (λ bytes. bytes ≡ []) → (result.end ≡ Memory → ⊥)
        → LinkIsAnswered S.rules (L.read_faults link.new) (L.write_faults link.new) (L.was_read link.new)
        (L.left link.new) (L.was_written link.new) }
    ensures rest { S.is_at_rest server.new }
{
    converse(rt, alloc, server, link)
}
