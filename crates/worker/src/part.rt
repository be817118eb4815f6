//! Parting from the other side.
ghost use Rattle.std.specs.Prelude.{◌≡◌, ℕ, List, IfOk};
ghost use Rattle.connection_items.specs.Going.{Parts};

use connection_items::{End, Step};
use lists::Text;
use outside::Delivery;
use outside_links::{Link, send_all};
use std::alloc::AllocError;

/// Sends the response of an end, where it could be printed.
pub fn part<F: Drop, L: Link>(
    link: &mut L,
    end: End<F>,
    printed: Result<Text, AllocError>,
) -> Step<F>
    ensures parts { (bytes : List ℕ) → IfOk printed (λ text. text ≡ bytes)
        → Parts bytes end result (L.was_written link.old) (L.was_written link.new)
        (L.write_faults link.old) (L.write_faults link.new) }
    ensures read { L.was_read link.new ≡ L.was_read link.old }
    ensures left { L.left link.new ≡ L.left link.old }
    ensures read_faults { L.read_faults link.new ≡ L.read_faults link.old }
{
    match printed {
        Err(_) => Step::Over(End::Memory),
        Ok(text) => match send_all(link, text.as_bytes()) {
            Delivery::Whole => Step::Over(end),
            Delivery::Failed => Step::Over(End::WriteFault),
        },
    }
}
