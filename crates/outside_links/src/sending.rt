ghost use Rattle.std.specs.Prelude.{◌≡◌};
ghost use Rattle.outside.specs.Faults.{Counts};
ghost use Rattle.outside.specs.Delivery.{delivery_failed, Sends};

use crate::links::Link;
use outside::{Delivery, WriteAns};

/// Sends all of the bytes, in as many writes as the link takes.
pub fn send_all<L: Link>(link: &mut L, bytes: &[u8]) -> Delivery
    ensures bytes { Sends result bytes.now (L.was_written link.old) (L.was_written link.new) }
    ensures faults { Counts (delivery_failed result) (L.write_faults link.old) (L.write_faults link.new) }
    ensures read { L.was_read link.new ≡ L.was_read link.old }
    ensures left { L.left link.new ≡ L.left link.old }
    ensures read_faults { L.read_faults link.new ≡ L.read_faults link.old }
{
    let mut sent = 0;
    'pieces: while sent < bytes.len() {
        match link.write(&bytes[sent..]) {
            WriteAns::Took(count) => sent += count,
            WriteAns::Failed => return Delivery::Failed,
        }
    }
    Delivery::Whole
}
