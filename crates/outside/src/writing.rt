ghost use Rattle.outside.specs.Faults.{Counts};
ghost use Rattle.outside.specs.Delivery.{delivery_failed, Sends};

use crate::answers::WriteAns;
use crate::streams::Sink;

/// How a write of many bytes ended.
#[derive(Clone, Copy, Debug, PartialEq, Eq)]
pub enum Delivery {
    Whole,
    /// A write failed, and what came before it was written.
    Failed,
}

/// Writes all of the bytes, in as many writes as the sink takes.
pub fn write_all<O: Sink>(out: &mut O, bytes: &[u8]) -> Delivery
    ensures bytes { Sends result bytes.now (O.written out.old) (O.written out.new) }
    ensures faults { Counts (delivery_failed result) (O.faults out.old) (O.faults out.new) }
{
    let mut sent = 0;
    'pieces: while sent < bytes.len() {
        match out.write(&bytes[sent..]) {
            WriteAns::Took(count) => sent += count,
            WriteAns::Failed => return Delivery::Failed,
        }
    }
    Delivery::Whole
}
