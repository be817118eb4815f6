//! Standard input.
ghost use Rattle.std.specs.Prelude.{◌≤◌, None, length, IfOk};

use outside::{ReadAns, Source};
use std::io;
use std::io::{ErrorKind, Read};

/// One read, made again where the system interrupted it.
pub fn read_some<F: Read>(from: &mut F, into: &mut [u8]) -> io::Result<usize>
    ensures { IfOk result (λ count. count ≤ length into.old) }
{
    for _ in 0..u64::MAX {
        match from.read(into) {
            Ok(count) => return Ok(count),
            Err(error) => if error.kind() != ErrorKind::Interrupted {
                return Err(error);
            },
        }
    }
    Err(io::Error::from(ErrorKind::Interrupted))
}

/// Standard input, which tells nothing of what is left.
#[derive(Drop)]
pub struct StdinSource<I: Read + Drop> {
    input: I,
    faults: u64,
}

impl<I: Read + Drop> StdinSource<I> {
    /// The input as a source, of which nothing is read yet.
    pub fn new(input: I) -> StdinSource<I> {
        StdinSource { input, faults: 0 }
    }
}

impl<I: Read + Drop> Source for StdinSource<I> {
    ghost faults = { λ source. source.faults };

    ghost left = { λ _. None };

    fn read(&mut self, into: &mut [u8]) -> ReadAns {
        match read_some(&mut self.input, into) {
            Ok(0) => ReadAns::End,
            Ok(count) => ReadAns::Got(count),
            Err(_) => {
                self.faults = self.faults.saturating_add(1);
                ReadAns::Failed
            }
        }
    }
}
