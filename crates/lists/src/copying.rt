ghost use Rattle.std.specs.Prelude.{◌≡◌, IfOk};

use std::alloc::AllocError;

/// A value that can be copied. The copy is the same value, and only want of memory refuses it.
pub trait Copying: Drop {
    fn copy(&self) -> Result<Self, AllocError>
        ensures { IfOk result (λ copied. copied ≡ self.now) };
}

impl Copying for u8 {
    fn copy(&self) -> Result<u8, AllocError> {
        Ok(*self)
    }
}

impl Copying for u64 {
    fn copy(&self) -> Result<u64, AllocError> {
        Ok(*self)
    }
}

impl<A: Copying, B: Copying> Copying for (A, B) {
    fn copy(&self) -> Result<(A, B), AllocError> {
        Ok((self.0.copy()?, self.1.copy()?))
    }
}
