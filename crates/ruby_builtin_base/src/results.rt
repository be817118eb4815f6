ghost use Rattle.ruby_builtin_base.specs.Answers.{OrMemory, answered};
ghost use Rattle.ruby_builtin_base.specs.Results as spec;
ghost use Rattle.std.specs.Prelude.{◌≡◌, pos};

use crate::call::Call;
use crate::called::Called;
use ruby_types::{ErrorClass, Value};

impl Call<'_> {
    /// Answers with a number, or that it isn't one of 64 bits.
    pub fn integer(&self, n: Option<i64>) -> Called
        ensures { OrMemory result (answered self.now (spec.whole n)) }
    {
        match n {
            Some(n) => self.gives(Value::Int(n)),
            None => self.raises(ErrorClass::Range, b"integer out of range"),
        }
    }

    /// Answers with how many there are of something.
    pub fn count(&self, n: usize) -> Called
        ensures { OrMemory result (answered self.now (spec.count n)) }
    {
        self.integer(counted(n))
    }

    /// Answers with true or false.
    pub fn truth(&self, holds: bool) -> Called
        ensures { result ≡ answered self.now (spec.truth holds) }
    {
        self.gives(if holds { Value::True } else { Value::False })
    }
}

/// A count as a number of 64 bits.
pub fn counted(n: usize) -> Option<i64>
    ensures { result ≡ spec.fitted (pos n) }
{
    i64::try_from(n).ok()
}
