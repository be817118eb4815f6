ghost use Rattle.std.specs.Prelude.{◌≡◌, ◌≤◌, ◌<◌, [], ◌∷◌, ℤ, MatchResult, IfOk};
ghost use Rattle.ruby_types.specs.declared.request.ErrorClass.TheVariants as class_of;
ghost use Rattle.ruby_types.specs.Size as sizes_of;
ghost use Rattle.ruby_builtin_base.specs.Answers as answers;
ghost use Rattle.ruby_builtin_base.specs.Answers.{OrMemory};
ghost use Rattle.ruby_builtin_base.specs.Costs.{call_sizes, cost};

use crate::call::Call;
use crate::called::Called;
use ruby_types::{ErrorClass, RubyError, Text, Value, size};
use std::alloc::{AllocError, Global};

/// An error of a call, which knows no file.
fn raised(alloc: Global, class: ErrorClass, message: &[u8]) -> Result<Called, AllocError>
    ensures { IfOk result (λ called. called ≡ answers.raised class message.now) }
{
    Ok(Called::Raised(RubyError {
        class,
        message: Text::from_bytes(alloc, message)?,
        path: Text::new(alloc),
    }))
}

impl Call<'_> {
    /// The cost where the result has this size, or the error that so many turns aren't left.
    pub fn pays(&self, made: u64) -> Result<u64, Called>
        ensures { MatchResult result
            (λ paid. (paid ≡ cost (call_sizes self.now.on.now self.now.args.now) made) × (paid ≤ self.now.left))
            (λ called. (called ≡ answers.raised class_of.TurnBudget [])
            × (self.now.left < cost (call_sizes self.now.on.now self.now.args.now) made)) }
    {
        let paid = self.touched.saturating_add(made) / 16;
        if paid <= self.left {
            Ok(paid)
        } else {
            Err(Called::Raised(RubyError {
                class: ErrorClass::TurnBudget,
                message: Text::new(self.alloc),
                path: Text::new(self.alloc),
            }))
        }
    }

    /// Answers with a value that is there.
    pub fn gives(&self, value: Value) -> Called
        ensures { result ≡ answers.answered self.now (answers.Gives value) }
    {
        match self.pays(size(&value)) {
            Ok(paid) => Called::Value(value, paid),
            Err(spent) => spent,
        }
    }

    /// Answers with an error.
    pub fn raises(&self, class: ErrorClass, message: &[u8]) -> Called
        ensures { OrMemory result (answers.answered self.now (answers.Raises class message.now)) }
    {
        match self.pays(0) {
            Ok(_) => raised(self.alloc, class, message).unwrap_or(Called::Memory),
            Err(spent) => spent,
        }
    }
}
