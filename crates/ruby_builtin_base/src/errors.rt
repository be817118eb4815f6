ghost use Rattle.std.specs.Prelude.{◌≡◌, ◌++◌, IfOk, OnOk};
ghost use Rattle.ruby_builtin_base.specs.Printed as spec;

use ruby_types::{ErrorClass, RubyError, Text};
use std::alloc::{AllocError, Global};

/// The class of an error as Ruby names it: `ErrorClass::Kind` is its TypeError.
pub fn class_name(class: ErrorClass) -> &'static [u8]
    ensures { result.now ≡ spec.class_name class }
{
    match class {
        ErrorClass::Name => b"NameError",
        ErrorClass::NoMethod => b"NoMethodError",
        ErrorClass::Argument => b"ArgumentError",
        ErrorClass::Kind => b"TypeError",
        ErrorClass::ZeroDivision => b"ZeroDivisionError",
        ErrorClass::Range => b"RangeError",
        ErrorClass::Key => b"KeyError",
        ErrorClass::Runtime => b"RuntimeError",
        ErrorClass::Syntax => b"SyntaxError",
        ErrorClass::Stack => b"SystemStackError",
        ErrorClass::Load => b"LoadError",
        ErrorClass::TurnBudget => b"TurnBudgetError",
    }
}

/// An error as it is reported: `ZeroDivisionError: divided by 0 (app/controllers/calc_controller.rb)`, without the
/// parentheses where no file's code was running.
pub fn error_text(alloc: Global, error: &RubyError) -> Result<Text, AllocError>
    ensures { IfOk result (λ text. text ≡ spec.error_text error.now) }
{
    let mut text = Vec::from_slice(alloc, class_name(error.class))?;
    text.extend_from_slice(b": ")?;
    text.extend_from_slice(error.message.as_bytes())?;
    push_place(&mut text, error.path.as_bytes())?;
    Text::from_vec(alloc, text)
}

fn push_place(text: &mut Vec<u8>, path: &[u8]) -> Result<(), AllocError>
    ensures { OnOk result (text.new.items ≡ text.old.items ++ spec.place_text path.now) }
{
    if path.is_empty() {
        return Ok(());
    }
    text.extend_from_slice(b" (")?;
    text.extend_from_slice(path)?;
    text.extend_from_slice(b")")
}
