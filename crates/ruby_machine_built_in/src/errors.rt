ghost use Rattle.std.specs.Prelude.{◌≡◌, ◌++◌, ℕ, IfOk, List, OnOk, codes};
ghost use Rattle.std.specs.Fmt.{decimal};
ghost use Rattle.ruby_types.specs.declared.request.ErrorClass.TheVariants as class;
ghost use Rattle.ruby_builtin_base.specs.Answers as answers;
ghost use Rattle.ruby_runs.specs.BuiltIns as spec;
ghost use Rattle.ruby_runs.specs.Doing.{error_at};
ghost use Rattle.ruby_machine_names.specs.Steps.{here_of};
ghost use Rattle.ruby_machine_frames.specs.Rest.{StopsWith};

use lists::Copying;
use plain_text::push_path;
use ruby_builtin::wrong_count_text;
use ruby_machine_frames::{Stop, stop_with};
use ruby_machine_names::HereCode;
use ruby_types::{ErrorClass, RubyError, Text, Value};
use std::alloc::{AllocError, Global};

/// Stops with an error of a call, where its text could be made.
fn stop(
    alloc: Global,
    here: &HereCode,
    class: ErrorClass,
    message: Result<Text, AllocError>,
) -> Stop
    ensures { (text : List ℕ) → IfOk message (λ made. made ≡ text) →
        StopsWith (error_at (here_of here.now) class text) result }
{
    match message {
        Ok(message) => stop_with(here.error(alloc, class, message)),
        Err(_) => Stop::Memory,
    }
}

/// `wrong number of arguments (given 1, expected 2)`
fn count_text(alloc: Global, given: usize, expected: usize) -> Result<Text, AllocError>
    ensures { IfOk result (λ text. text ≡ answers.wrong_count_text given (decimal expected)) }
{
    let expected = format!(in alloc; "{expected}")?;
    wrong_count_text(alloc, given, expected.as_bytes())
}

/// A method was called with another number of arguments than it takes.
pub fn wrong_count(alloc: Global, here: &HereCode, given: usize, expected: usize) -> Stop
    ensures { StopsWith (error_at (here_of here.now) class.Argument
        (answers.wrong_count_text given (decimal expected))) result }
{
    stop(
        alloc,
        here,
        ErrorClass::Argument,
        count_text(alloc, given, expected),
    )
}

/// No frame is left for a method.
pub fn too_deep(alloc: Global, here: &HereCode) -> Stop
    ensures { StopsWith (error_at (here_of here.now) class.Stack (codes "stack level too deep")) result }
{
    stop(
        alloc,
        here,
        ErrorClass::Stack,
        Text::from_bytes(alloc, b"stack level too deep"),
    )
}

/// Adds the kind of a receiver: of an object its class.
fn push_kind(text: &mut Vec<u8>, on: &Value) -> Result<(), AllocError>
    ensures { OnOk result (text.new.items ≡ text.old.items ++ spec.kind_name on.now) }
{
    match on {
        Value::Nil => text.extend_from_slice(b"NilClass"),
        Value::True => text.extend_from_slice(b"TrueClass"),
        Value::False => text.extend_from_slice(b"FalseClass"),
        Value::Int(_) => text.extend_from_slice(b"Integer"),
        Value::Str(_) => text.extend_from_slice(b"String"),
        Value::Sym(_) => text.extend_from_slice(b"Symbol"),
        Value::Array(_) => text.extend_from_slice(b"Array"),
        Value::Hash(_) => text.extend_from_slice(b"Hash"),
        Value::Module(_) => text.extend_from_slice(b"Module"),
        Value::Object(class, _) => push_path(text, class),
    }
}

fn undefined_text(alloc: Global, on: &Value, name: &Text) -> Result<Text, AllocError>
    ensures { IfOk result (λ text. text ≡ spec.undefined_method on.now name.now) }
{
    let mut text = Vec::from_slice(alloc, b"undefined method '")?;
    text.extend_from_slice(name.as_bytes())?;
    text.extend_from_slice(b"' for ")?;
    push_kind(&mut text, on)?;
    Text::from_vec(alloc, text)
}

/// No method has this name for the receiver's kind.
pub fn undefined_method(alloc: Global, here: &HereCode, on: &Value, name: &Text) -> Stop
    ensures { StopsWith (error_at (here_of here.now) class.NoMethod (spec.undefined_method on.now name.now)) result }
{
    stop(
        alloc,
        here,
        ErrorClass::NoMethod,
        undefined_text(alloc, on, name),
    )
}

/// An error of a built-in method, which knows no file, as it is raised here.
pub fn raised_here(alloc: Global, here: &HereCode, error: RubyError) -> Stop
    ensures { StopsWith (spec.raised_here (here_of here.now) error error.class) result }
{
    match error.class {
        ErrorClass::TurnBudget => stop_with(here.spent(alloc)),
        class => stop_with(here.error(alloc, class, error.message)),
    }
}
