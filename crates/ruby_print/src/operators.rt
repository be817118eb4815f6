ghost use Rattle.std.specs.Prelude.{◌≡◌, ◌++◌, OnOk};
ghost use Rattle.ruby_print.specs.Expressions as spec;

use std::alloc::AllocError;

/// How a call on a receiver is printed. It is decided once, by the method's name.
#[derive(Clone, Copy)]
pub enum Form {
    /// `on[x]`
    Element,
    /// `- on`
    Negation,
    /// `on + x`
    Operator,
    /// `on.name(x, y)`
    Method,
}

/// The parenthesis before an operator expression that stands inside another.
pub fn open(written: &mut Vec<u8>, inside: bool) -> Result<(), AllocError>
    ensures { OnOk result (written.new.items ≡ written.old.items ++ spec.left inside) }
{
    if inside {
        written.push(b'(')?;
    }
    Ok(())
}

/// The parenthesis behind an operator expression that stands inside another.
pub fn close(written: &mut Vec<u8>, inside: bool) -> Result<(), AllocError>
    ensures { OnOk result (written.new.items ≡ written.old.items ++ spec.right inside) }
{
    if inside {
        written.push(b')')?;
    }
    Ok(())
}

/// An operator before its operand.
fn push_sign(written: &mut Vec<u8>, operator: &[u8], inside: bool) -> Result<(), AllocError>
    ensures { OnOk result (written.new.items ≡ written.old.items ++ (spec.left inside ++ operator.now)) }
{
    open(written, inside)?;
    written.extend_from_slice(operator)
}

/// The form in which a call of a method of this name is printed.
pub fn form_of(name: &[u8]) -> Form
    ensures { result ≡ spec.form_of name.now }
{
    if name == b"[]".as_slice() {
        return Form::Element;
    }
    if name == b"-@".as_slice() {
        return Form::Negation;
    }
    if is_operator(name) {
        return Form::Operator;
    }
    Form::Method
}

/// What stands before the receiver of a call.
pub fn push_before(written: &mut Vec<u8>, form: Form, inside: bool) -> Result<(), AllocError>
    ensures { OnOk result (written.new.items ≡ written.old.items ++ spec.before_receiver form inside) }
{
    match form {
        Form::Element | Form::Method => Ok(()),
        Form::Negation => push_sign(written, b"- ", inside),
        Form::Operator => open(written, inside),
    }
}

/// Whether a method's name is an operator.
fn is_operator(name: &[u8]) -> bool
    ensures { result ≡ spec.is_operator name.now }
{
    match name.first() {
        None => false,
        Some(byte) => !(byte.is_ascii_lowercase() || *byte == b'_'),
    }
}
