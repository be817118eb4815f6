//! Calls and indexes behind an expression.

ghost use Rattle.std.specs.Prelude.{◌≡◌, IfOk};
ghost use Rattle.ruby_parse_steps.specs.Postfixes as spec;

use crate::operators::{method_call, method_call_with};
use ruby_types::{Expr, Exprs, Text};
use std::alloc::{AllocError, Global};

/// What may stand behind an expression.
#[derive(Drop)]
pub enum Postfix {
    /// `.name` or `.name(..)`
    Call(Text, Exprs),
    /// `[i]`
    Index(Expr),
}

/// The expression with this behind it.
pub fn with_postfix(alloc: Global, x: Expr, postfix: Postfix) -> Result<Expr, AllocError>
    ensures { IfOk result (λ y. y ≡ spec.with_postfix x postfix) }
{
    match postfix {
        Postfix::Call(name, args) => method_call(alloc, x, name, args),
        Postfix::Index(i) => method_call_with(alloc, x, b"[]", i),
    }
}
