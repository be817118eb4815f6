//! Choices that were begun, and how they end.

ghost use Rattle.std.specs.Prelude.{◌≡◌, ◌≤◌, ◌∷◌, ◌++◌, [], length, OnOk};
ghost use Rattle.ruby_parse_steps.specs.Scopes.{scope_view};
ghost use Rattle.ruby_parse_steps.specs.Opens.{GivesEnded};

use crate::operators::choice_of;
use crate::scope::Scope;
use ruby_parse_cursor::terminals::COLON;
use ruby_parse_cursor::{Cursor, Fault};
use ruby_types::Expr;
use std::alloc::AllocError;

/// A choice whose end wasn't read yet: `test ?`, or `test ? value :`.
#[derive(Drop)]
pub enum Open {
    Test(Expr),
    Other(Expr, Expr),
}

/// Begins one more choice.
pub fn push_open(opens: &mut Vec<Open>, begun: Open) -> Result<(), AllocError>
    ensures { OnOk result (opens.new.items ≡ opens.old.items ++ begun ∷ []) }
{
    opens.push(begun)?;
    Ok(())
}

/// Ends each choice that ends with this value. None where one goes on behind its `:`.
pub fn end_choices(
    scope: Scope<'_, '_>,
    opens: &mut Vec<Open>,
    value: Expr,
    cursor: &mut Cursor<'_>,
) -> Result<Option<Expr>, Fault>
    ensures reads { GivesEnded (scope_view scope.entry) opens.old.items value cursor.old result opens.new.items
        cursor.new }
    ensures shorter { length cursor.new ≤ length cursor.old }
{
    let mut value = value;
    'opens: loop {
        match opens.pop() {
            None => return Ok(Some(value)),
            Some(Open::Other(test, first)) => value = choice_of(scope.alloc, test, first, value)?,
            Some(Open::Test(test)) => {
                cursor.take(COLON)?;
                push_open(opens, Open::Other(test, value))?;
                return Ok(None);
            }
        }
    }
}
