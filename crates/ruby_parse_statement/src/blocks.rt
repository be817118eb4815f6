//! What a block `if` is made of.

ghost use Rattle.std.specs.Prelude.{◌≡◌, ◌≤◌, ◌&&◌, ◌||◌, ◌∷◌, ◌++◌, [], not, length, Ok, IfOk, OnOk};
ghost use Rattle.descent.specs.Reading.{head};
ghost use Rattle.ruby_grammar.specs.Terminals.{is_if, is_unless, is_else, is_elsif};
ghost use Rattle.ruby_grammar.specs.Choices.{next_is};
ghost use Rattle.ruby_grammar.specs.Statements.{scope};
ghost use Rattle.ruby_grammar.specs.Rules as rules;
ghost use Rattle.ruby_parse_steps.specs.Gives.{GivesRule};
ghost use Rattle.ruby_parse_statement.specs.Arms.{tested, GivesTest};

use crate::body::Body;
use ruby_parse_cursor::terminals::LINE;
use ruby_parse_cursor::{Cursor, Fault, Locals};
use ruby_parse_steps::negated;
use ruby_types::{Arms, Expr, Stmts};
use ruby_words::{ELSE, ELSIF, IF, THEN, UNLESS};
use std::alloc::{AllocError, Global};

/// Statements. `closed` says that the last one has its Line, or that there is none.
#[derive(Drop)]
pub struct Block {
    pub statements: Stmts,
    pub closed: bool,
}

/// Whether `if` or `unless` is at hand.
pub fn begins_block(cursor: &Cursor<'_>) -> bool
    ensures { result ≡ (next_is is_if (head cursor.now) || next_is is_unless (head cursor.now)) }
{
    cursor.sees(IF) || cursor.sees(UNLESS)
}

/// Adds an arm.
pub fn add_arm(arms: &mut Arms, test: Expr, statements: Stmts) -> Result<(), AllocError>
    ensures { OnOk result (arms.new ≡ arms.old ++ (test, statements) ∷ []) }
{
    arms.push((test, statements))?;
    Ok(())
}

/// The condition of `if` or, where the flag is true, of `unless`.
fn tested(alloc: Global, is_unless: bool, test: Expr) -> Result<Expr, AllocError>
    ensures { IfOk result (λ x. x ≡ tested is_unless test) }
{
    if is_unless {
        negated(alloc, test)
    } else {
        Ok(test)
    }
}

/// Passes over a Line, if one is at hand.
pub fn perhaps_line(cursor: &mut Cursor<'_>)
    ensures reads { GivesRule rules.perhaps_line cursor.old (Ok tt) cursor.new }
    ensures shorter { length cursor.new ≤ length cursor.old }
{
    if cursor.sees(LINE) {
        cursor.skip();
    }
}

/// `then`, perhaps with a Line behind it, or a Line.
fn then_or_line(cursor: &mut Cursor<'_>) -> Result<(), Fault>
    ensures reads { GivesRule rules.then_or_line cursor.old result cursor.new }
    ensures shorter { length cursor.new ≤ length cursor.old }
{
    if cursor.sees(THEN) {
        cursor.skip();
        perhaps_line(cursor);
        Ok(())
    } else {
        cursor.take(LINE)
    }
}

/// A condition, which `unless` turns round, with its `then` or Line.
pub fn arm_condition<'a>(
    body: Body,
    is_unless: bool,
    locals: &Locals<'a>,
    cursor: &mut Cursor<'a>,
) -> Result<Expr, Fault>
    ensures reads { GivesTest (scope body.levels locals.now) is_unless cursor.old result cursor.new }
    ensures shorter { length cursor.new ≤ length cursor.old }
{
    let test = body.expression(locals, cursor)?;
    let test = tested(body.alloc, is_unless, test)?;
    then_or_line(cursor)?;
    Ok(test)
}

/// Whether an `elsif` is at hand that goes on with the arms.
pub fn goes_on(closed: bool, is_unless: bool, cursor: &Cursor<'_>) -> bool
    ensures { result ≡ (closed && (not is_unless && next_is is_elsif (head cursor.now))) }
{
    closed && !is_unless && cursor.sees(ELSIF)
}

/// Whether an `else` is at hand that may follow the arms.
pub fn has_else(closed: bool, cursor: &Cursor<'_>) -> bool
    ensures { result ≡ (closed && next_is is_else (head cursor.now)) }
{
    closed && cursor.sees(ELSE)
}
