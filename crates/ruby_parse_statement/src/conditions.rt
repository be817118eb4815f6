//! Statements without a block, and conditions behind them.

ghost use Rattle.std.specs.Prelude.{◌≡◌, ◌≤◌, ◌||◌, ◌∷◌, [], true, false, length, IfOk, IfErr};
ghost use Rattle.descent.specs.Reading.{head};
ghost use Rattle.ruby_grammar.specs.Terminals.{is_if, is_unless};
ghost use Rattle.ruby_grammar.specs.Choices.{next_is};
ghost use Rattle.ruby_grammar.specs.Rules as rules;
ghost use Rattle.ruby_parse_steps.specs.Gives.{GivesRule};
ghost use Rattle.ruby_parse_statement.specs.Answers.{known_as, conditioned, GivesCondition};
ghost use Rattle.ruby_parse_statement.specs.Places.{around_view};

use crate::body::Body;
use crate::simple::simple_statement;
use ruby_parse_cursor::{Cursor, Fault, Locals};
use ruby_parse_steps::negated;
use ruby_types::{Arms, Expr, Stmt, Stmts};
use ruby_words::{IF, UNLESS};
use std::alloc::Global;

/// An `if` with one arm behind its statement.
fn if_behind(alloc: Global, test: Expr, statement: Stmt) -> Result<Stmt, Fault>
    ensures ok { IfOk result (λ s. s ≡ Stmt.If ((test, statement ∷ []) ∷ []) [] true) }
    ensures fault { IfErr result (λ e. e ≡ Fault.Memory) }
{
    let mut statements = Stmts::new(alloc);
    statements.push(statement)?;
    let mut arms = Arms::new(alloc);
    arms.push((test, statements))?;
    Ok(Stmt::If {
        arms,
        other: Stmts::new(alloc),
        after: true,
    })
}

/// The statement with the condition behind it, if there is one.
fn with_condition(alloc: Global, statement: Stmt, condition: Option<Expr>) -> Result<Stmt, Fault>
    ensures ok { IfOk result (λ s. s ≡ conditioned statement condition) }
    ensures fault { IfErr result (λ e. e ≡ Fault.Memory) }
{
    match condition {
        None => Ok(statement),
        Some(test) => if_behind(alloc, test, statement),
    }
}

/// Perhaps `if` or `unless` and a condition, which `unless` turns round.
fn perhaps_condition<'a>(
    body: Body,
    locals: &Locals<'a>,
    cursor: &mut Cursor<'a>,
) -> Result<Option<Expr>, Fault>
    ensures reads { GivesCondition body.levels locals.now cursor.old result cursor.new }
    ensures shorter { length cursor.new ≤ length cursor.old }
{
    if cursor.sees(IF) {
        cursor.skip();
        Ok(Some(body.expression(locals, cursor)?))
    } else if cursor.sees(UNLESS) {
        cursor.skip();
        let test = body.expression(locals, cursor)?;
        Ok(Some(negated(body.alloc, test)?))
    } else {
        Ok(None)
    }
}

/// A simple statement, perhaps with `if` or `unless` and a condition behind it.
pub fn statement_without_block<'a>(
    body: Body,
    locals: &mut Locals<'a>,
    cursor: &mut Cursor<'a>,
) -> Result<Stmt, Fault>
    requires { (next_is is_if (head cursor.old) || next_is is_unless (head cursor.old)) ≡ false }
    ensures reads { GivesRule (rules.statement (around_view body locals.old)) cursor.old
        (known_as locals.new result) cursor.new }
    ensures shorter { length cursor.new ≤ length cursor.old }
{
    let statement = simple_statement(body, locals, cursor)?;
    let condition = perhaps_condition(body, locals, cursor)?;
    with_condition(body.alloc, statement, condition)
}
