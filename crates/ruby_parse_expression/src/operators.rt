//! Expressions: choices, operators and unary operators.

ghost use Rattle.std.specs.Prelude.{◌≡◌, ◌≤◌, ◌<◌, ◌∷◌, ◌++◌, [], length, OnOk};
ghost use Rattle.ruby_grammar.specs.Rules as rules;
ghost use Rattle.ruby_parse_steps.specs.Gives.{GivesRule};
ghost use Rattle.ruby_parse_steps.specs.Scopes.{scope_view};
ghost use Rattle.ruby_parse_steps.specs.Levels.{level_view};

use crate::primary::postfix;
use ruby_parse_cursor::terminals::{ASK, MINUS, NOT};
use ruby_parse_cursor::{Cursor, Fault};
use ruby_parse_steps::{
    Level, Open, Scope, end_choices, is_operator, minus_call, negated, operation, push_open,
};
use ruby_types::Expr;

/// An expression. Choices inside choices open no level, and are read with a stack of their own.
#[cycle(expression)]
pub fn expression<'a>(scope: Scope<'_, 'a>, cursor: &mut Cursor<'a>) -> Result<Expr, Fault>
    ensures reads { GivesRule (rules.expression (scope_view scope.entry)) cursor.old result cursor.new }
    ensures shorter { length cursor.new ≤ length cursor.old }
    ensures taken { OnOk result (length cursor.new < length cursor.old) }
{
    let mut opens = Vec::new(scope.alloc);
    'values: loop {
        let value = operators(scope, Level::Disjunctions, cursor)?;
        if cursor.sees(ASK) {
            cursor.skip();
            push_open(&mut opens, Open::Test(value))?;
            continue;
        }
        match end_choices(scope, &mut opens, value, cursor)? {
            Some(value) => return Ok(value),
            None => {}
        }
    }
}

/// Operands with operators of this level and of tighter ones between them, by one loop: behind an operand come the
/// operators of each level, from the tightest on.
#[cycle(expression)]
fn operators<'a>(
    scope: Scope<'_, 'a>,
    loosest: Level,
    cursor: &mut Cursor<'a>,
) -> Result<Expr, Fault>
    ensures reads { GivesRule (rules.operators (level_view loosest) (scope_view scope.entry)) cursor.old result
        cursor.new }
    ensures shorter { length cursor.new ≤ length cursor.old }
    ensures taken { OnOk result (length cursor.new < length cursor.old) }
{
    let mut x = unary(scope, cursor)?;
    let mut level = Level::Units;
    'levels: while loosest.is_looser_than(level) {
        if !is_operator(cursor.peek_terminal()) {
            return Ok(x);
        }
        level = level.looser();
        x = more_operators(scope, level, x, cursor)?;
    }
    Ok(x)
}

/// What follows the first operand of a level: operators of the level, each with its second operand.
#[cycle(expression)]
fn more_operators<'a>(
    scope: Scope<'_, 'a>,
    level: Level,
    first: Expr,
    cursor: &mut Cursor<'a>,
) -> Result<Expr, Fault>
    ensures reads { GivesRule (rules.more_operators (level_view level) (scope_view scope.entry) first) cursor.old
        result cursor.new }
    ensures shorter { length cursor.new ≤ length cursor.old }
{
    let mut x = first;
    'operands: while level.has(cursor.peek_terminal()) {
        let terminal = cursor.peek_terminal();
        let operator = cursor.take_word(terminal)?;
        let y = operators(scope, level.operand_level(), cursor)?;
        x = operation(scope.alloc, terminal, operator, x, y)?;
        if !level.repeats() {
            return Ok(x);
        }
    }
    Ok(x)
}

/// `!x`, `-x`, or an operand without these.
#[cycle(expression)]
fn unary<'a>(scope: Scope<'_, 'a>, cursor: &mut Cursor<'a>) -> Result<Expr, Fault>
    ensures reads { GivesRule (rules.unary (scope_view scope.entry)) cursor.old result cursor.new }
    ensures shorter { length cursor.new ≤ length cursor.old }
    ensures taken { OnOk result (length cursor.new < length cursor.old) }
{
    if cursor.sees(NOT) {
        let inner = scope.inner()?;
        cursor.skip();
        let x = unary(inner, cursor)?;
        Ok(negated(scope.alloc, x)?)
    } else if cursor.sees(MINUS) {
        let inner = scope.inner()?;
        cursor.skip();
        let x = unary(inner, cursor)?;
        Ok(minus_call(scope.alloc, x)?)
    } else {
        postfix(scope, cursor)
    }
}
