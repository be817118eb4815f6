//! Statements, and what is made of statements.

ghost use Rattle.std.specs.Prelude.{◌≡◌, ◌≤◌, ◌&&◌, [], false, not, length, IfOk};
ghost use Rattle.descent.specs.Reading.{head};
ghost use Rattle.ruby_grammar.specs.Terminals.{is_elsif};
ghost use Rattle.ruby_grammar.specs.Choices.{next_is};
ghost use Rattle.ruby_grammar.specs.Rules as rules;
ghost use Rattle.ruby_parse_steps.specs.Gives.{Gives, GivesRule};
ghost use Rattle.ruby_parse_statement.specs.Answers.{known_as, block_as};
ghost use Rattle.ruby_parse_statement.specs.Places.{around_view};
ghost use Rattle.ruby_parse_statement.specs.Arms.{arm_then, GivesArms, GivesElse};

use crate::blocks::{Block, add_arm, arm_condition, begins_block, goes_on, has_else, perhaps_line};
use crate::body::Body;
use crate::conditions::statement_without_block;
use ruby_parse_cursor::terminals::{LINE, starts_statement};
use ruby_parse_cursor::{Cursor, Fault, Locals};
use ruby_types::{Arms, Stmt, Stmts};
use ruby_words::{ELSE, END, UNLESS};

/// Statements, each with its Line, which the last may lack.
#[cycle(statement)]
pub fn statements<'a>(
    body: Body,
    locals: &mut Locals<'a>,
    cursor: &mut Cursor<'a>,
) -> Result<Block, Fault>
    ensures reads { GivesRule (rules.statements (around_view body locals.old) []) cursor.old
        (block_as locals.new result) cursor.new }
    ensures shorter { length cursor.new ≤ length cursor.old }
{
    let mut statements = Stmts::new(body.alloc);
    'lines: while starts_statement(cursor.peek_terminal()) {
        statements.push(statement(body, locals, cursor)?)?;
        if !cursor.sees(LINE) {
            return Ok(Block {
                statements,
                closed: false,
            });
        }
        cursor.skip();
    }
    Ok(Block {
        statements,
        closed: true,
    })
}

#[cycle(statement)]
fn statement<'a>(
    body: Body,
    locals: &mut Locals<'a>,
    cursor: &mut Cursor<'a>,
) -> Result<Stmt, Fault>
    ensures reads { GivesRule (rules.statement (around_view body locals.old)) cursor.old
        (known_as locals.new result) cursor.new }
    ensures shorter { length cursor.new ≤ length cursor.old }
{
    if begins_block(cursor) {
        let is_unless = cursor.sees(UNLESS);
        let inner = body.inner()?;
        cursor.skip();
        branches(inner, is_unless, locals, cursor)
    } else {
        statement_without_block(body, locals, cursor)
    }
}

/// What stands behind a block's `if` or, where the flag is true, `unless`: the arms and what follows them.
#[cycle(statement)]
fn branches<'a>(
    body: Body,
    is_unless: bool,
    locals: &mut Locals<'a>,
    cursor: &mut Cursor<'a>,
) -> Result<Stmt, Fault>
    ensures reads { Gives (arm_then (around_view body locals.old) is_unless []) cursor.old
        (known_as locals.new result) cursor.new }
    ensures shorter { length cursor.new ≤ length cursor.old }
{
    let mut list = Arms::new(body.alloc);
    let closed = arms(body, is_unless, &mut list, locals, cursor)?;
    if has_else(closed, cursor) {
        let other = otherwise(body, locals, cursor)?;
        return Ok(Stmt::If {
            arms: list,
            other,
            after: false,
        });
    }
    cursor.take(END)?;
    Ok(Stmt::If {
        arms: list,
        other: Stmts::new(body.alloc),
        after: false,
    })
}

/// Adds each arm, and tells whether the last statement has its Line.
#[cycle(statement)]
fn arms<'a>(
    body: Body,
    is_unless: bool,
    list: &mut Arms,
    locals: &mut Locals<'a>,
    cursor: &mut Cursor<'a>,
) -> Result<bool, Fault>
    ensures reads { GivesArms (around_view body locals.old) is_unless list.old cursor.old result list.new locals.new
        cursor.new }
    ensures last { IfOk result (λ closed. (closed && (not is_unless && next_is is_elsif (head cursor.new))) ≡ false) }
    ensures shorter { length cursor.new ≤ length cursor.old }
{
    let mut closed = arm(body, is_unless, list, locals, cursor)?;
    'further: while goes_on(closed, is_unless, cursor) {
        cursor.skip();
        closed = arm(body, false, list, locals, cursor)?;
    }
    Ok(closed)
}

/// Adds one arm: a condition, `then` or a Line, and the statements behind it.
#[cycle(statement)]
fn arm<'a>(
    body: Body,
    is_unless: bool,
    list: &mut Arms,
    locals: &mut Locals<'a>,
    cursor: &mut Cursor<'a>,
) -> Result<bool, Fault>
    ensures reads { GivesArms (around_view body locals.old) is_unless list.old cursor.old result list.new locals.new
        cursor.new }
    ensures shorter { length cursor.new ≤ length cursor.old }
{
    let test = arm_condition(body, is_unless, locals, cursor)?;
    let block = statements(body, locals, cursor)?;
    let closed = block.closed;
    add_arm(list, test, block.statements)?;
    Ok(closed)
}

/// `else`, the statements behind it, and `end`.
#[cycle(statement)]
fn otherwise<'a>(
    body: Body,
    locals: &mut Locals<'a>,
    cursor: &mut Cursor<'a>,
) -> Result<Stmts, Fault>
    ensures reads { GivesElse (around_view body locals.old) cursor.old result locals.new cursor.new }
    ensures shorter { length cursor.new ≤ length cursor.old }
{
    cursor.take(ELSE)?;
    perhaps_line(cursor);
    let block = statements(body, locals, cursor)?;
    cursor.take(END)?;
    Ok(block.statements)
}
