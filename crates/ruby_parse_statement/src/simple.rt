//! Statements that have no `if` or `unless` of their own.

ghost use Rattle.std.specs.Prelude.{◌≡◌, ◌≤◌, ◌&&◌, ◌∷◌, true, false, length, IfOk, IfErr, OnErr};
ghost use Rattle.descent.specs.Reading.{head, second};
ghost use Rattle.ruby_grammar.specs.Terminals.{is_variable, is_ivar, is_assign, is_return, is_raise};
ghost use Rattle.ruby_grammar.specs.Choices.{next_is};
ghost use Rattle.ruby_grammar.specs.Rules as rules;
ghost use Rattle.ruby_grammar.specs.Statements.{returning, raising, setting, setting_ivar, evaluating};
ghost use Rattle.ruby_parse_cursor.specs.Views.{word_view};
ghost use Rattle.ruby_parse_steps.specs.Gives.{Gives, GivesRule};
ghost use Rattle.ruby_parse_statement.specs.Answers.{known_as};
ghost use Rattle.ruby_parse_statement.specs.Places.{around_view};

use crate::body::Body;
use case_table::cases;
use ruby_parse_cursor::terminals::{ASSIGN, IVAR, NAME};
use ruby_parse_cursor::{Cursor, Fault, Locals, Word, behind_sign, ends_in_suffix};
use ruby_types::{Stmt, Text};
use ruby_words::{RAISE, RETURN};

/// `return` with perhaps a value.
fn returned<'a>(body: Body, locals: &Locals<'a>, cursor: &mut Cursor<'a>) -> Result<Stmt, Fault>
    ensures reads { Gives (returning (around_view body locals.now)) cursor.old (known_as locals.now result) cursor.new }
    ensures shorter { length cursor.new ≤ length cursor.old }
{
    cursor.take(RETURN)?;
    Ok(Stmt::Return(body.perhaps_expression(locals, cursor)?))
}

fn raised<'a>(body: Body, locals: &Locals<'a>, cursor: &mut Cursor<'a>) -> Result<Stmt, Fault>
    ensures reads { Gives (raising (around_view body locals.now)) cursor.old (known_as locals.now result) cursor.new }
    ensures shorter { length cursor.new ≤ length cursor.old }
{
    cursor.take(RAISE)?;
    Ok(Stmt::Raise(body.expression(locals, cursor)?))
}

/// An expression alone.
fn evaluated<'a>(body: Body, locals: &Locals<'a>, cursor: &mut Cursor<'a>) -> Result<Stmt, Fault>
    ensures reads { Gives (evaluating (around_view body locals.now)) cursor.old
        (known_as locals.now result) cursor.new }
    ensures shorter { length cursor.new ≤ length cursor.old }
{
    Ok(Stmt::Expr(body.expression(locals, cursor)?))
}

/// Whether a name that can be a variable is at hand. With a suffix it can't be one.
fn sees_variable(cursor: &Cursor<'_>) -> bool
    ensures { result ≡ next_is is_variable (head cursor.now) }
{
    match cursor.peek_word() {
        Some(word) => cursor.sees(NAME) && !ends_in_suffix(word.text),
        None => false,
    }
}

/// Passes over a name that can be a variable, which has to be at hand, and gives it.
fn take_variable<'a>(cursor: &mut Cursor<'a>) -> Result<Word<'a>, Fault>
    ensures ok { IfOk result (λ w. cursor.old ≡ word_view w ∷ cursor.new) }
    ensures variable { IfOk result (λ w. is_variable (word_view w) ≡ true) }
    ensures fault { IfErr result (λ e. e ≡ Fault.Unexpected) }
    ensures stays { OnErr result (cursor.new ≡ cursor.old) }
    ensures other { OnErr result (next_is is_variable (head cursor.old) ≡ false) }
{
    if sees_variable(cursor) {
        cursor.take_word(NAME)
    } else {
        Err(Fault::Unexpected)
    }
}

/// `name = value`. The name is a variable from its `=` on.
fn set_local<'a>(
    body: Body,
    locals: &mut Locals<'a>,
    cursor: &mut Cursor<'a>,
) -> Result<Stmt, Fault>
    ensures reads { Gives (setting (around_view body locals.old)) cursor.old (known_as locals.new result) cursor.new }
    ensures shorter { length cursor.new ≤ length cursor.old }
{
    let word = take_variable(cursor)?;
    cursor.take(ASSIGN)?;
    let name = Text::from_bytes(body.alloc, word.text)?;
    locals.insert(word.text)?;
    let value = body.expression(locals, cursor)?;
    Ok(Stmt::Set { name, value })
}

/// `@name = value`
fn set_ivar<'a>(body: Body, locals: &Locals<'a>, cursor: &mut Cursor<'a>) -> Result<Stmt, Fault>
    ensures reads { Gives (setting_ivar (around_view body locals.now)) cursor.old
        (known_as locals.now result) cursor.new }
    ensures shorter { length cursor.new ≤ length cursor.old }
{
    let word = cursor.take_word(IVAR)?;
    cursor.take(ASSIGN)?;
    let name = Text::from_bytes(body.alloc, behind_sign(word.text))?;
    let value = body.expression(locals, cursor)?;
    Ok(Stmt::SetIvar { name, value })
}

/// Whether a variable and `=` are at hand.
fn sets(cursor: &Cursor<'_>) -> bool
    ensures { result ≡ (next_is is_variable (head cursor.now) && next_is is_assign (second cursor.now)) }
{
    sees_variable(cursor) && cursor.sees_assign_behind()
}

/// Whether an instance variable and `=` are at hand.
fn sets_ivar(cursor: &Cursor<'_>) -> bool
    ensures { result ≡ (next_is is_ivar (head cursor.now) && next_is is_assign (second cursor.now)) }
{
    cursor.sees(IVAR) && cursor.sees_assign_behind()
}

/// `name = value`, `@name = value`, which may stand in `initialize` alone, or an expression.
fn set_or_evaluated<'a>(
    body: Body,
    locals: &mut Locals<'a>,
    cursor: &mut Cursor<'a>,
) -> Result<Stmt, Fault>
    requires no_return { next_is is_return (head cursor.old) ≡ false }
    requires no_raise { next_is is_raise (head cursor.old) ≡ false }
    ensures reads { GivesRule (rules.simple_statement (around_view body locals.old)) cursor.old
        (known_as locals.new result) cursor.new }
    ensures shorter { length cursor.new ≤ length cursor.old }
{
    if sets(cursor) {
        set_local(body, locals, cursor)
    } else if !sets_ivar(cursor) {
        evaluated(body, locals, cursor)
    } else if body.may_set {
        set_ivar(body, locals, cursor)
    } else {
        cursor.skip();
        Err(Fault::Barred)
    }
}

/// What has no `if` or `unless` of its own.
pub fn simple_statement<'a>(
    body: Body,
    locals: &mut Locals<'a>,
    cursor: &mut Cursor<'a>,
) -> Result<Stmt, Fault>
    ensures reads { GivesRule (rules.simple_statement (around_view body locals.old)) cursor.old
        (known_as locals.new result) cursor.new }
    ensures shorter { length cursor.new ≤ length cursor.old }
{
    cases!(cursor.peek_code();
        RETURN => returned(body, locals, cursor),
        RAISE => raised(body, locals, cursor);
        set_or_evaluated(body, locals, cursor)
    )
}
