//! What operators work on: values, names, calls, brackets.

ghost use Rattle.std.specs.Prelude.{◌≡◌, ◌≢◌, ◌≤◌, ◌<◌, [], drop, length, true, false, None, Ok, OnOk, IfOk, IfSome};
ghost use Rattle.descent.specs.Reading.{head};
ghost use Rattle.ruby_grammar.specs.Choices.{next_is};
ghost use Rattle.ruby_grammar.specs.Terminals.{is_dot, is_tight_bracket, is_tight_paren};
ghost use Rattle.ruby_grammar.specs.Rules as rules;
ghost use Rattle.ruby_parse_cursor.specs.Views.{head_terminal};
ghost use Rattle.ruby_parse_steps.specs.Gives.{GivesRule};
ghost use Rattle.ruby_parse_steps.specs.Postfixes.{GivesPostfix, GivesPerhapsPostfix};
ghost use Rattle.ruby_parse_steps.specs.Primaries.{nests, opens_bracket, begins_double, GivesArguments};
ghost use Rattle.ruby_parse_steps.specs.Scopes.{scope_view};

use crate::arguments::{members, pairs};
use crate::operators::expression;
use case_table::cases;
use ruby_parse_cursor::terminals::{
    CLOSE_BRACE, CLOSE_BRACKET, CLOSE_PAREN, CONST, DOT, INSIDE_CLOSE, INSIDE_OPEN, INT, IVAR,
    NAME, OPEN_BRACE, OPEN_BRACKET, OPEN_PAREN, PATH, SYM, TEXT_CLOSE, TEXT_OPEN, TEXT_PIECE,
};
use ruby_parse_cursor::{Cursor, Fault, behind_sign, plain_part};
use ruby_parse_steps::{Postfix, Scope, constant, with_postfix};
use ruby_types::{Expr, Exprs, Part, Parts, Text};
use ruby_words::{FALSE, NIL, SELF, TRUE};

/// A primary and the calls and indexes behind it.
#[cycle(expression)]
pub fn postfix<'a>(scope: Scope<'_, 'a>, cursor: &mut Cursor<'a>) -> Result<Expr, Fault>
    ensures reads { GivesRule (rules.postfix (scope_view scope.entry)) cursor.old result cursor.new }
    ensures shorter { length cursor.new ≤ length cursor.old }
    ensures taken { OnOk result (length cursor.new < length cursor.old) }
{
    let mut x = primary(scope, cursor)?;
    'calls: while let Some(part) = perhaps_postfix(scope, cursor)? {
        x = with_postfix(scope.alloc, x, part)?;
    }
    Ok(x)
}

/// A call or an index behind an expression, or none.
#[cycle(expression)]
fn perhaps_postfix<'a>(
    scope: Scope<'_, 'a>,
    cursor: &mut Cursor<'a>,
) -> Result<Option<Postfix>, Fault>
    ensures reads { GivesPerhapsPostfix (scope_view scope.entry) cursor.old result cursor.new }
    ensures shorter { length cursor.new ≤ length cursor.old }
    ensures taken { IfOk result (λ o. IfSome o (λ p. length cursor.new < length cursor.old)) }
{
    if cursor.sees(DOT) {
        Ok(Some(member(scope, cursor)?))
    } else if cursor.sees_tight(OPEN_BRACKET) {
        Ok(Some(index(scope, cursor)?))
    } else {
        Ok(None)
    }
}

/// `.name` or `.name(..)` behind an expression.
#[cycle(expression)]
fn member<'a>(scope: Scope<'_, 'a>, cursor: &mut Cursor<'a>) -> Result<Postfix, Fault>
    requires { next_is is_dot (head cursor.old) ≡ true }
    ensures reads { GivesPostfix (scope_view scope.entry) cursor.old result cursor.new }
    ensures shorter { length cursor.new ≤ length cursor.old }
    ensures taken { OnOk result (length cursor.new < length cursor.old) }
{
    cursor.skip();
    let word = cursor.take_word(NAME)?;
    let name = Text::from_bytes(scope.alloc, word.text)?;
    let args = perhaps_arguments(scope, cursor)?;
    Ok(Postfix::Call(name, args))
}

/// `[i]` behind an expression.
#[cycle(expression)]
fn index<'a>(scope: Scope<'_, 'a>, cursor: &mut Cursor<'a>) -> Result<Postfix, Fault>
    requires { next_is is_tight_bracket (head cursor.old) ≡ true }
    ensures reads { GivesPostfix (scope_view scope.entry) cursor.old result cursor.new }
    ensures shorter { length cursor.new ≤ length cursor.old }
    ensures taken { OnOk result (length cursor.new < length cursor.old) }
{
    let inner = scope.inner()?;
    cursor.skip();
    let i = expression(inner, cursor)?;
    cursor.take(CLOSE_BRACKET)?;
    Ok(Postfix::Index(i))
}

/// Arguments in parentheses.
#[cycle(expression)]
fn arguments<'a>(scope: Scope<'_, 'a>, cursor: &mut Cursor<'a>) -> Result<Exprs, Fault>
    requires { next_is is_tight_paren (head cursor.old) ≡ true }
    ensures reads { GivesArguments (scope_view scope.entry) cursor.old result cursor.new }
    ensures shorter { length cursor.new ≤ length cursor.old }
{
    let inner = scope.inner()?;
    cursor.skip();
    let args = members(inner, cursor)?;
    cursor.take(CLOSE_PAREN)?;
    Ok(args)
}

/// Arguments in parentheses directly behind a name, or none.
#[cycle(expression)]
fn perhaps_arguments<'a>(scope: Scope<'_, 'a>, cursor: &mut Cursor<'a>) -> Result<Exprs, Fault>
    ensures reads { GivesRule (rules.perhaps_arguments (scope_view scope.entry)) cursor.old result cursor.new }
    ensures shorter { length cursor.new ≤ length cursor.old }
{
    if cursor.sees_tight(OPEN_PAREN) {
        arguments(scope, cursor)
    } else {
        Ok(Exprs::new(scope.alloc))
    }
}

/// A value, a name, or what stands in brackets.
#[cycle(expression)]
fn primary<'a>(scope: Scope<'_, 'a>, cursor: &mut Cursor<'a>) -> Result<Expr, Fault>
    ensures reads { GivesRule (rules.primary (scope_view scope.entry)) cursor.old result cursor.new }
    ensures shorter { length cursor.new ≤ length cursor.old }
    ensures taken { OnOk result (length cursor.new < length cursor.old) }
{
    match cursor.peek_terminal() {
        NAME => name(scope, cursor),
        TEXT_OPEN => text(scope, cursor),
        CONST | PATH => Ok(Expr::Const(constant(scope.alloc, cursor)?)),
        OPEN_PAREN | OPEN_BRACKET | OPEN_BRACE => bracket(scope, cursor),
        _ => literal(scope, cursor),
    }
}

/// A word that is an expression by itself.
fn literal<'a>(scope: Scope<'_, 'a>, cursor: &mut Cursor<'a>) -> Result<Expr, Fault>
    requires { nests (head_terminal cursor.old) ≡ false }
    ensures reads { GivesRule (rules.primary (scope_view scope.entry)) cursor.old result cursor.new }
    ensures shorter { length cursor.new ≤ length cursor.old }
    ensures taken { OnOk result (length cursor.new < length cursor.old) }
{
    match cursor.peek_terminal() {
        INT => Ok(Expr::Int(cursor.take_number()?)),
        SYM => {
            let word = cursor.take_word(SYM)?;
            Ok(Expr::Sym(Text::from_bytes(scope.alloc, behind_sign(word.text))?))
        }
        IVAR => {
            let word = cursor.take_word(IVAR)?;
            Ok(Expr::Ivar(Text::from_bytes(scope.alloc, behind_sign(word.text))?))
        }
        _ => reserved(cursor),
    }
}

/// Passes over the word at hand, which stands for this value.
fn passed(value: Expr, cursor: &mut Cursor<'_>) -> Result<Expr, Fault>
    ensures value { result ≡ Ok value }
    ensures passed { cursor.new ≡ drop 1 cursor.old }
{
    cursor.skip();
    Ok(value)
}

/// A reserved word that is an expression by itself.
fn reserved(cursor: &mut Cursor<'_>) -> Result<Expr, Fault>
    requires nests { nests (head_terminal cursor.old) ≡ false }
    requires no_number { head_terminal cursor.old ≢ 55 }
    requires no_symbol { head_terminal cursor.old ≢ 54 }
    requires no_variable { head_terminal cursor.old ≢ 52 }
    ensures reads { (here : rules.Scope) → GivesRule (rules.primary here) cursor.old result cursor.new }
    ensures shorter { length cursor.new ≤ length cursor.old }
    ensures taken { OnOk result (length cursor.new < length cursor.old) }
{
    cases!(cursor.peek_code();
        NIL => passed(Expr::Nil, cursor),
        TRUE => passed(Expr::True, cursor),
        FALSE => passed(Expr::False, cursor),
        SELF => passed(Expr::SelfRef, cursor);
        Err(Fault::Unexpected)
    )
}

fn call_on_self(name: Text, args: Exprs) -> Expr
    ensures { result ≡ Expr.Call None name args }
{
    Expr::Call {
        on: None,
        name,
        args,
    }
}

/// A local variable, or a call on self.
#[cycle(expression)]
fn name<'a>(scope: Scope<'_, 'a>, cursor: &mut Cursor<'a>) -> Result<Expr, Fault>
    requires { head_terminal cursor.old ≡ 0 }
    ensures reads { GivesRule (rules.primary (scope_view scope.entry)) cursor.old result cursor.new }
    ensures shorter { length cursor.new ≤ length cursor.old }
    ensures taken { OnOk result (length cursor.new < length cursor.old) }
{
    let word = cursor.take_word(NAME)?;
    let name = Text::from_bytes(scope.alloc, word.text)?;
    if cursor.sees_tight(OPEN_PAREN) {
        let args = arguments(scope, cursor)?;
        Ok(call_on_self(name, args))
    } else if scope.locals.contains(word.text) {
        Ok(Expr::Local(name))
    } else {
        Ok(call_on_self(name, Exprs::new(scope.alloc)))
    }
}

/// A list, a hash, or an expression in parentheses.
#[cycle(expression)]
fn bracket<'a>(scope: Scope<'_, 'a>, cursor: &mut Cursor<'a>) -> Result<Expr, Fault>
    requires { opens_bracket (head_terminal cursor.old) ≡ true }
    ensures reads { GivesRule (rules.primary (scope_view scope.entry)) cursor.old result cursor.new }
    ensures shorter { length cursor.new ≤ length cursor.old }
    ensures taken { OnOk result (length cursor.new < length cursor.old) }
{
    let inner = scope.inner()?;
    if cursor.sees(OPEN_BRACKET) {
        cursor.skip();
        let list = members(inner, cursor)?;
        cursor.take(CLOSE_BRACKET)?;
        Ok(Expr::Array(list))
    } else if cursor.sees(OPEN_BRACE) {
        cursor.skip();
        let list = pairs(inner, cursor)?;
        cursor.take(CLOSE_BRACE)?;
        Ok(Expr::Hash(list))
    } else {
        cursor.skip();
        let x = expression(inner, cursor)?;
        cursor.take(CLOSE_PAREN)?;
        Ok(x)
    }
}

/// A text in single or double quotes.
#[cycle(expression)]
fn text<'a>(scope: Scope<'_, 'a>, cursor: &mut Cursor<'a>) -> Result<Expr, Fault>
    requires { head_terminal cursor.old ≡ 56 }
    ensures reads { GivesRule (rules.primary (scope_view scope.entry)) cursor.old result cursor.new }
    ensures shorter { length cursor.new ≤ length cursor.old }
    ensures taken { OnOk result (length cursor.new < length cursor.old) }
{
    let open = cursor.take_word(TEXT_OPEN)?;
    let parts = text_parts(scope, is_double(open.text), cursor)?;
    cursor.take(TEXT_CLOSE)?;
    Ok(Expr::Str(parts))
}

/// Whether a text opens with a double quote.
fn is_double(quote: &[u8]) -> bool
    ensures { result ≡ begins_double quote.now }
{
    match quote {
        [] => false,
        [byte, ..] => *byte == b'"',
    }
}

/// The pieces of a text, and the expressions inside it.
#[cycle(expression)]
fn text_parts<'a>(
    scope: Scope<'_, 'a>,
    is_double: bool,
    cursor: &mut Cursor<'a>,
) -> Result<Parts, Fault>
    ensures reads { GivesRule (rules.text_parts (scope_view scope.entry) is_double []) cursor.old result cursor.new }
    ensures shorter { length cursor.new ≤ length cursor.old }
{
    let mut parts = Parts::new(scope.alloc);
    'parts: loop {
        if cursor.sees(TEXT_PIECE) {
            let piece = cursor.take_word(TEXT_PIECE)?;
            parts.push(plain_part(scope.alloc, is_double, piece.text)?)?;
        } else if cursor.sees(INSIDE_OPEN) {
            let inner = scope.inner()?;
            cursor.skip();
            parts.push(Part::Inside(expression(inner, cursor)?))?;
            cursor.take(INSIDE_CLOSE)?;
        } else {
            return Ok(parts);
        }
    }
}
