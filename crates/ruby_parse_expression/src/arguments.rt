//! Lists of expressions and pairs between brackets.

ghost use Rattle.std.specs.Prelude.{◌≡◌, ◌≤◌, ◌<◌, [], length, OnOk};
ghost use Rattle.ruby_parse_expression.specs.Pairs.{pair_terminal};
ghost use Rattle.ruby_grammar.specs.Rules as rules;
ghost use Rattle.ruby_parse_steps.specs.Gives.{GivesRule};
ghost use Rattle.ruby_parse_steps.specs.Scopes.{scope_view};

use crate::operators::expression;
use ruby_parse_cursor::terminals::{ARROW, COMMA, LABEL, starts_expression};
use ruby_parse_cursor::{Cursor, Fault, before_colon};
use ruby_parse_steps::Scope;
use ruby_types::{Expr, ExprPairs, Exprs, Text};

/// Expressions with commas between them. A comma may stand last.
#[cycle(expression)]
pub fn members<'a>(scope: Scope<'_, 'a>, cursor: &mut Cursor<'a>) -> Result<Exprs, Fault>
    ensures reads { GivesRule (rules.members (scope_view scope.entry) []) cursor.old result cursor.new }
    ensures shorter { length cursor.new ≤ length cursor.old }
{
    let mut list = Exprs::new(scope.alloc);
    'members: while starts_expression(cursor.peek_terminal()) {
        list.push(expression(scope, cursor)?)?;
        if !cursor.sees(COMMA) {
            return Ok(list);
        }
        cursor.skip();
    }
    Ok(list)
}

/// Whether a pair begins with a word of this terminal.
fn starts_pair(terminal: u16) -> bool
    ensures { result ≡ pair_terminal terminal }
{
    terminal == LABEL || starts_expression(terminal)
}

/// Pairs with commas between them. A comma may stand last.
#[cycle(expression)]
pub fn pairs<'a>(scope: Scope<'_, 'a>, cursor: &mut Cursor<'a>) -> Result<ExprPairs, Fault>
    ensures reads { GivesRule (rules.pairs (scope_view scope.entry) []) cursor.old result cursor.new }
    ensures shorter { length cursor.new ≤ length cursor.old }
{
    let mut list = ExprPairs::new(scope.alloc);
    'pairs: while starts_pair(cursor.peek_terminal()) {
        list.push(pair(scope, cursor)?)?;
        if !cursor.sees(COMMA) {
            return Ok(list);
        }
        cursor.skip();
    }
    Ok(list)
}

/// A label, which is a symbol, or an expression and `=>`; then the value.
#[cycle(expression)]
fn pair<'a>(scope: Scope<'_, 'a>, cursor: &mut Cursor<'a>) -> Result<(Expr, Expr), Fault>
    ensures reads { GivesRule (rules.pair (scope_view scope.entry)) cursor.old result cursor.new }
    ensures shorter { length cursor.new ≤ length cursor.old }
    ensures taken { OnOk result (length cursor.new < length cursor.old) }
{
    if cursor.sees(LABEL) {
        let label = cursor.take_word(LABEL)?;
        let name = Text::from_bytes(scope.alloc, before_colon(label.text))?;
        let value = expression(scope, cursor)?;
        Ok((Expr::Sym(name), value))
    } else {
        let key = expression(scope, cursor)?;
        cursor.take(ARROW)?;
        let value = expression(scope, cursor)?;
        Ok((key, value))
    }
}
