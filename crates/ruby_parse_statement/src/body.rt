//! Where a statement stands.

ghost use Rattle.std.specs.Prelude.{◌≡◌, ◌≤◌, ◌<◌, suc, length, IfOk, IfErr, OnOk, OnErr};
ghost use Rattle.ruby_grammar.specs.Rules as rules;
ghost use Rattle.ruby_grammar.specs.Statements.{scope};
ghost use Rattle.ruby_parse_steps.specs.Gives.{GivesRule};
ghost use Rattle.ruby_parse_steps.specs.Scopes.{scope_view};

use ruby_parse_cursor::terminals::starts_expression;
use ruby_parse_cursor::{Cursor, Fault, Locals};
use ruby_parse_expression::expression;
use ruby_parse_steps::{Scope, opened};
use ruby_types::Expr;
use std::alloc::Global;

/// The levels of nesting that may still open, and whether instance variables may be assigned.
#[derive(Clone, Copy)]
pub struct Body {
    pub alloc: Global,
    pub levels: u32,
    pub may_set: bool,
}

impl Body {
    /// The same, one level further in.
    pub fn inner(self) -> Result<Body, Fault>
        ensures left { IfOk result (λ inner. self.levels ≡ suc inner.levels) }
        ensures same { IfOk result (λ inner. inner.may_set ≡ self.may_set) }
        ensures fault { IfErr result (λ e. e ≡ Fault.Deep) }
        ensures none { OnErr result (self.levels ≡ 0) }
    {
        let levels = opened(self.levels)?;
        Ok(Body { levels, ..self })
    }

    /// An expression here, where these variables are known.
    pub fn expression<'a>(self, locals: &Locals<'a>, cursor: &mut Cursor<'a>) -> Result<Expr, Fault>
        ensures reads { GivesRule (rules.expression (scope self.levels locals.now)) cursor.old result cursor.new }
        ensures shorter { length cursor.new ≤ length cursor.old }
        ensures taken { OnOk result (length cursor.new < length cursor.old) }
    {
        let scope = Scope {
            alloc: self.alloc,
            levels: self.levels,
            locals,
        };
        expression(scope, cursor)
    }

    /// An expression, if one is at hand.
    pub fn perhaps_expression<'a>(
        self,
        locals: &Locals<'a>,
        cursor: &mut Cursor<'a>,
    ) -> Result<Option<Expr>, Fault>
        ensures reads { GivesRule (rules.perhaps_expression (scope self.levels locals.now)) cursor.old result
            cursor.new }
        ensures shorter { length cursor.new ≤ length cursor.old }
    {
        if starts_expression(cursor.peek_terminal()) {
            Ok(Some(self.expression(locals, cursor)?))
        } else {
            Ok(None)
        }
    }
}
