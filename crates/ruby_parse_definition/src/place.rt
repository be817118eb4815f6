//! Where a definition stands.

ghost use Rattle.std.specs.Prelude.{◌≡◌, ◌≤◌, ◌||◌, ◌&&◌, not, [], length};
ghost use Rattle.descent.specs.Reading.{head};
ghost use Rattle.ruby_grammar.specs.Choices.{next_is, starts_top, starts_member, starts_definition};
ghost use Rattle.ruby_grammar.specs.Rules as rules;
ghost use Rattle.ruby_grammar.specs.Statements.{scope};
ghost use Rattle.ruby_parse_steps.specs.Gives.{GivesRule};

use ruby_parse_cursor::terminals::CONST;
use ruby_parse_cursor::{Cursor, Fault, Locals};
use ruby_parse_expression::expression;
use ruby_parse_marks::Marks;
use ruby_parse_steps::Scope;
use ruby_types::Expr;
use ruby_words::{ATTR_READER, CLASS, DEF, INCLUDE, MODULE};
use std::alloc::Global;

/// The levels of nesting that may still open.
#[derive(Clone, Copy)]
pub struct Place {
    pub alloc: Global,
    pub levels: u32,
}

/// Whether a definition that may stand anywhere is at hand.
fn begins_top(cursor: &Cursor<'_>) -> bool
    ensures { result ≡ next_is starts_top (head cursor.now) }
{
    cursor.sees(CONST) || cursor.sees(MODULE) || cursor.sees(CLASS)
}

/// Whether a definition that stands only inside another one is at hand.
fn begins_member(cursor: &Cursor<'_>) -> bool
    ensures { result ≡ next_is starts_member (head cursor.now) }
{
    cursor.sees(INCLUDE) || cursor.sees(ATTR_READER) || cursor.sees(DEF)
}

/// Whether a definition is at hand that may stand in the module or class that is open.
pub fn begins(marks: &Marks, cursor: &Cursor<'_>) -> bool
    ensures { result ≡ next_is (starts_definition marks.now.here) (head cursor.now) }
{
    begins_top(cursor) || (!marks.is_top() && begins_member(cursor))
}

impl Place {
    /// An expression here. No variable is known outside methods.
    pub fn expression(self, cursor: &mut Cursor<'_>) -> Result<Expr, Fault>
        ensures reads { GivesRule (rules.expression (scope self.levels [])) cursor.old result cursor.new }
        ensures shorter { length cursor.new ≤ length cursor.old }
    {
        let locals = Locals::new(self.alloc);
        let scope = Scope {
            alloc: self.alloc,
            levels: self.levels,
            locals: &locals,
        };
        expression(scope, cursor)
    }
}
