//! Operators with two operands, and the trees that they make.

ghost use Rattle.std.specs.Prelude.{◌≡◌, ◌∷◌, [], IfOk, codes, nat_lt};
ghost use Rattle.ruby_grammar.specs.Terminals as terminals;
ghost use Rattle.ruby_grammar.specs.Values.{operation};
ghost use Rattle.ruby_parse_cursor.specs.Views.{word_view};
ghost use Rattle.ruby_parse_steps.specs.Levels.{level_view, rank, looser, is_operator_terminal, is_any_operator};

use ruby_parse_cursor::Word;
use ruby_parse_cursor::terminals::{
    AND_ALSO, AT_LEAST, AT_MOST, DIFFERS, DIVIDE, LESS, MINUS, MODULO, MORE, OR_ELSE, PLUS, SAME,
    TIMES,
};
use ruby_types::{Expr, Exprs, Text};
use sqlite_items::Boxed;
use std::alloc::{AllocError, Global};

/// The levels of operators with two operands, from the tightest on: `*` `/` `%`, `+` `-`, comparisons, `==` `!=`,
/// `&&`, `||`.
/// `Units` has none.
#[derive(Clone, Copy)]
pub enum Level {
    Units,
    Products,
    Sums,
    Comparisons,
    Equalities,
    Conjunctions,
    Disjunctions,
}

impl Level {
    /// How loosely operators of the level bind, from 0 on.
    fn rank(self) -> u8
        ensures { result ≡ rank (level_view self) }
    {
        match self {
            Level::Units => 0,
            Level::Products => 1,
            Level::Sums => 2,
            Level::Comparisons => 3,
            Level::Equalities => 4,
            Level::Conjunctions => 5,
            Level::Disjunctions => 6,
        }
    }

    /// Whether operators of the level bind looser than those of the other one.
    pub fn is_looser_than(self, other: Level) -> bool
        ensures { result ≡ nat_lt (rank (level_view other)) (rank (level_view self)) }
    {
        other.rank() < self.rank()
    }

    /// The next looser level. The loosest one stays.
    pub fn looser(self) -> Level
        ensures { level_view result ≡ looser (level_view self) }
    {
        match self {
            Level::Units => Level::Products,
            Level::Products => Level::Sums,
            Level::Sums => Level::Comparisons,
            Level::Comparisons => Level::Equalities,
            Level::Equalities => Level::Conjunctions,
            Level::Conjunctions | Level::Disjunctions => Level::Disjunctions,
        }
    }

    /// The level of the operands: the next tighter one.
    pub fn operand_level(self) -> Level
        ensures { level_view result ≡ terminals.tighter (level_view self) }
    {
        match self {
            Level::Disjunctions => Level::Conjunctions,
            Level::Conjunctions => Level::Equalities,
            Level::Equalities => Level::Comparisons,
            Level::Comparisons => Level::Sums,
            Level::Sums => Level::Products,
            Level::Products | Level::Units => Level::Units,
        }
    }

    /// Whether this is the terminal of an operator of this level.
    pub fn has(self, terminal: u16) -> bool
        ensures { result ≡ is_operator_terminal (level_view self) terminal }
    {
        match self {
            Level::Disjunctions => terminal == OR_ELSE,
            Level::Conjunctions => terminal == AND_ALSO,
            Level::Equalities => terminal == SAME || terminal == DIFFERS,
            Level::Comparisons => {
                terminal == LESS || terminal == AT_MOST || terminal == MORE || terminal == AT_LEAST
            }
            Level::Sums => terminal == PLUS || terminal == MINUS,
            Level::Products => terminal == TIMES || terminal == DIVIDE || terminal == MODULO,
            Level::Units => false,
        }
    }

    /// Whether more than one operator of the level may stand in a row.
    pub fn repeats(self) -> bool
        ensures { result ≡ terminals.repeats (level_view self) }
    {
        !matches!(self, Level::Equalities)
    }
}

/// Whether this may be the terminal of an operator with two operands. It is that of each, and of `!`.
pub fn is_operator(terminal: u16) -> bool
    ensures { result ≡ is_any_operator terminal }
{
    (OR_ELSE..=MODULO).contains(&terminal)
}

/// A call of this method.
pub fn method_call(alloc: Global, on: Expr, name: Text, args: Exprs) -> Result<Expr, AllocError>
    ensures { IfOk result (λ x. x ≡ Expr.Call (Some on) name args) }
{
    Ok(Expr::Call {
        on: Some(Boxed::new(alloc, on)?),
        name,
        args,
    })
}

/// A call with one argument.
pub fn method_call_with(alloc: Global, on: Expr, name: &[u8], arg: Expr) -> Result<Expr, AllocError>
    ensures { IfOk result (λ x. x ≡ Expr.Call (Some on) name.now (arg ∷ [])) }
{
    let mut args = Exprs::new(alloc);
    args.push(arg)?;
    let name = Text::from_bytes(alloc, name)?;
    method_call(alloc, on, name, args)
}

/// `!x`
pub fn negated(alloc: Global, x: Expr) -> Result<Expr, AllocError>
    ensures { IfOk result (λ y. y ≡ Expr.Not x) }
{
    Ok(Expr::Not(Boxed::new(alloc, x)?))
}

/// `-x`: the call `-@`.
pub fn minus_call(alloc: Global, x: Expr) -> Result<Expr, AllocError>
    ensures { IfOk result (λ y. y ≡ Expr.Call (Some x) (codes "-@") []) }
{
    let name = Text::from_bytes(alloc, b"-@")?;
    method_call(alloc, x, name, Exprs::new(alloc))
}

/// The tree of an operator and its operands. `a != b` is not `a == b`.
pub fn operation(
    alloc: Global,
    terminal: u16,
    operator: Word<'_>,
    a: Expr,
    b: Expr,
) -> Result<Expr, AllocError>
    requires { terminal ≡ terminals.terminal (word_view operator) }
    ensures { IfOk result (λ x. x ≡ operation (word_view operator.entry) a b) }
{
    if terminal == OR_ELSE {
        Ok(Expr::Or(Boxed::new(alloc, a)?, Boxed::new(alloc, b)?))
    } else if terminal == AND_ALSO {
        Ok(Expr::And(Boxed::new(alloc, a)?, Boxed::new(alloc, b)?))
    } else if terminal == DIFFERS {
        let same = method_call_with(alloc, a, b"==", b)?;
        negated(alloc, same)
    } else {
        method_call_with(alloc, a, operator.text, b)
    }
}

/// `test ? value : other`
pub fn choice_of(alloc: Global, test: Expr, value: Expr, other: Expr) -> Result<Expr, AllocError>
    ensures { IfOk result (λ x. x ≡ Expr.Choose test value other) }
{
    Ok(Expr::Choose(
        Boxed::new(alloc, test)?,
        Boxed::new(alloc, value)?,
        Boxed::new(alloc, other)?,
    ))
}
