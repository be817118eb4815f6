//! Trees as texts that are easily written by hand: what belongs together stands in parentheses.
//!
//! | Written | Stands for |
//! |---|---|
//! | `(class A::B < ::C ..)`, `(module A ..)`, `(X = 1)` | definitions |
//! | `(def self.f (a b) ..)`, `(include A)`, `(attr_reader a b)` | members |
//! | `(a = 1)`, `(@a = 1)`, `(return)`, `(raise 1)` | statements |
//! | `(if (a ..) (b ..) (else ..))`, `(a if b)` | an `if` with its arms, and one behind its statement |
//! | `nil`, `1`, `:a`, `a`, `@a`, `::A::B` | words, numbers, symbols, local and instance variables, constants |
//! | `(str "a" 1)`, `[1 2]`, `{(:a 1)}` | texts with their parts, arrays, hashes |
//! | `(f 1 2)`, `(1 .f 2)`, `(1 + 2)`, `(a [] 1)` | calls on self and on a value; the name of a method has a `.`
//! unless it is an operator |
//! | `(! a)`, `(a && b)`, `(a || b)`, `(a ? b : c)` | the rest |

use ruby_types::{ConstRef, Def, Expr, FileTree, Part, Stmt, Stmts, Text};
use std::alloc::{AllocError, Global};

/// A text that grows.
#[derive(Drop)]
pub struct Shown {
    alloc: Global,
    text: Vec<u8>,
}

impl Shown {
    /// The empty text.
    pub fn new(alloc: Global) -> Shown {
        Shown {
            alloc,
            text: Vec::new(alloc),
        }
    }

    /// The text's bytes.
    pub fn into_bytes(self) -> Vec<u8> {
        self.text
    }

    fn put(&mut self, part: &[u8]) -> Result<(), AllocError> {
        self.text.extend_from_slice(part)
    }

    /// A name behind its sign.
    fn name(&mut self, sign: &[u8], name: &Text) -> Result<(), AllocError> {
        self.put(sign)?;
        self.put(name.as_bytes())
    }

    fn path(&mut self, path: &[Text]) -> Result<(), AllocError> {
        let mut between = b"".as_slice();
        for name in path {
            self.put(between)?;
            self.put(name.as_bytes())?;
            between = b"::";
        }
        Ok(())
    }

    fn constant(&mut self, constant: &ConstRef) -> Result<(), AllocError> {
        if constant.top {
            self.put(b"::")?;
        }
        self.path(constant.path.as_slice())
    }

    fn number(&mut self, number: i64) -> Result<(), AllocError> {
        let digits = format!(in self.alloc; "{number}")?;
        self.put(digits.as_bytes())
    }

    /// Names with a space between them.
    fn names(&mut self, names: &[Text]) -> Result<(), AllocError> {
        let mut between = b"".as_slice();
        for name in names {
            self.put(between)?;
            self.put(name.as_bytes())?;
            between = b" ";
        }
        Ok(())
    }
}

fn is_operator(name: &[u8]) -> bool {
    match name.first() {
        Some(byte) => !byte.is_ascii_alphabetic() && *byte != b'_',
        None => false,
    }
}

/// The name of a method behind its receiver.
fn show_method(shown: &mut Shown, name: &Text) -> Result<(), AllocError> {
    if is_operator(name.as_bytes()) {
        shown.name(b"", name)
    } else {
        shown.name(b".", name)
    }
}

/// The rest of a call behind its name.
#[cycle(shown)]
fn show_arguments(shown: &mut Shown, exprs: &[Expr]) -> Result<(), AllocError> {
    for expr in exprs {
        shown.put(b" ")?;
        show_expr(shown, expr)?;
    }
    shown.put(b")")
}

#[cycle(shown)]
fn show_array(shown: &mut Shown, exprs: &[Expr]) -> Result<(), AllocError> {
    let mut between = b"".as_slice();
    shown.put(b"[")?;
    for expr in exprs {
        shown.put(between)?;
        show_expr(shown, expr)?;
        between = b" ";
    }
    shown.put(b"]")
}

#[cycle(shown)]
fn show_hash(shown: &mut Shown, pairs: &[(Expr, Expr)]) -> Result<(), AllocError> {
    let mut between = b"(".as_slice();
    shown.put(b"{")?;
    for (key, value) in pairs {
        shown.put(between)?;
        show_expr(shown, key)?;
        shown.put(b" ")?;
        show_expr(shown, value)?;
        shown.put(b")")?;
        between = b" (";
    }
    shown.put(b"}")
}

#[cycle(shown)]
fn show_parts(shown: &mut Shown, parts: &[Part]) -> Result<(), AllocError> {
    shown.put(b"(str")?;
    for part in parts {
        match part {
            Part::Plain(text) => {
                shown.put(b" \"")?;
                shown.put(text.as_bytes())?;
                shown.put(b"\"")?;
            }
            Part::Inside(expr) => {
                shown.put(b" ")?;
                show_expr(shown, expr)?;
            }
        }
    }
    shown.put(b")")
}

/// An operand, and the operator behind it.
#[cycle(shown)]
fn show_operand(shown: &mut Shown, operand: &Expr, operator: &[u8]) -> Result<(), AllocError> {
    show_expr(shown, operand)?;
    shown.put(operator)
}

#[cycle(shown)]
fn show_first(shown: &mut Shown, operand: &Expr, operator: &[u8]) -> Result<(), AllocError> {
    shown.put(b"(")?;
    show_operand(shown, operand, operator)
}

#[cycle(shown)]
fn show_last(shown: &mut Shown, operand: &Expr) -> Result<(), AllocError> {
    show_operand(shown, operand, b")")
}

#[cycle(shown)]
fn show_not(shown: &mut Shown, operand: &Expr) -> Result<(), AllocError> {
    shown.put(b"(! ")?;
    show_last(shown, operand)
}

#[cycle(shown)]
fn show_expr(shown: &mut Shown, expr: &Expr) -> Result<(), AllocError> {
    match expr {
        Expr::Nil => shown.put(b"nil"),
        Expr::True => shown.put(b"true"),
        Expr::False => shown.put(b"false"),
        Expr::SelfRef => shown.put(b"self"),
        Expr::Int(number) => shown.number(*number),
        Expr::Str(parts) => show_parts(shown, parts.as_slice()),
        Expr::Sym(name) => shown.name(b":", name),
        Expr::Local(name) => shown.name(b"", name),
        Expr::Ivar(name) => shown.name(b"@", name),
        Expr::Const(constant) => shown.constant(constant),
        Expr::Array(items) => show_array(shown, items.as_slice()),
        Expr::Hash(pairs) => show_hash(shown, pairs.as_slice()),
        Expr::Call { on, name, args } => {
            match on {
                None => shown.name(b"(", name)?,
                Some(on) => {
                    show_first(shown, on.get(), b" ")?;
                    show_method(shown, name)?;
                }
            }
            show_arguments(shown, args.as_slice())
        }
        Expr::Not(a) => show_not(shown, a.get()),
        Expr::And(a, b) => {
            show_first(shown, a.get(), b" && ")?;
            show_last(shown, b.get())
        }
        Expr::Or(a, b) => {
            show_first(shown, a.get(), b" || ")?;
            show_last(shown, b.get())
        }
        Expr::Choose(a, b, c) => {
            show_first(shown, a.get(), b" ? ")?;
            show_operand(shown, b.get(), b" : ")?;
            show_last(shown, c.get())
        }
    }
}

fn show_set(shown: &mut Shown, sign: &[u8], name: &[u8], value: &Expr) -> Result<(), AllocError> {
    shown.put(b"(")?;
    shown.put(sign)?;
    shown.put(name)?;
    shown.put(b" = ")?;
    show_expr(shown, value)?;
    shown.put(b")")
}

fn show_return(shown: &mut Shown, value: Option<&Expr>) -> Result<(), AllocError> {
    shown.put(b"(return")?;
    if let Some(value) = value {
        shown.put(b" ")?;
        show_expr(shown, value)?;
    }
    shown.put(b")")
}

fn show_raise(shown: &mut Shown, value: &Expr) -> Result<(), AllocError> {
    shown.put(b"(raise ")?;
    show_expr(shown, value)?;
    shown.put(b")")
}

/// Statements, each with a space before it.
#[cycle(statement)]
fn show_statements(shown: &mut Shown, statements: &[Stmt]) -> Result<(), AllocError> {
    for statement in statements {
        shown.put(b" ")?;
        show_statement(shown, statement)?;
    }
    Ok(())
}

#[cycle(statement)]
fn show_arms(shown: &mut Shown, arms: &[(Expr, Stmts)]) -> Result<(), AllocError> {
    for (condition, statements) in arms {
        shown.put(b" (")?;
        show_expr(shown, condition)?;
        show_statements(shown, statements.as_slice())?;
        shown.put(b")")?;
    }
    Ok(())
}

#[cycle(statement)]
fn show_other(shown: &mut Shown, statements: &[Stmt]) -> Result<(), AllocError> {
    if statements.is_empty() {
        return Ok(());
    }
    shown.put(b" (else")?;
    show_statements(shown, statements)?;
    shown.put(b")")
}

/// Statements with their condition behind them.
#[cycle(statement)]
fn show_behind(shown: &mut Shown, arms: &[(Expr, Stmts)]) -> Result<(), AllocError> {
    for (condition, statements) in arms {
        show_in_row(shown, statements.as_slice())?;
        shown.put(b"if ")?;
        show_expr(shown, condition)?;
    }
    Ok(())
}

/// Statements, each with a space behind it.
#[cycle(statement)]
fn show_in_row(shown: &mut Shown, statements: &[Stmt]) -> Result<(), AllocError> {
    for statement in statements {
        show_statement(shown, statement)?;
        shown.put(b" ")?;
    }
    Ok(())
}

#[cycle(statement)]
fn show_statement(shown: &mut Shown, statement: &Stmt) -> Result<(), AllocError> {
    match statement {
        Stmt::Expr(expr) => show_expr(shown, expr),
        Stmt::Set { name, value } => show_set(shown, b"", name.as_bytes(), value),
        Stmt::SetIvar { name, value } => show_set(shown, b"@", name.as_bytes(), value),
        Stmt::Return(value) => show_return(shown, value.as_ref()),
        Stmt::Raise(value) => show_raise(shown, value),
        Stmt::If { arms, other, after } => {
            if *after {
                shown.put(b"(")?;
                show_behind(shown, arms.as_slice())?;
            } else {
                shown.put(b"(if")?;
                show_arms(shown, arms.as_slice())?;
            }
            show_other(shown, other.as_slice())?;
            shown.put(b")")
        }
    }
}

/// The first words of a module or a class.
fn show_opening(
    shown: &mut Shown,
    keyword: &[u8],
    path: &[Text],
    parent: Option<&ConstRef>,
) -> Result<(), AllocError> {
    shown.put(keyword)?;
    shown.path(path)?;
    if let Some(parent) = parent {
        shown.put(b" < ")?;
        shown.constant(parent)?;
    }
    Ok(())
}

fn show_method_definition(
    shown: &mut Shown,
    sign: &[u8],
    name: &[u8],
    params: &[Text],
    body: &[Stmt],
) -> Result<(), AllocError> {
    shown.put(sign)?;
    shown.put(name)?;
    shown.put(b" (")?;
    shown.names(params)?;
    shown.put(b")")?;
    show_statements(shown, body)?;
    shown.put(b")")
}

fn show_include(shown: &mut Shown, constant: &ConstRef) -> Result<(), AllocError> {
    shown.put(b"(include ")?;
    shown.constant(constant)?;
    shown.put(b")")
}

fn show_readers(shown: &mut Shown, names: &[Text]) -> Result<(), AllocError> {
    shown.put(b"(attr_reader ")?;
    shown.names(names)?;
    shown.put(b")")
}

/// The rest of a module or a class: its definitions, each with a space before it.
#[cycle(definition)]
fn show_definitions(shown: &mut Shown, definitions: &[Def]) -> Result<(), AllocError> {
    for definition in definitions {
        shown.put(b" ")?;
        show_definition(shown, definition)?;
    }
    shown.put(b")")
}

#[cycle(definition)]
fn show_definition(shown: &mut Shown, definition: &Def) -> Result<(), AllocError> {
    match definition {
        Def::Module { path, body } => {
            show_opening(shown, b"(module ", path.as_slice(), None)?;
            show_definitions(shown, body.as_slice())
        }
        Def::Class { path, parent, body } => {
            show_opening(shown, b"(class ", path.as_slice(), parent.as_ref())?;
            show_definitions(shown, body.as_slice())
        }
        Def::Assign { name, value } => show_set(shown, b"", name.as_bytes(), value),
        Def::Method {
            single,
            name,
            params,
            body,
        } => {
            let sign = if *single {
                b"(def self.".as_slice()
            } else {
                b"(def "
            };
            show_method_definition(
                shown,
                sign,
                name.as_bytes(),
                params.as_slice(),
                body.as_slice(),
            )
        }
        Def::Include(constant) => show_include(shown, constant),
        Def::Readers(names) => show_readers(shown, names.as_slice()),
    }
}

/// The definitions of a file, one behind the other.
pub fn show_file(shown: &mut Shown, tree: &FileTree) -> Result<(), AllocError> {
    let mut is_first = true;
    for definition in tree.defs.as_slice() {
        if !is_first {
            shown.put(b" ")?;
        }
        is_first = false;
        show_definition(shown, definition)?;
    }
    Ok(())
}
