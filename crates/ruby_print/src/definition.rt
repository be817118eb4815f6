ghost use Rattle.std.specs.Prelude.{◌≡◌, ◌++◌, ◌∷◌, [], map, codes, IfOk, OnOk, if◌then◌else◌};
ghost use Rattle.ruby_print.specs.Pieces.{joined};
ghost use Rattle.ruby_print.specs.Statements as statements;
ghost use Rattle.ruby_print.specs.Definitions as spec;

use crate::pieces::{push_constant, push_names, push_path, push_symbols};
use crate::statement::{deeper, push_inside, push_value};
use ruby_types::{ConstRef, Def, FileTree, Stmt, Text};
use std::alloc::{AllocError, Global};

/// The text of a file's tree.
pub fn print(alloc: Global, tree: &FileTree) -> Result<Text, AllocError>
    ensures printed { IfOk result (λ text. text ≡ spec.print tree.now) }
{
    let mut written = Vec::new(alloc);
    push_definitions(alloc, &mut written, &[], tree.defs.as_slice())?;
    Text::from_vec(alloc, written)
}

/// Definitions, each on a line of its own.
#[cycle(definition)]
fn push_definitions(
    alloc: Global,
    written: &mut Vec<u8>,
    indent: &[u8],
    definitions: &[Def],
) -> Result<(), AllocError>
    ensures { OnOk result (written.new.items ≡ written.old.items ++ spec.definition_lines indent.now definitions.now) }
{
    'definitions: for definition in definitions {
        written.extend_from_slice(indent)?;
        push_definition(alloc, written, indent, definition)?;
        written.push(b'\n')?;
    }
    Ok(())
}

#[cycle(definition)]
fn push_definition(
    alloc: Global,
    written: &mut Vec<u8>,
    indent: &[u8],
    definition: &Def,
) -> Result<(), AllocError>
    ensures { OnOk result (written.new.items ≡ written.old.items ++ spec.definition definition.now indent.now) }
{
    match definition {
        Def::Module { path, body } => {
            written.extend_from_slice(b"module ")?;
            push_path(alloc, written, path)?;
            push_body(alloc, written, indent, body.as_slice())
        }
        Def::Class { path, parent, body } => {
            written.extend_from_slice(b"class ")?;
            push_path(alloc, written, path)?;
            push_parent(alloc, written, parent)?;
            push_body(alloc, written, indent, body.as_slice())
        }
        Def::Assign { name, value } => {
            written.extend_from_slice(name.as_bytes())?;
            push_value(alloc, written, value)
        }
        Def::Method {
            single,
            name,
            params,
            body,
        } => {
            push_heading(written, *single, name, params.as_slice())?;
            push_method_body(alloc, written, indent, body.as_slice())
        }
        Def::Include(constant) => {
            written.extend_from_slice(b"include ")?;
            push_constant(alloc, written, constant)
        }
        Def::Readers(names) => push_readers(written, names.as_slice()),
    }
}

fn push_readers(written: &mut Vec<u8>, names: &[Text]) -> Result<(), AllocError>
    ensures { OnOk result (written.new.items
        ≡ written.old.items ++ (codes "attr_reader " ++ joined (map spec.symbol names.now))) }
{
    written.extend_from_slice(b"attr_reader ")?;
    push_symbols(written, names)
}

/// The body of a module or class and its `end`.
#[cycle(definition)]
fn push_body(
    alloc: Global,
    written: &mut Vec<u8>,
    indent: &[u8],
    definitions: &[Def],
) -> Result<(), AllocError>
    ensures { OnOk result (written.new.items ≡ written.old.items ++ spec.body indent.now
        (map spec.definition definitions.now)) }
{
    let spaces = deeper(alloc, indent)?;
    written.push(b'\n')?;
    push_definitions(alloc, written, spaces.as_slice(), definitions)?;
    written.extend_from_slice(indent)?;
    written.extend_from_slice(b"end")
}

/// The body of a method and its `end`.
fn push_method_body(
    alloc: Global,
    written: &mut Vec<u8>,
    indent: &[u8],
    body: &[Stmt],
) -> Result<(), AllocError>
    ensures { OnOk result (written.new.items ≡ written.old.items ++ spec.body indent.now
        (map statements.statement body.now)) }
{
    push_inside(alloc, written, indent, body)?;
    written.extend_from_slice(b"end")
}

fn push_parent(
    alloc: Global,
    written: &mut Vec<u8>,
    parent: &Option<ConstRef>,
) -> Result<(), AllocError>
    ensures { OnOk result (written.new.items ≡ written.old.items ++ spec.parent_text parent.now) }
{
    match parent {
        None => Ok(()),
        Some(constant) => {
            written.extend_from_slice(b" < ")?;
            push_constant(alloc, written, constant)
        }
    }
}

/// `def`, a method's name and its parameters.
fn push_heading(
    written: &mut Vec<u8>,
    single: bool,
    name: &Text,
    params: &[Text],
) -> Result<(), AllocError>
    ensures { OnOk result (written.new.items ≡ written.old.items ++ spec.heading single name.now params.now) }
{
    push_def(written, single)?;
    written.extend_from_slice(name.as_bytes())?;
    push_parameters(written, params)
}

fn push_def(written: &mut Vec<u8>, single: bool) -> Result<(), AllocError>
    ensures { OnOk result (written.new.items
        ≡ written.old.items ++ (if single then codes "def self." else codes "def ")) }
{
    if single {
        written.extend_from_slice(b"def self.")
    } else {
        written.extend_from_slice(b"def ")
    }
}

fn push_parameters(written: &mut Vec<u8>, params: &[Text]) -> Result<(), AllocError>
    ensures { OnOk result (written.new.items ≡ written.old.items ++ spec.parameters_text params.now) }
{
    if params.is_empty() {
        return Ok(());
    }
    written.push(b'(')?;
    push_names(written, params)?;
    written.push(b')')?;
    Ok(())
}
