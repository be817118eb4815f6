//! Trees of the first form: a class with one method that answers with one text.
ghost use Rattle.std.specs.Prelude.{ℕ, List, [], ◌∷◌, ◌≡◌, ◌↔◌, IsTrue, IfSome};
ghost use Rattle.load_rules.specs.FirstForm.{FirstParts, text_parts, text_body, first_method, first_class, first_tree};
ghost use Rattle.load_rules.specs.Methods.{HasText, IsMethodOf, HasMethod};

use ruby_types::{ConstRef, Def, Expr, FileTree, Part, Stmt, Text};

/// The method of a file of the first form: its name and its text.
#[derive(Clone, Copy)]
pub struct FirstMethod<'a> {
    pub name: &'a [u8],
    pub text: &'a [u8],
}

fn plain_text(parts: &[Part]) -> Option<&[u8]>
    ensures found { (text : List ℕ) → parts.now ≡ text_parts text → HasText result text }
    ensures only { IfSome result (λ text. parts.now ≡ text_parts text.now) }
{
    match parts {
        [] => Some(&[]),
        [Part::Plain(text)] if !text.is_empty() => Some(text.as_bytes()),
        _ => None,
    }
}

fn body_text(body: &[Stmt]) -> Option<&[u8]>
    ensures found { (text : List ℕ) → body.now ≡ text_body text → HasText result text }
    ensures only { IfSome result (λ text. body.now ≡ text_body text.now) }
{
    match body {
        [Stmt::Expr(Expr::Str(parts))] => plain_text(parts.as_slice()),
        _ => None,
    }
}

fn method_of(definition: &Def) -> Option<FirstMethod<'_>>
    ensures found { (parts : FirstParts) → definition.now ≡ first_method parts → HasMethod result parts }
    ensures only { IfSome result (λ method. (parts : FirstParts)
        × ((definition.now ≡ first_method parts) × IsMethodOf method parts)) }
{
    match definition {
        Def::Method {
            single,
            name,
            params,
            body,
        } if *single && params.len() == 1 => match body_text(body.as_slice()) {
            Some(text) => Some(FirstMethod {
                name: name.as_bytes(),
                text,
            }),
            None => None,
        },
        _ => None,
    }
}

fn is_absent(parent: &Option<ConstRef>) -> bool
    ensures { IsTrue result ↔ (parent.now ≡ None) }
{
    match parent {
        None => true,
        Some(_) => false,
    }
}

fn is_named(path: &[Text], class: &[u8]) -> bool
    ensures { IsTrue result ↔ (path.now ≡ class.now ∷ []) }
{
    match path {
        [name] => name.as_bytes() == class,
        _ => false,
    }
}

fn class_method<'a>(definition: &'a Def, class: &[u8]) -> Option<FirstMethod<'a>>
    ensures found { (parts : FirstParts) → definition.now ≡ first_class class.now parts → HasMethod result parts }
    ensures only { IfSome result (λ method. (parts : FirstParts)
        × ((definition.now ≡ first_class class.now parts) × IsMethodOf method parts)) }
{
    match definition {
        Def::Class { path, parent, body }
            if is_named(path.as_slice(), class) && is_absent(parent) => {
            match body.as_slice() {
                [definition] => method_of(definition),
                _ => None,
            }
        }
        _ => None,
    }
}

/// The method of a tree of the first form with this class, and `None` for every other tree.
pub fn first_method<'a>(tree: &'a FileTree, class: &[u8]) -> Option<FirstMethod<'a>>
    ensures found { (parts : FirstParts) → tree.now ≡ first_tree class.now parts → HasMethod result parts }
    ensures only { IfSome result (λ method. (parts : FirstParts)
        × ((tree.now ≡ first_tree class.now parts) × IsMethodOf method parts)) }
{
    match tree.defs.as_slice() {
        [definition] => class_method(definition, class),
        _ => None,
    }
}
