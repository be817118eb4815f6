//! First faults in words.
ghost use Rattle.std.specs.Prelude.{◌≡◌, Option, IfOk};
ghost use Rattle.std.specs.String.{string_bytes};
ghost use Rattle.load_rules.specs.Printed.{why_of, Tells, error_head, syntax_error};

use ruby_parse::SyntaxKind;
use ruby_types::Text;
use std::alloc::{AllocError, Global};

/// The words for a kind of fault; want of memory is no fault of a file.
pub fn kind_words(kind: SyntaxKind) -> Option<&'static str>
    ensures { Tells (why_of kind) result }
{
    match kind {
        SyntaxKind::Lex => Some("bad token"),
        SyntaxKind::Expected => Some("unexpected"),
        SyntaxKind::NotInProfile => Some("not in the profile"),
        SyntaxKind::TooDeep => Some("nested too deep"),
        SyntaxKind::TwiceDefined => Some("defined twice"),
        SyntaxKind::Memory => None,
    }
}

/// `SyntaxError: KIND at byte N (`.
fn error_head(alloc: Global, kind: &str, at: u32) -> Result<String, AllocError>
    ensures { IfOk result (λ head. string_bytes head ≡ error_head kind.now at) }
{
    let head = format!(in alloc; "SyntaxError: {kind} at byte {at} (")?;
    Ok(head)
}

/// `SyntaxError: KIND at byte N (PATH)`.
pub fn syntax_error(alloc: Global, kind: &str, at: u32, path: &[u8]) -> Result<Text, AllocError>
    ensures { IfOk result (λ text. text ≡ syntax_error kind.now at path.now) }
{
    let mut text = error_head(alloc, kind, at)?.into_bytes();
    text.extend_from_slice(path)?;
    text.extend_from_slice(b")")?;
    Text::from_vec(alloc, text)
}
