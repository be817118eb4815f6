//! Words: the tokens of a file as the grammar sees them.

ghost use Rattle.std.specs.Prelude.{◌≡◌, drop};
ghost use Rattle.ruby_token.specs.Spans.{text_of};
ghost use Rattle.ruby_grammar.specs.Terminals as terminals;
ghost use Rattle.ruby_grammar.specs.Values as values;

use ruby_token::{Token, TokenKind};

/// A token with its text. `tight` says that it stands directly behind the token before it.
#[derive(Clone, Copy)]
pub struct Word<'a> {
    pub kind: TokenKind,
    pub text: &'a [u8],
    pub tight: bool,
    /// The place of its first byte.
    pub at: u32,
}

/// Whether a `?` or `!` stands behind a name.
pub fn ends_in_suffix(name: &[u8]) -> bool
    ensures { result ≡ terminals.ends_in_suffix name.now }
{
    match name {
        [.., byte] => *byte == b'?' || *byte == b'!',
        [] => false,
    }
}

/// The name of a symbol or an instance variable, without its `:` or `@`.
pub fn behind_sign(text: &[u8]) -> &[u8]
    ensures { result.now ≡ values.behind_sign text.now }
{
    match text {
        [] => text,
        [_, name @ ..] => name,
    }
}

/// The name of a label, without its `:`.
pub fn before_colon(text: &[u8]) -> &[u8]
    ensures { result.now ≡ values.before_colon text.now }
{
    match text {
        [] => text,
        [name @ .., _] => name,
    }
}

/// The bytes from this place on.
fn behind(bytes: &[u8], from: usize) -> &[u8]
    ensures { result.now ≡ drop from bytes.now }
{
    if from < bytes.len() {
        &bytes[from..]
    } else {
        &[]
    }
}

/// The bytes of a token.
pub fn text_of(bytes: &[u8], token: Token) -> &[u8]
    ensures { result.now ≡ text_of bytes.now token }
{
    let rest = behind(bytes, token.from as usize);
    let size = token.to.saturating_sub(token.from) as usize;
    &rest[..size.min(rest.len())]
}
