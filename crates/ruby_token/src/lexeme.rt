//! What stands at the front of the bytes.

ghost use Rattle.std.specs.Prelude.{◌≡◌, ◌≤◌, ◌<◌, ◌+◌, ◌^◌, ◌∷◌, length, drop, slice_index};
ghost use Rattle.ruby_token.specs.Steps.{double_mark, single_mark, double_lexeme, single_lexeme, word_lexeme};
ghost use Rattle.ruby_token.specs.Steps.{int_lexeme, operator_lexeme, minus_lexeme, at_lexeme, colon_lexeme};
ghost use Rattle.ruby_token.specs.Steps.{line_lexeme, mark_lexeme, space_lexeme, code_lexeme, lexeme, Within};
ghost use Rattle.ruby_token.specs.Steps.{WithinMore, IsToken};

use crate::opens::{Opens, Quote};
use crate::operators::operator_at;
use crate::scan::{
    comment_len, digits_len, is_line_end, is_lower, is_quote, is_white, lines_len, name_len,
    next_is, piece_len, single_len, white_len, word_len,
};
use crate::state::{State, drops, ends_value, in_brackets, in_inside, text_at};
use crate::token::{Op, TokenKind};

/// What stands at the front, and how many bytes it has.
#[derive(Clone, Copy, Debug, PartialEq, Eq)]
pub enum Lexeme {
    /// Bytes that are no token.
    Gap(usize),
    Token(TokenKind, usize),
    /// No lexeme begins here.
    Nothing,
}

/// In double quotes, where no piece of text begins.
fn double_mark(bytes: &[u8]) -> Lexeme
    requires { 0 < length bytes.now }
    ensures exact { result ≡ double_mark bytes.now }
    ensures within { Within result bytes.now }
{
    if bytes[0] == b'"' {
        Lexeme::Token(TokenKind::TextClose, 1)
    } else if bytes[0] == b'#' && next_is(b'{', &bytes[1..]) {
        Lexeme::Token(TokenKind::InsideOpen, 2)
    } else {
        Lexeme::Nothing
    }
}

fn double_lexeme(bytes: &[u8]) -> Lexeme
    requires { 0 < length bytes.now }
    ensures exact { result ≡ double_lexeme bytes.now }
    ensures within { Within result bytes.now }
{
    let n = piece_len(bytes);
    if n > 0 {
        Lexeme::Token(TokenKind::TextPiece, n)
    } else {
        double_mark(bytes)
    }
}

fn single_lexeme(bytes: &[u8]) -> Lexeme
    requires { 0 < length bytes.now }
    ensures exact { result ≡ single_lexeme bytes.now }
    ensures within { Within result bytes.now }
{
    let n = single_len(bytes);
    if n > 0 {
        Lexeme::Token(TokenKind::TextPiece, n)
    } else if next_is(b'\'', bytes) {
        Lexeme::Token(TokenKind::TextClose, 1)
    } else {
        Lexeme::Nothing
    }
}

/// A name or a label, of which these bytes stand behind the first letter.
fn word_lexeme(bytes: &[u8]) -> Lexeme
    requires { length bytes.now < 2 ^ 32 }
    ensures exact { result ≡ word_lexeme bytes.now }
    ensures within { WithinMore result bytes.now }
{
    let n = name_len(bytes);
    let rest = &bytes[n..];
    if next_is(b':', rest) && !next_is(b':', &rest[1..]) {
        Lexeme::Token(TokenKind::Label, 1 + n + 1)
    } else {
        Lexeme::Token(TokenKind::Name, 1 + n)
    }
}

/// A number of this first digit, with a sign of so many bytes before it and these bytes behind it.
fn int_lexeme(sign: usize, b: u8, bytes: &[u8]) -> Lexeme
    requires sign { sign < 2 }
    requires length { length bytes.now < 2 ^ 32 }
    ensures exact { result ≡ int_lexeme sign b bytes.now }
    ensures within { IsToken result (λ n. (0 < n) × (n ≤ sign + 1 + length bytes.now)) }
{
    if b == b'0' {
        Lexeme::Token(TokenKind::Int, sign + 1)
    } else {
        Lexeme::Token(TokenKind::Int, sign + 1 + digits_len(bytes))
    }
}

fn operator_lexeme(opens: &Opens, bytes: &[u8]) -> Lexeme
    ensures exact { result ≡ operator_lexeme opens.now bytes.now }
    ensures within { Within result bytes.now }
{
    match operator_at(bytes) {
        None => Lexeme::Nothing,
        Some((op, n)) => {
            if matches!(op, Op::CloseBrace) && in_inside(opens) {
                Lexeme::Token(TokenKind::InsideClose, n)
            } else {
                Lexeme::Token(TokenKind::Op(op), n)
            }
        }
    }
}

/// At a `-` that may be a number's sign.
fn minus_lexeme(opens: &Opens, bytes: &[u8]) -> Lexeme
    requires length { length bytes.now < 2 ^ 32 }
    requires minus { bytes.now ≡ 45 ∷ drop 1 bytes.now }
    ensures exact { result ≡ minus_lexeme opens.now (drop 1 bytes.now) }
    ensures within { Within result bytes.now }
{
    match bytes {
        [_, b, rest @ ..] if b.is_ascii_digit() => int_lexeme(1, *b, rest),
        _ => operator_lexeme(opens, bytes),
    }
}

/// At a `@`.
fn at_lexeme(opens: &Opens, bytes: &[u8]) -> Lexeme
    requires length { length bytes.now < 2 ^ 32 }
    requires at_sign { bytes.now ≡ 64 ∷ drop 1 bytes.now }
    ensures exact { result ≡ at_lexeme opens.now (drop 1 bytes.now) }
    ensures within { Within result bytes.now }
{
    match bytes {
        [_, b, rest @ ..] if is_lower(*b) => Lexeme::Token(TokenKind::Ivar, 2 + word_len(rest)),
        _ => operator_lexeme(opens, bytes),
    }
}

/// At a `:` with no `:` before it.
fn colon_lexeme(opens: &Opens, bytes: &[u8]) -> Lexeme
    requires length { length bytes.now < 2 ^ 32 }
    requires colon { bytes.now ≡ 58 ∷ drop 1 bytes.now }
    ensures exact { result ≡ colon_lexeme opens.now (drop 1 bytes.now) }
    ensures within { Within result bytes.now }
{
    match bytes {
        [_, b, rest @ ..] if is_lower(*b) => Lexeme::Token(TokenKind::Sym, 2 + name_len(rest)),
        [_, b, rest @ ..] if b.is_ascii_uppercase() => {
            Lexeme::Token(TokenKind::Sym, 2 + word_len(rest))
        }
        _ => operator_lexeme(opens, bytes),
    }
}

/// At a line's end, with these bytes behind it.
fn line_lexeme(state: &State, b: u8, bytes: &[u8]) -> Lexeme
    requires { length bytes.now < 2 ^ 32 }
    ensures exact { result ≡ line_lexeme state.now b bytes.now }
    ensures within { Within result (b ∷ bytes.now) }
{
    if drops(state, b) {
        Lexeme::Gap(1)
    } else {
        Lexeme::Token(TokenKind::Line, 1 + lines_len(in_brackets(state), bytes))
    }
}

/// At an operator, a sign, an instance variable or a symbol.
fn mark_lexeme(state: &State, bytes: &[u8]) -> Lexeme
    requires some { 0 < length bytes.now }
    requires length { length bytes.now < 2 ^ 32 }
    ensures exact { result ≡ mark_lexeme state.now (slice_index bytes.now 0) (drop 1 bytes.now) }
    ensures within { Within result bytes.now }
{
    let b = bytes[0];
    if b == b'-' && !ends_value(state.after) {
        minus_lexeme(&state.opens, bytes)
    } else if b == b'@' {
        at_lexeme(&state.opens, bytes)
    } else if b == b':' && state.before != b':' {
        colon_lexeme(&state.opens, bytes)
    } else {
        operator_lexeme(&state.opens, bytes)
    }
}

/// In code, where no word and no number begins.
fn space_lexeme(state: &State, bytes: &[u8]) -> Lexeme
    requires some { 0 < length bytes.now }
    requires length { length bytes.now < 2 ^ 32 }
    ensures exact { result ≡ space_lexeme state.now (slice_index bytes.now 0) (drop 1 bytes.now) }
    ensures within { Within result bytes.now }
{
    let b = bytes[0];
    let rest = &bytes[1..];
    if is_white(b) {
        Lexeme::Gap(1 + white_len(rest))
    } else if b == b'#' {
        Lexeme::Gap(1 + comment_len(rest))
    } else if is_line_end(b) {
        line_lexeme(state, b, rest)
    } else if is_quote(b) {
        Lexeme::Token(TokenKind::TextOpen, 1)
    } else {
        mark_lexeme(state, bytes)
    }
}

fn code_lexeme(state: &State, bytes: &[u8]) -> Lexeme
    requires some { 0 < length bytes.now }
    requires length { length bytes.now < 2 ^ 32 }
    ensures exact { result ≡ code_lexeme state.now (slice_index bytes.now 0) (drop 1 bytes.now) }
    ensures within { Within result bytes.now }
{
    let b = bytes[0];
    let rest = &bytes[1..];
    if is_lower(b) {
        word_lexeme(rest)
    } else if b.is_ascii_uppercase() {
        Lexeme::Token(TokenKind::Const, 1 + word_len(rest))
    } else if b.is_ascii_digit() {
        int_lexeme(0, b, rest)
    } else {
        space_lexeme(state, bytes)
    }
}

/// What stands at the front of the bytes.
pub fn next_lexeme(state: &State, bytes: &[u8]) -> Lexeme
    requires some { 0 < length bytes.now }
    requires length { length bytes.now < 2 ^ 32 }
    ensures exact { result ≡ lexeme state.now bytes.now }
    ensures within { Within result bytes.now }
{
    match text_at(&state.opens) {
        None => code_lexeme(state, bytes),
        Some(Quote::Double) => double_lexeme(bytes),
        Some(Quote::Single) => single_lexeme(bytes),
    }
}
