//! What the bytes before a place mean for what stands there.

ghost use Rattle.std.specs.Prelude.{◌≡◌, ◌≤◌, ◌<◌, ◌+◌, ◌-◌, ◌^◌, length, map, OnOk};
ghost use Rattle.ruby_token.specs.Opens.{text_at, in_inside};
ghost use Rattle.ruby_token.specs.State.{start, is_one_of, valueless_words, is_valueless, after_op, after_token};
ghost use Rattle.ruby_token.specs.State.{ends_value, joins};
ghost use Rattle.ruby_token.specs.State.{quote_of, close_brace, opens_op, opens_after, brackets_op, brackets_after};
ghost use Rattle.ruby_token.specs.State.{in_brackets, last_of, state_past, state_after, drops};
ghost use Rattle.ruby_token.specs.Beginning.{beginning};

use crate::opens::{Open, Opens, Quote};
use crate::scan::next_is;
use crate::token::{Op, TokenKind};
use std::alloc::{AllocError, Global};

/// What the last token means for what comes next.
#[derive(Clone, Copy, Debug, PartialEq, Eq)]
pub enum After {
    /// It ends a value: a `-` is an operator.
    Value,
    /// The text goes on: an LF counts for nothing.
    Joins,
    Other,
}

/// Where the lexer stands.
#[derive(Debug, Drop)]
pub struct State {
    pub opens: Opens,
    /// How many `(`, `[` and `{` are open.
    pub brackets: u32,
    pub after: After,
    /// The byte before.
    pub before: u8,
}

/// The reserved words that begin so and stand for no value: those of all but `self`, `nil`, `true` and `false`.
fn valueless_beginning(first: u8) -> &'static [&'static [u8]]
    ensures { map (λ w. w.now) result.now ≡ beginning first valueless_words }
{
    match first {
        b'a' => &[b"attr_reader"],
        b'c' => &[b"class"],
        b'd' => &[b"def"],
        b'e' => &[b"end", b"else", b"elsif"],
        b'i' => &[b"if", b"include"],
        b'm' => &[b"module"],
        b'r' => &[b"return", b"raise"],
        b't' => &[b"then"],
        b'u' => &[b"unless"],
        _ => &[],
    }
}

fn is_one_of(words: &[&[u8]], text: &[u8]) -> bool
    ensures { result ≡ is_one_of (map (λ w. w.now) words.now) text.now }
{
    for word in words {
        if text.len() == word.len() && text.starts_with(word) {
            return true;
        }
    }
    false
}

fn is_valueless(text: &[u8]) -> bool
    ensures { result ≡ is_valueless text.now }
{
    match text {
        [] => false,
        [first, ..] => is_one_of(valueless_beginning(*first), text),
    }
}

fn after_op(op: Op) -> After
    ensures { result ≡ after_op op }
{
    match op {
        Op::CloseParen | Op::CloseBracket | Op::CloseBrace => After::Value,
        _ => After::Joins,
    }
}

fn after_token(kind: TokenKind, text: &[u8]) -> After
    ensures { result ≡ after_token kind text.now }
{
    match kind {
        TokenKind::Name => {
            if is_valueless(text) {
                After::Other
            } else {
                After::Value
            }
        }
        TokenKind::Const
        | TokenKind::Ivar
        | TokenKind::Sym
        | TokenKind::Int
        | TokenKind::TextClose => After::Value,
        TokenKind::Label => After::Joins,
        TokenKind::Line
        | TokenKind::TextOpen
        | TokenKind::TextPiece
        | TokenKind::InsideOpen
        | TokenKind::InsideClose => After::Other,
        TokenKind::Op(op) => after_op(op),
    }
}

/// Whether the last token ends a value, so that a `-` behind it is an operator: of `x -1`, but not of `return -1`.
pub fn ends_value(after: After) -> bool
    ensures { result ≡ ends_value after }
{
    matches!(after, After::Value)
}

fn joins(after: After) -> bool
    ensures { result ≡ joins after }
{
    matches!(after, After::Joins)
}

/// The quote of the text that the place stands in.
pub fn text_at(opens: &Opens) -> Option<Quote>
    ensures { result ≡ text_at opens.now }
{
    match opens.top() {
        Some(Open::Text(quote, _)) => Some(quote),
        _ => None,
    }
}

/// Whether an inside part of a text is open, and no brace in it.
pub fn in_inside(opens: &Opens) -> bool
    ensures { result ≡ in_inside opens.now }
{
    match opens.top() {
        Some(Open::Inside) => true,
        _ => false,
    }
}

/// Whether some bracket is open, so that an LF counts as white.
pub fn in_brackets(state: &State) -> bool
    ensures { result ≡ in_brackets state.now }
{
    state.brackets > 0
}

/// Whether a line's end here is no token.
pub fn drops(state: &State, b: u8) -> bool
    ensures { result ≡ drops state.now b }
{
    b == b'\n' && (in_brackets(state) || joins(state.after))
}

fn quote_of(text: &[u8]) -> Quote
    ensures { result ≡ quote_of text.now }
{
    if next_is(b'\'', text) {
        Quote::Single
    } else {
        Quote::Double
    }
}

fn close_brace(opens: &mut Opens)
    ensures { opens.new ≡ close_brace opens.old }
{
    if let Some(Open::Brace) = opens.top() {
        opens.pop();
    }
}

fn opens_op(opens: &mut Opens, op: Op) -> Result<(), AllocError>
    ensures { OnOk result (opens.new ≡ opens_op op opens.old) }
{
    match op {
        Op::OpenBrace => opens.push(Open::Brace)?,
        Op::CloseBrace => close_brace(opens),
        _ => {}
    }
    Ok(())
}

fn opens_after(opens: &mut Opens, kind: TokenKind, text: &[u8], at: u32) -> Result<(), AllocError>
    ensures { OnOk result (opens.new ≡ opens_after kind text.now at opens.old) }
{
    match kind {
        TokenKind::TextOpen => opens.push(Open::Text(quote_of(text), at)),
        TokenKind::InsideOpen => opens.push(Open::Inside),
        TokenKind::TextClose | TokenKind::InsideClose => {
            opens.pop();
            Ok(())
        }
        TokenKind::Op(op) => opens_op(opens, op),
        _ => Ok(()),
    }
}

fn brackets_op(op: Op, brackets: u32) -> u32
    requires { brackets < 2 ^ 32 - 1 }
    ensures exact { result ≡ brackets_op op brackets }
    ensures within { result ≤ brackets + 1 }
{
    match op {
        Op::OpenParen | Op::OpenBracket | Op::OpenBrace => brackets + 1,
        Op::CloseParen | Op::CloseBracket | Op::CloseBrace => brackets.saturating_sub(1),
        _ => brackets,
    }
}

fn brackets_after(kind: TokenKind, brackets: u32) -> u32
    requires { brackets < 2 ^ 32 - 1 }
    ensures exact { result ≡ brackets_after kind brackets }
    ensures within { result ≤ brackets + 1 }
{
    match kind {
        TokenKind::Op(op) => brackets_op(op, brackets),
        _ => brackets,
    }
}

fn last_of(text: &[u8]) -> u8
    requires { 0 < length text.now }
    ensures { result ≡ last_of text.now }
{
    text[text.len() - 1]
}

impl State {
    /// At a file's first byte.
    pub fn new(alloc: Global) -> State
        ensures { result ≡ start }
    {
        State {
            opens: Opens::new(alloc),
            brackets: 0,
            after: After::Other,
            before: 0,
        }
    }

    /// Goes past bytes that are no token.
    pub fn pass(&mut self, text: &[u8])
        requires { 0 < length text.now }
        ensures { self.new ≡ state_past text.now self.old }
    {
        self.before = last_of(text);
    }

    /// Goes past a token.
    pub fn take(&mut self, kind: TokenKind, text: &[u8], at: u32) -> Result<(), AllocError>
        requires brackets { self.old.brackets < 2 ^ 32 - 1 }
        requires some { 0 < length text.now }
        ensures exact { OnOk result (self.new ≡ state_after kind text.now at self.old) }
        ensures within { self.new.brackets ≤ self.old.brackets + 1 }
    {
        self.brackets = brackets_after(kind, self.brackets);
        self.after = after_token(kind, text);
        self.before = last_of(text);
        opens_after(&mut self.opens, kind, text, at)
    }
}
