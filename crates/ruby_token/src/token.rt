//! Tokens and their kinds.

use lists::{Copying, Listed};
use std::alloc::AllocError;

/// An operator, a bracket or another mark.
#[derive(Clone, Copy, Debug, PartialEq, Eq)]
pub enum Op {
    /// `||`
    OrElse,
    /// `&&`
    AndAlso,
    /// `!`
    Not,
    /// `==`
    Same,
    /// `!=`
    Differs,
    /// `<`
    Less,
    /// `<=`
    AtMost,
    /// `>`
    More,
    /// `>=`
    AtLeast,
    /// `+`
    Plus,
    /// `-`
    Minus,
    /// `*`
    Times,
    /// `/`
    Divide,
    /// `%`
    Modulo,
    /// `?`
    Ask,
    /// `:`
    Colon,
    /// `::`
    Path,
    /// `.`
    Dot,
    /// `,`
    Comma,
    /// `=`
    Assign,
    /// `=>`
    Arrow,
    /// `(`
    OpenParen,
    /// `)`
    CloseParen,
    /// `[`
    OpenBracket,
    /// `]`
    CloseBracket,
    /// `{`
    OpenBrace,
    /// `}`
    CloseBrace,
    /// `|`
    Bar,
    /// `<=>`
    Compare,
    /// `**`
    Power,
    /// `=~`
    Matches,
    /// `!~`
    MatchesNot,
    /// `&.`
    SafeDot,
    /// `..`
    Range,
    /// `...`
    OpenRange,
    /// `<<`
    ShiftLeft,
    /// `>>`
    ShiftRight,
    /// `+=`
    PlusAssign,
    /// `-=`
    MinusAssign,
    /// `*=`
    TimesAssign,
    /// `/=`
    DivideAssign,
    /// `||=`
    OrAssign,
    /// `&&=`
    AndAssign,
    /// `->`
    Lambda,
    /// `===`
    CaseSame,
    /// `&`
    BitAnd,
    /// `^`
    BitXor,
    /// `~`
    BitNot,
    /// `@@`
    ClassVariable,
    /// `$`
    GlobalVariable,
}

/// What a token is. Reserved words are names here.
#[derive(Clone, Copy, Debug, PartialEq, Eq)]
pub enum TokenKind {
    /// Line ends in a row: LF or `;`.
    Line,
    /// `each`, `empty?`, `save!`
    Name,
    /// `User`
    Const,
    /// `@name`
    Ivar,
    /// `key:`
    Label,
    /// `:key`
    Sym,
    /// `-1_000`
    Int,
    /// The quote before a text, `'` or `"`.
    TextOpen,
    /// Bytes and escapes of a text, as they are written.
    TextPiece,
    /// `#{`
    InsideOpen,
    /// The `}` that ends what `#{` began.
    InsideClose,
    /// The quote behind a text.
    TextClose,
    Op(Op),
}

/// A token: its kind and its place, the bytes from `from` up to `to`.
#[derive(Clone, Copy, Debug, PartialEq, Eq)]
pub struct Token {
    pub kind: TokenKind,
    pub from: u32,
    pub to: u32,
}

/// Tokens in the order of their places.
pub type Tokens = Listed<Token>;

impl Copying for Token {
    fn copy(&self) -> Result<Token, AllocError> {
        Ok(*self)
    }
}
