//! The terminals of the grammar, as numbers: one for each reserved or left-out word, each kind of token and each
//! operator.

ghost use Rattle.std.specs.Prelude.{◌≡◌};
ghost use Rattle.ruby_token.specs.Spans.{text_of};
ghost use Rattle.ruby_words.specs.Words.{word_rows};
ghost use Rattle.ruby_grammar.specs.Terminals as spec;
ghost use Rattle.ruby_parse_cursor.specs.Views.{code_view, left_out_terminal, expression_terminal, statement_terminal};

use crate::word::text_of;
use case_table::CaseTable;
use ruby_token::{Op, Token, TokenKind};
use ruby_words::{
    FALSE, IF, LAST_RESERVED, MODULE, NIL, RAISE, RETURN, SELF, TRUE, UNLESS, code_of,
};

/// A name that is no reserved and no left-out word. Those have the codes of `ruby_words`, from 1 to 47.
pub const NAME: u16 = 0;

/// The last code of `ruby_words`. Those of the left-out words end with it.
const LAST_WORD: u16 = 47;

/// Line ends in a row: LF or `;`.
pub const LINE: u16 = 50;

/// `User`
pub const CONST: u16 = 51;

/// `@name`
pub const IVAR: u16 = 52;

/// `key:`
pub const LABEL: u16 = 53;

/// `:key`
pub const SYM: u16 = 54;

/// `-1_000`
pub const INT: u16 = 55;

/// The quote before a text, `'` or `"`.
pub const TEXT_OPEN: u16 = 56;

/// Bytes and escapes of a text, as they are written.
pub const TEXT_PIECE: u16 = 57;

/// `#{`
pub const INSIDE_OPEN: u16 = 58;

/// The `}` that ends what `#{` began.
pub const INSIDE_CLOSE: u16 = 59;

/// The quote behind a text.
pub const TEXT_CLOSE: u16 = 60;

/// `||`
pub const OR_ELSE: u16 = 70;

/// `&&`
pub const AND_ALSO: u16 = 71;

/// `!`
pub const NOT: u16 = 72;

/// `==`
pub const SAME: u16 = 73;

/// `!=`
pub const DIFFERS: u16 = 74;

/// `<`
pub const LESS: u16 = 75;

/// `<=`
pub const AT_MOST: u16 = 76;

/// `>`
pub const MORE: u16 = 77;

/// `>=`
pub const AT_LEAST: u16 = 78;

/// `+`
pub const PLUS: u16 = 79;

/// `-`
pub const MINUS: u16 = 80;

/// `*`
pub const TIMES: u16 = 81;

/// `/`
pub const DIVIDE: u16 = 82;

/// `%`
pub const MODULO: u16 = 83;

/// `?`
pub const ASK: u16 = 84;

/// `:`
pub const COLON: u16 = 85;

/// `::`
pub const PATH: u16 = 86;

/// `.`
pub const DOT: u16 = 87;

/// `,`
pub const COMMA: u16 = 88;

/// `=`
pub const ASSIGN: u16 = 89;

/// `=>`
pub const ARROW: u16 = 90;

/// `(`
pub const OPEN_PAREN: u16 = 91;

/// `)`
pub const CLOSE_PAREN: u16 = 92;

/// `[`
pub const OPEN_BRACKET: u16 = 93;

/// `]`
pub const CLOSE_BRACKET: u16 = 94;

/// `{`, but not that of `#{`.
pub const OPEN_BRACE: u16 = 95;

/// `}`, but not that which ends a `#{`.
pub const CLOSE_BRACE: u16 = 96;

/// `|`
pub const BAR: u16 = 97;

/// The end of the file.
pub const NOTHING: u16 = 98;

/// Each operator that the profile leaves out.
pub const LEFT_OUT: u16 = 99;

/// The terminal of an operator.
pub fn operator_terminal(op: Op) -> u16
    ensures { result ≡ spec.op_terminal op }
{
    match op {
        Op::OrElse => OR_ELSE,
        Op::AndAlso => AND_ALSO,
        Op::Not => NOT,
        Op::Same => SAME,
        Op::Differs => DIFFERS,
        Op::Less => LESS,
        Op::AtMost => AT_MOST,
        Op::More => MORE,
        Op::AtLeast => AT_LEAST,
        Op::Plus => PLUS,
        Op::Minus => MINUS,
        Op::Times => TIMES,
        Op::Divide => DIVIDE,
        Op::Modulo => MODULO,
        Op::Ask => ASK,
        Op::Colon => COLON,
        Op::Path => PATH,
        Op::Dot => DOT,
        Op::Comma => COMMA,
        Op::Assign => ASSIGN,
        Op::Arrow => ARROW,
        Op::OpenParen => OPEN_PAREN,
        Op::CloseParen => CLOSE_PAREN,
        Op::OpenBracket => OPEN_BRACKET,
        Op::CloseBracket => CLOSE_BRACKET,
        Op::OpenBrace => OPEN_BRACE,
        Op::CloseBrace => CLOSE_BRACE,
        Op::Bar => BAR,
        _ => LEFT_OUT,
    }
}

fn name_terminal(words: &CaseTable<47>, text: &[u8]) -> u16
    requires { words.now ≡ word_rows }
    ensures { result ≡ spec.name_terminal text.now }
{
    match code_of(words, text) {
        Some(code) => code,
        None => NAME,
    }
}

/// The terminal of a token of these bytes. Only names are looked up.
pub fn terminal_of(words: &CaseTable<47>, bytes: &[u8], token: Token) -> u16
    requires { words.now ≡ word_rows }
    ensures { result ≡ spec.kind_terminal token.kind (text_of bytes.now token) }
{
    match token.kind {
        TokenKind::Line => LINE,
        TokenKind::Name => name_terminal(words, text_of(bytes, token)),
        TokenKind::Const => CONST,
        TokenKind::Ivar => IVAR,
        TokenKind::Label => LABEL,
        TokenKind::Sym => SYM,
        TokenKind::Int => INT,
        TokenKind::TextOpen => TEXT_OPEN,
        TokenKind::TextPiece => TEXT_PIECE,
        TokenKind::InsideOpen => INSIDE_OPEN,
        TokenKind::InsideClose => INSIDE_CLOSE,
        TokenKind::TextClose => TEXT_CLOSE,
        TokenKind::Op(op) => operator_terminal(op),
    }
}

/// The code in `ruby_words` of a word of this terminal, where it is a reserved or a left-out one.
pub fn word_code(terminal: u16) -> Option<u16>
    ensures { result ≡ code_view terminal }
{
    if (MODULE..=LAST_WORD).contains(&terminal) {
        Some(terminal)
    } else {
        None
    }
}

/// Whether the profile leaves out the word or operator of this terminal.
pub fn is_left_out(terminal: u16) -> bool
    ensures { result ≡ left_out_terminal terminal }
{
    (LAST_RESERVED + 1..=LAST_WORD).contains(&terminal) || terminal == LEFT_OUT
}

/// Whether an expression may begin with a word of this terminal.
pub fn starts_expression(terminal: u16) -> bool
    ensures { result ≡ expression_terminal terminal }
{
    matches!(
        terminal,
        NAME | SELF
            | NIL
            | TRUE
            | FALSE
            | CONST
            | IVAR
            | SYM
            | INT
            | TEXT_OPEN
            | NOT
            | MINUS
            | PATH
            | OPEN_PAREN
            | OPEN_BRACKET
            | OPEN_BRACE
    )
}

/// Whether a statement may begin with a word of this terminal.
pub fn starts_statement(terminal: u16) -> bool
    ensures { result ≡ statement_terminal terminal }
{
    matches!(terminal, IF | UNLESS | RETURN | RAISE) || starts_expression(terminal)
}
