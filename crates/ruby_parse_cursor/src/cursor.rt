//! The cursor of the parser: the words of a file that are left to read.

ghost use Rattle.std.specs.Prelude.{◌≡◌, ◌∷◌, ◌&&◌, ◌==◌, ◌<◌, [], drop, true, false, MatchOption, IfOk, OnOk, OnErr};
ghost use Rattle.std.specs.Prelude.{List, ℕ};
ghost use Rattle.std.specs.Prelude.{IfErr};
ghost use Rattle.ruby_words.specs.Words.{word_rows};
ghost use Rattle.ruby_grammar.specs.Words as spec;
ghost use Rattle.ruby_token.specs.Spans.{text_of};
ghost use Rattle.ruby_grammar.specs.Words.{words_of, words_behind};
ghost use Rattle.ruby_grammar.specs.Numbers.{NumbersFit};
ghost use Rattle.ruby_grammar.specs.Values.{number_of};
ghost use Rattle.ruby_grammar.specs.Terminals.{is, is_assign, is_int, kind_terminal};
ghost use Rattle.ruby_grammar.specs.Choices.{next_is};
ghost use Rattle.descent.specs.Reading.{head, second};
ghost use Rattle.ruby_parse_cursor.specs.Views.{word_view, head_terminal, code_view};

use crate::fault::Fault;
use crate::numbers::number_value;
use crate::terminals::{ASSIGN, INT, NOTHING, operator_terminal, terminal_of, word_code};
use crate::word::{Word, text_of};
use case_table::CaseTable;
use ruby_token::{Token, TokenKind};
use std::marker::Model;

/// The words that are left. The first one is at hand.
#[derive(Drop)]
pub struct Cursor<'a> {
    bytes: &'a [u8],
    words: &'a CaseTable<47>,
    rest: &'a [Token],
    /// Where the token before ends.
    before: u32,
    /// The terminal of the word at hand.
    terminal: u16,
}

impl<'a> Model for Cursor<'a> {
    ghost use Rattle.std.specs.Prelude.{◌≡◌, List};
    ghost use Rattle.ruby_words.specs.Words.{word_rows};
    ghost use Rattle.ruby_grammar.specs.Words.{Word, words_behind};
    ghost use Rattle.ruby_grammar.specs.Numbers.{NumbersFit};
    ghost use Rattle.ruby_parse_cursor.specs.Views.{head_terminal};

    ghost Value = { List Word };

    ghost view = { λ r. words_behind r.bytes.now r.before r.rest.now };

    ghost invariant = { λ r. (r.words.now ≡ word_rows)
        × (r.terminal ≡ head_terminal (words_behind r.bytes.now r.before r.rest.now))
        × NumbersFit (words_behind r.bytes.now r.before r.rest.now) };
}

fn word_of(bytes: &[u8], before: u32, token: Token) -> Word<'_>
    ensures { word_view result
        ≡ record { kind = token.kind; text = text_of bytes.now token; tight = before == token.from; at = token.from } }
{
    Word {
        kind: token.kind,
        text: text_of(bytes, token),
        tight: before == token.from,
        at: token.from,
    }
}

/// The terminal of the first of these tokens.
fn first_terminal(bytes: &[u8], words: &CaseTable<47>, before: u32, tokens: &[Token]) -> u16
    requires { words.now ≡ word_rows }
    ensures { result ≡ head_terminal (words_behind bytes.now before tokens.now) }
{
    match tokens {
        [] => NOTHING,
        [token, ..] => terminal_of(words, bytes, *token),
    }
}

/// Whether a token of this kind is `=`, whatever its text.
fn is_assign_kind(kind: TokenKind) -> bool
    ensures { (text : List ℕ) → result ≡ (kind_terminal kind text == 89) }
{
    match kind {
        TokenKind::Op(op) => operator_terminal(op) == ASSIGN,
        _ => false,
    }
}

/// Whether the first of these tokens is `=`, whatever their texts.
fn begins_assign(tokens: &[Token]) -> bool
    ensures { (bytes : List ℕ) (before : ℕ) →
        result ≡ next_is is_assign (head (words_behind bytes before tokens.now)) }
{
    match tokens {
        [] => false,
        [token, ..] => is_assign_kind(token.kind),
    }
}

impl<'a> Cursor<'a> {
    /// The cursor before the first of the tokens of `bytes`; `words` is the table of the words that are no names.
    pub fn new(bytes: &'a [u8], words: &'a CaseTable<47>, tokens: &'a [Token]) -> Cursor<'a>
        requires words { words.now ≡ word_rows }
        requires numbers { NumbersFit (words_of bytes.now tokens.now) }
        ensures { result ≡ words_of bytes.now tokens.now }
    {
        Cursor {
            bytes,
            words,
            rest: tokens,
            before: 0,
            terminal: first_terminal(bytes, words, 0, tokens),
        }
    }

    /// The terminal of the word at hand.
    pub fn peek_terminal(&self) -> u16
        ensures { result ≡ head_terminal self.now }
    {
        self.terminal
    }

    /// The code in `ruby_words` of the word at hand, where it is a reserved or a left-out one.
    pub fn peek_code(&self) -> Option<u16>
        ensures { result ≡ code_view (head_terminal self.now) }
    {
        word_code(self.terminal)
    }

    /// Whether the word at hand has this terminal.
    pub fn sees(&self, terminal: u16) -> bool
        requires { terminal < 98 }
        ensures { result ≡ next_is (is terminal) (head self.now) }
    {
        self.terminal == terminal
    }

    /// The word at hand, which stays.
    pub fn peek_word(&self) -> Option<Word<'a>>
        ensures first { MatchOption result (self.now ≡ []) (λ w. self.now ≡ word_view w ∷ drop 1 self.now) }
        // The lexer lets no other number through.
        ensures numbers { NumbersFit self.now }
    {
        match self.rest {
            [] => None,
            [token, ..] => Some(word_of(self.bytes, self.before, *token)),
        }
    }

    /// Whether the word at hand has this terminal and stands directly behind the one before it.
    pub fn sees_tight(&self, terminal: u16) -> bool
        requires { terminal < 98 }
        ensures { result ≡ next_is (λ w. is terminal w && w.tight) (head self.now) }
    {
        match self.rest {
            [] => false,
            [token, ..] => self.terminal == terminal && self.before == token.from,
        }
    }

    /// Whether the word behind the one at hand is `=`.
    pub fn sees_assign_behind(&self) -> bool
        ensures { result ≡ next_is is_assign (second self.now) }
    {
        match self.rest {
            [] => false,
            [_, behind @ ..] => begins_assign(behind),
        }
    }

    /// Passes over the word at hand, if there is one.
    pub fn skip(&mut self)
        ensures { self.new ≡ drop 1 self.old }
    {
        match self.rest {
            [] => {}
            [token, behind @ ..] => {
                self.terminal = first_terminal(self.bytes, self.words, token.to, behind);
                self.before = token.to;
                self.rest = behind;
            }
        }
    }

    /// Passes over the word at hand, which has to have this terminal.
    pub fn take(&mut self, terminal: u16) -> Result<(), Fault>
        requires { terminal < 98 }
        ensures ok { OnOk result (next_is (is terminal) (head self.old) ≡ true) }
        ensures passed { OnOk result (self.new ≡ drop 1 self.old) }
        ensures fault { IfErr result (λ e. e ≡ Fault.Unexpected) }
        ensures stays { OnErr result (self.new ≡ self.old) }
        ensures other { OnErr result (next_is (is terminal) (head self.old) ≡ false) }
    {
        if self.sees(terminal) {
            self.skip();
            Ok(())
        } else {
            Err(Fault::Unexpected)
        }
    }

    /// Passes over the word at hand, which has to have this terminal, and gives it.
    pub fn take_word(&mut self, terminal: u16) -> Result<Word<'a>, Fault>
        requires { terminal < 98 }
        ensures ok { IfOk result (λ w. self.old ≡ word_view w ∷ self.new) }
        ensures terminal { IfOk result (λ w. is terminal (word_view w) ≡ true) }
        ensures fault { IfErr result (λ e. e ≡ Fault.Unexpected) }
        ensures stays { OnErr result (self.new ≡ self.old) }
        ensures other { OnErr result (next_is (is terminal) (head self.old) ≡ false) }
    {
        match self.peek_word() {
            Some(word) if self.sees(terminal) => {
                self.skip();
                Ok(word)
            }
            _ => Err(Fault::Unexpected),
        }
    }

    /// Passes over a number, which has to be at hand, and gives its value.
    pub fn take_number(&mut self) -> Result<i64, Fault>
        ensures ok { IfOk result (λ n. (w : spec.Word) × (self.old ≡ w ∷ self.new) × (is_int w ≡ true)
            × (n ≡ number_of w.text)) }
        ensures fault { IfErr result (λ e. e ≡ Fault.Unexpected) }
        ensures stays { OnErr result (self.new ≡ self.old) }
        ensures other { OnErr result (next_is is_int (head self.old) ≡ false) }
    {
        match self.peek_word() {
            Some(word) if self.sees(INT) => {
                self.skip();
                Ok(number_value(word.text))
            }
            _ => Err(Fault::Unexpected),
        }
    }
}
