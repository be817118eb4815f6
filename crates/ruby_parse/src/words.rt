//! The words of a file, read as a whole file.

ghost use Rattle.std.specs.Prelude.{◌≡◌, ◌↔◌, [], IsTrue};
ghost use Rattle.ruby_grammar.specs.Words.{words_of};
ghost use Rattle.ruby_grammar.specs.Numbers.{NumbersFit};
ghost use Rattle.ruby_grammar.specs.Faults.{place};
ghost use Rattle.ruby_grammar.specs.Answers.{kind_of_next};
ghost use Rattle.ruby_parse.specs.Stops.{kind_view, left_over, stop_of, GivesTree};

use crate::fault::{MEMORY, SyntaxFault, SyntaxKind};
use ruby_parse_cursor::terminals::is_left_out;
use ruby_parse_cursor::{Cursor, Fault};
use ruby_parse_definition::file;
use ruby_token::Token;
use ruby_types::FileTree;
use ruby_words::ruby_words;
use std::alloc::Global;

/// The place of the word at hand, or of the end.
fn place(cursor: &Cursor<'_>, end: u32) -> u32
    ensures { result ≡ place end cursor.now }
{
    match cursor.peek_word() {
        Some(word) => word.at,
        None => end,
    }
}

/// Why nothing goes on with the word at hand.
fn kind(cursor: &Cursor<'_>) -> SyntaxKind
    ensures { result ≡ kind_view (kind_of_next cursor.now) }
{
    if is_left_out(cursor.peek_terminal()) {
        SyntaxKind::NotInProfile
    } else {
        SyntaxKind::Expected
    }
}

/// The fault of a word that nothing goes on with, or of an end that comes too early.
fn left_over(cursor: &Cursor<'_>, end: u32) -> SyntaxFault
    ensures { result ≡ left_over end cursor.now }
{
    SyntaxFault {
        at: place(cursor, end),
        kind: kind(cursor),
    }
}

/// The fault that stopped this reader.
fn stop(fault: Fault, cursor: &Cursor<'_>, end: u32) -> SyntaxFault
    ensures { result ≡ stop_of end cursor.now fault }
{
    match fault {
        Fault::Unexpected => left_over(cursor, end),
        Fault::Deep => SyntaxFault {
            at: place(cursor, end),
            kind: SyntaxKind::TooDeep,
        },
        Fault::Barred => SyntaxFault {
            at: place(cursor, end),
            kind: SyntaxKind::NotInProfile,
        },
        Fault::Twice(at) => SyntaxFault {
            at,
            kind: SyntaxKind::TwiceDefined,
        },
        Fault::Memory => MEMORY,
    }
}

/// Whether all words are read.
fn is_at_end(cursor: &Cursor<'_>) -> bool
    ensures { IsTrue result ↔ (cursor.now ≡ []) }
{
    cursor.peek_word().is_none()
}

/// The tree of these tokens, or where reading them stops. They end at a place.
pub fn read(
    alloc: Global,
    bytes: &[u8],
    tokens: &[Token],
    end: u32,
) -> Result<FileTree, SyntaxFault>
    requires { NumbersFit (words_of bytes.now tokens.now) }
    ensures { GivesTree (words_of bytes.now tokens.now) end result }
{
    let words = ruby_words();
    let mut cursor = Cursor::new(bytes, &words, tokens);
    match file(alloc, &mut cursor) {
        Ok(tree) => {
            if is_at_end(&cursor) {
                Ok(tree)
            } else {
                Err(left_over(&cursor, end))
            }
        }
        Err(fault) => Err(stop(fault, &cursor, end)),
    }
}
