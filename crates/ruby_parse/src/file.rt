//! Files as trees.

ghost use Rattle.std.specs.Prelude.{◌≡◌, ℕ, List, ◌<◌, ◌^◌, length, IfOk, IfErr, MatchResult};
ghost use Rattle.ruby_types.specs.declared.tree.FileTree.{FileTree as Tree};
ghost use Rattle.ruby_token.specs.declared.token.Token.{Token};
ghost use Rattle.ruby_token.specs.Cut.{Lexes, fault};
ghost use Rattle.ruby_grammar.specs.Words.{words_of};
ghost use Rattle.ruby_grammar.specs.Faults.{IsText};
ghost use Rattle.ruby_parse.specs.Answers.{IsFaultOf};
ghost use Rattle.ruby_parse.specs.Stops.{stop, words_end, Stopped, GivesTree};

use crate::fault::{MEMORY, SyntaxFault, SyntaxKind};
use crate::words::read;
use ruby_token::{LexFault, Lexed, lex};
use ruby_types::FileTree;
use std::alloc::Global;

/// The place at which the words of a file end.
fn words_end(bytes: &[u8], fault: Option<LexFault>) -> u32
    requires { length bytes.now < 2 ^ 32 }
    ensures { result ≡ words_end bytes.now fault }
{
    match fault {
        Some(fault) => fault.at,
        None => bytes.len() as u32,
    }
}

/// A fault of the lexer as a fault of the file.
fn of_lexer(fault: LexFault) -> SyntaxFault
    ensures { result ≡ stop fault.at SyntaxKind.Lex }
{
    SyntaxFault {
        at: fault.at,
        kind: SyntaxKind::Lex,
    }
}

/// The earlier one of a fault of the reader and one of the lexer, and the lexer's of two at one place.
fn earlier(stop: SyntaxFault, lexical: LexFault) -> SyntaxFault
    ensures { (bytes : List ℕ) (tokens : List Token) → Lexes bytes (fault tokens lexical.kind lexical.at) →
        Stopped (words_of bytes tokens) lexical.at stop → IsFaultOf bytes result }
{
    if stop.at < lexical.at {
        stop
    } else {
        of_lexer(lexical)
    }
}

/// The first fault of a file with this fault of the lexer, where this was read of the words before it.
fn first_fault(read: Result<FileTree, SyntaxFault>, lexical: LexFault) -> SyntaxFault
    ensures { (bytes : List ℕ) (tokens : List Token) → Lexes bytes (fault tokens lexical.kind lexical.at) →
        GivesTree (words_of bytes tokens) lexical.at read → IsFaultOf bytes result }
{
    match read {
        Ok(_tree) => of_lexer(lexical),
        Err(stop) => earlier(stop, lexical),
    }
}

/// The tree of a file, by the profile's grammar, or the file's first fault.
pub fn parse(alloc: Global, bytes: &[u8]) -> Result<FileTree, SyntaxFault>
    requires { length bytes.now < 2 ^ 32 }
    // The bytes are a text of the profile, and this is its tree.
    ensures found { IfOk result (λ tree. IsText bytes.now tree) }
    // A text has no other tree and no fault; only memory may want.
    ensures only { (tree : Tree) → IsText bytes.now tree →
        MatchResult result (λ found. found ≡ tree) (λ e. e.kind ≡ SyntaxKind.Memory) }
    // Otherwise the fault is the first one of the bytes.
    ensures fault { IfErr result (IsFaultOf bytes.now) }
{
    match lex(alloc, bytes) {
        Err(_) => Err(MEMORY),
        Ok(lexed) => {
            let Lexed { tokens, fault } = lexed;
            let read = read(alloc, bytes, tokens.as_slice(), words_end(bytes, fault));
            match fault {
                None => read,
                Some(lexical) => Err(first_fault(read, lexical)),
            }
        }
    }
}
