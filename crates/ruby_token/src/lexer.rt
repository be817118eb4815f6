//! The tokens of a file.

ghost use Rattle.std.specs.Prelude.{◌≡◌, ◌≤◌, ◌<◌, ◌^◌, [], length, IfOk, IfErr, MatchResult};
ghost use Rattle.std.specs.Str.Lossy.{utf8_valid_len};
ghost use Rattle.ruby_token.specs.Cut.{Outcome, done, fault, with_fault, is_big, stuck_at, at_end, utf8_front, Lexes};
ghost use Rattle.ruby_token.specs.Cut.{FaultGives};
ghost use Rattle.ruby_token.specs.Spans.{Spans};
ghost use Rattle.ruby_token.specs.Reading.{outcome_of};

use crate::fault::{LexFault, LexKind, MEMORY};
use crate::lexeme::{Lexeme, next_lexeme};
use crate::number::is_in_range;
use crate::state::{State, text_at};
use crate::token::{Token, TokenKind, Tokens};
use std::alloc::{AllocError, Global};

/// The tokens before the first fault, and that fault; all tokens, where there is none.
#[derive(Debug, Drop)]
pub struct Lexed {
    pub tokens: Tokens,
    pub fault: Option<LexFault>,
}

/// How many bytes at the front are UTF-8.
fn utf8_len(bytes: &[u8]) -> usize
    ensures exact { result ≡ utf8_valid_len bytes.now }
    ensures within { result ≤ length bytes.now }
{
    match std::str::from_utf8(bytes) {
        Ok(_) => bytes.len(),
        Err(e) => e.valid_up_to(),
    }
}

/// Whether this token is a number out of range.
fn is_big(kind: TokenKind, text: &[u8]) -> bool
    ensures { result ≡ is_big kind text.now }
{
    matches!(kind, TokenKind::Int) && !is_in_range(text)
}

/// The fault at the end of the bytes that are UTF-8, if there is one.
fn end_fault(is_whole: bool, state: &State, at: u32) -> Option<LexFault>
    ensures { with_fault [] result ≡ at_end is_whole state.now at }
{
    if is_whole {
        let quote = state.opens.outermost()?;
        Some(LexFault {
            at: quote,
            kind: LexKind::OpenText,
        })
    } else {
        Some(LexFault {
            at,
            kind: LexKind::BadByte,
        })
    }
}

/// The fault where no lexeme begins, with these bytes from there on.
fn stuck_fault(is_whole: bool, state: &State, at: u32, rest: &[u8]) -> Option<LexFault>
    ensures { with_fault [] result ≡ stuck_at is_whole state.now at rest.now }
{
    match text_at(&state.opens) {
        None => Some(LexFault {
            at,
            kind: LexKind::BadByte,
        }),
        Some(_) => {
            if is_whole && rest.len() == 1 {
                end_fault(is_whole, state, at)
            } else {
                Some(LexFault {
                    at,
                    kind: LexKind::BadEscape,
                })
            }
        }
    }
}

/// Cuts the front of a file that is UTF-8, lexeme by lexeme; the flag says that it is the whole file.
fn lex_front(alloc: Global, is_whole: bool, front: &[u8]) -> Result<Lexed, AllocError>
    requires { length front.now < 2 ^ 32 }
    ensures { IfOk result (λ l. with_fault l.tokens l.fault ≡ outcome_of is_whole front.now) }
{
    let mut state = State::new(alloc);
    let mut tokens = Tokens::new(alloc);
    let mut at = 0usize;
    'lexemes: while at < front.len() {
        let rest = &front[at..];
        match next_lexeme(&state, rest) {
            Lexeme::Gap(n) => {
                state.pass(&rest[..n]);
                at += n;
            }
            Lexeme::Token(kind, n) => {
                let text = &rest[..n];
                let from = at as u32;
                if is_big(kind, text) {
                    let fault = Some(LexFault {
                        at: from,
                        kind: LexKind::BigNumber,
                    });
                    return Ok(Lexed { tokens, fault });
                }
                let to = (at + n) as u32;
                tokens.push(Token { kind, from, to })?;
                state.take(kind, text, from)?;
                at += n;
            }
            Lexeme::Nothing => {
                let fault = stuck_fault(is_whole, &state, at as u32, rest);
                return Ok(Lexed { tokens, fault });
            }
        }
    }
    let fault = end_fault(is_whole, &state, at as u32);
    Ok(Lexed { tokens, fault })
}

/// The tokens of the bytes before the first fault, and that fault.
pub fn lex(alloc: Global, bytes: &[u8]) -> Result<Lexed, AllocError>
    requires { length bytes.now < 2 ^ 32 }
    // The bytes are cut so: the longest lexeme is taken at each place, up to the first fault.
    ensures found { IfOk result (λ l. Lexes bytes.now (with_fault l.tokens l.fault)) }
    // They are cut in no other way.
    ensures only { (o : Outcome) → Lexes bytes.now o → IfOk result (λ l. o ≡ with_fault l.tokens l.fault) }
    // Spans rise, and each token's slice is a text of its kind.
    ensures spans { IfOk result (λ l. Spans (utf8_front bytes.now) 0 l.tokens) }
{
    let n = utf8_len(bytes);
    lex_front(alloc, n == bytes.len(), &bytes[..n])
}

/// All tokens, where there is no fault.
fn all_or_fault(lexed: Lexed) -> Result<Tokens, LexFault>
    ensures all { IfOk result (λ ts. done ts ≡ with_fault lexed.tokens lexed.fault) }
    ensures fault { IfErr result (λ e. fault lexed.tokens e.kind e.at ≡ with_fault lexed.tokens lexed.fault) }
{
    let Lexed { tokens, fault } = lexed;
    match fault {
        None => Ok(tokens),
        Some(fault) => Err(fault),
    }
}

/// The tokens of the bytes, or the first fault.
pub fn tokens(alloc: Global, bytes: &[u8]) -> Result<Tokens, LexFault>
    requires { length bytes.now < 2 ^ 32 }
    // The bytes are cut into these tokens: the longest lexeme is taken at each place.
    ensures found { IfOk result (λ ts. Lexes bytes.now (done ts)) }
    // Spans rise, and each token's slice is a text of its kind.
    ensures spans { IfOk result (λ ts. Spans bytes.now 0 ts) }
    // A fault is the one that the cut ends in.
    ensures fault { IfErr result (λ e. (o : Outcome) × Lexes bytes.now o × FaultGives e.kind e.at o) }
    // They are cut in no other way.
    ensures only { (o : Outcome) → Lexes bytes.now o →
        MatchResult result (λ ts. o ≡ done ts) (λ e. FaultGives e.kind e.at o) }
{
    match lex(alloc, bytes) {
        Err(_) => Err(MEMORY),
        Ok(lexed) => all_or_fault(lexed),
    }
}
