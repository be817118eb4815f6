//! What bytes are, before a head in them is judged.
ghost use Rattle.std.specs.Prelude.{◌≡◌, ◌++◌, ◌∷◌, [], length, IsTrue};
ghost use Rattle.httparse.specs.Grammar.{RequestHead, ReadsRequest, HasNoRequest, NeverHasRequest, MayBecomeRequest};
ghost use Rattle.httparse.specs.Spans.{RequestExceeds};
ghost use Rattle.http_front_head.specs.Heads.{most_lines, IsKind};

use crate::parts::MOST_LINES;
use crate::scan::{ends_in_target, head_end};
use httparse::spans::{EMPTY_HEADER_SPAN, HeaderSpan, RequestSpans, parse_request};
use httparse::{Error, Status};

/// What bytes are, before a head in them is judged.
#[derive(Clone, Copy)]
pub enum Kind {
    /// They begin with a head, whose parts stand there.
    Found(RequestSpans),
    /// They can become one.
    Open,
    /// They can't.
    Lost,
    /// They have too many header lines.
    Crowded,
}

/// The number of lines from which on header lines may be too many: a start line, and one header line more than allowed.
const MANY_LINES: usize = MOST_LINES + 2;

/// Whether these lines can become a head of one header line more than allowed, or of fewer.
#[tactic(auto, using(crate::proofs::ManyLines::none_complete, crate::proofs::ManyLines::none_refused))]
fn can_go_on(lines: &[u8]) -> bool
    ensures none { IsTrue result → HasNoRequest lines.now }
    ensures may { IsTrue result → MayBecomeRequest lines.now }
    ensures many { ¬ (IsTrue result) → (head : RequestHead) → ReadsRequest (lines.now ++ 10 ∷ []) head []
        → length head.fields ≡ 65 → ⊥ }
{
    let mut headers = [EMPTY_HEADER_SPAN; MOST_LINES + 1];
    match parse_request(lines, &mut headers) {
        Ok(Status::Complete(_)) => false,
        Ok(Status::Partial) => true,
        Err(_) => false,
    }
}

/// Whether bytes have too many header lines.
fn is_crowded(bytes: &[u8]) -> bool
    ensures many { IsTrue result → RequestExceeds most_lines bytes.now }
    ensures few { ¬ (IsTrue result) → ¬ (RequestExceeds most_lines bytes.now) }
{
    match head_end(bytes, MANY_LINES) {
        None => false,
        Some(end) => can_go_on(&bytes[..end]),
    }
}

/// The kind of bytes that the parser refuses, if not for their number of header lines.
#[tactic(auto, using(crate::proofs::Targets::open_in_target))]
fn refused_kind(bytes: &[u8]) -> Kind
    requires { NeverHasRequest bytes.now }
    ensures { IsKind bytes.now [] result }
{
    if is_crowded(bytes) {
        Kind::Crowded
    } else if ends_in_target(bytes) {
        Kind::Open
    } else {
        Kind::Lost
    }
}

/// The kind of bytes that are no head so far and can become one.
fn partial_kind(bytes: &[u8]) -> Kind
    requires { HasNoRequest bytes.now × MayBecomeRequest bytes.now }
    ensures { IsKind bytes.now [] result }
{
    match head_end(bytes, MANY_LINES) {
        None => Kind::Open,
        Some(_) => Kind::Crowded,
    }
}

/// What bytes are. The places of a head's header lines are written to `headers`.
pub fn kind_of(bytes: &[u8], headers: &mut [HeaderSpan]) -> Kind
    requires { length headers.old ≡ most_lines }
    ensures room { length headers.new ≡ most_lines }
    ensures kind { IsKind bytes.now headers.new result }
{
    match parse_request(bytes, headers) {
        Ok(Status::Complete(spans)) => Kind::Found(spans),
        Ok(Status::Partial) => partial_kind(bytes),
        Err(Error::TooManyHeaders) => Kind::Crowded,
        Err(_) => refused_kind(bytes),
    }
}
