//! Scans for what the parser leaves open.
ghost use Rattle.std.specs.Prelude.{◌≡◌, ◌≤◌, ◌<◌, ◌+◌, ℕ, length, drop, IfSome, IfNone, IsTrue};
ghost use Rattle.httparse.specs.Grammar.{EndsInTarget};
ghost use Rattle.http_front_head.specs.Lines as spec;

use httparse::{is_method_token, is_uri_token};

/// Where so many lines end, the first of which begins at `from`; none where there are fewer.
fn line_end(bytes: &[u8], from: usize, lines: usize) -> Option<usize>
    requires { from ≤ length bytes.now }
    ensures within { IfSome result (λ end. end ≤ length bytes.now) }
    ensures place { IfSome result (λ end. end ≡ from + spec.lines_end lines (drop from bytes.now)) }
    ensures there { IfSome result (λ end. lines ≤ spec.feeds (drop from bytes.now)) }
    ensures fewer { IfNone result (spec.feeds (drop from bytes.now) < lines) }
{
    let mut at = from;
    let mut left = lines;
    while left > 0 {
        if at >= bytes.len() {
            return None;
        }
        if bytes[at] == b'\n' {
            left -= 1;
        }
        at += 1;
    }
    Some(at)
}

/// Where the first byte stands that is neither CR nor LF.
fn blank_end(bytes: &[u8]) -> usize
    ensures within { result ≤ length bytes.now }
    ensures place { (n : ℕ) → spec.head_end n bytes.now ≡ result + spec.lines_end n (drop result bytes.now) }
    ensures count { spec.line_count bytes.now ≡ spec.feeds (drop result bytes.now) }
{
    let mut at = 0;
    while at < bytes.len() {
        if bytes[at] != b'\r' && bytes[at] != b'\n' {
            return at;
        }
        at += 1;
    }
    at
}

/// Where so many lines end, from the first byte on that is neither CR nor LF; none where there are fewer.
pub fn head_end(bytes: &[u8], lines: usize) -> Option<usize>
    ensures within { IfSome result (λ end. end ≤ length bytes.now) }
    ensures place { IfSome result (λ end. end ≡ spec.head_end lines bytes.now) }
    ensures there { IfSome result (λ end. lines ≤ spec.line_count bytes.now) }
    ensures fewer { IfNone result (spec.line_count bytes.now < lines) }
{
    line_end(bytes, blank_end(bytes), lines)
}

/// How far a scan for a target came.
#[derive(Clone, Copy)]
pub enum Stage {
    Blank,
    AfterCr,
    Method,
    Target,
    Lost,
}

impl Stage {
    fn after_blank(byte: u8) -> Stage
        ensures { result ≡ spec.next_stage Stage.Blank byte }
    {
        if byte == b'\n' {
            Stage::Blank
        } else if byte == b'\r' {
            Stage::AfterCr
        } else if is_method_token(byte) {
            Stage::Method
        } else {
            Stage::Lost
        }
    }

    fn after_method(byte: u8) -> Stage
        ensures { result ≡ spec.next_stage Stage.Method byte }
    {
        if byte == b' ' {
            Stage::Target
        } else if is_method_token(byte) {
            Stage::Method
        } else {
            Stage::Lost
        }
    }

    /// One byte on.
    fn after(self, byte: u8) -> Stage
        ensures { result ≡ spec.next_stage self byte }
    {
        match self {
            Stage::Blank => Stage::after_blank(byte),
            Stage::AfterCr if byte == b'\n' => Stage::Blank,
            Stage::Method => Stage::after_method(byte),
            Stage::Target if is_uri_token(byte) => Stage::Target,
            _ => Stage::Lost,
        }
    }
}

/// Whether the bytes end inside a request's target.
pub fn ends_in_target(bytes: &[u8]) -> bool
    ensures inside { IsTrue result → EndsInTarget bytes.now }
    ensures past { ¬ (IsTrue result) → ¬ (EndsInTarget bytes.now) }
{
    let mut stage = Stage::Blank;
    for byte in bytes {
        stage = stage.after(*byte);
    }
    matches!(stage, Stage::Target)
}
