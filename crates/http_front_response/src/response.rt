//! The bytes of responses.
ghost use Rattle.std.specs.Prelude.{◌≡◌, ◌≤◌, ◌++◌, length, IfOk, OnOk, codes};
ghost use Rattle.std.specs.String.{string_bytes};
ghost use Rattle.http_front_response.specs.Response as spec;
ghost use Rattle.http_front_response.specs.Response.{HasReason};

use http::StatusCode;
use ruby_types::{Reply, Text};
use std::alloc::{AllocError, Global};

/// The phrase that HTTP gives the status.
fn reason(status: u16) -> &'static str
    requires { HasReason status }
    ensures { result.now ≡ spec.reason_of status }
{
    match StatusCode::from_u16(status) {
        Ok(status) => status.canonical_reason().unwrap_or(""),
        Err(_) => "",
    }
}

/// The lines that every response has.
fn print_lines(
    alloc: Global,
    status: u16,
    reason: &str,
    length: usize,
) -> Result<String, AllocError>
    ensures { IfOk result (λ lines. string_bytes lines ≡ spec.first_lines status reason.now length) }
{
    let lines = format!(in alloc;
        "HTTP/1.1 {status} {reason}\r\ncontent-type: text/plain; charset=utf-8\r\ncontent-length: {length}\r\n"
    )?;
    Ok(lines)
}

/// Writes the generation's line, where there is one.
fn push_generation(
    alloc: Global,
    bytes: &mut Vec<u8>,
    generation: Option<u32>,
) -> Result<(), AllocError>
    ensures { OnOk result (bytes.new.items ≡ bytes.old.items ++ spec.generation_line generation) }
{
    match generation {
        None => Ok(()),
        Some(generation) => {
            let line = format!(in alloc; "x-generation: {generation}\r\n")?;
            bytes.extend_from_slice(line.as_bytes())
        }
    }
}

/// The line of the methods that are served, where the status asks for it.
fn allow_line(status: u16) -> &'static [u8]
    ensures { result.now ≡ spec.allow_line status }
{
    if status == 405 {
        b"allow: GET, HEAD\r\n"
    } else {
        b""
    }
}

/// The line that tells that the connection closes, where it does.
fn close_line(close: bool) -> &'static [u8]
    ensures { result.now ≡ spec.close_line close }
{
    if close { b"connection: close\r\n" } else { b"" }
}

/// The body, unless it is left out.
fn sent_body(reply: &Reply, head_only: bool) -> &[u8]
    ensures { result.now ≡ spec.sent_body reply.now head_only }
{
    if head_only {
        b""
    } else {
        reply.body.as_bytes()
    }
}

/// The bytes of the response with this reply: of this generation, where it is of one; whether the connection closes
/// behind it; whether it is to a HEAD and lacks the body. Its status is one that has a reason here.
#[tactic(auto, using(crate::proofs::Sizes::response_has_bytes))]
pub fn print_response(
    alloc: Global,
    reply: &Reply,
    generation: Option<u32>,
    close: bool,
    head_only: bool,
) -> Result<Text, AllocError>
    requires { HasReason reply.now.status }
    ensures bytes { IfOk result (λ bytes. bytes ≡ spec.response_bytes reply.now generation close head_only) }
    ensures some { IfOk result (λ bytes. 1 ≤ length bytes) }
{
    let status = reply.status;
    let lines = print_lines(alloc, status, reason(status), reply.body.len())?;
    let mut bytes = lines.into_bytes();
    push_generation(alloc, &mut bytes, generation)?;
    bytes.extend_from_slice(allow_line(status))?;
    bytes.extend_from_slice(close_line(close))?;
    bytes.extend_from_slice(b"\r\n")?;
    bytes.extend_from_slice(sent_body(reply, head_only))?;
    Text::from_vec(alloc, bytes)
}
