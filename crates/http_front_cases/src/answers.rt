//! What `http_front` gives.

use crate::replies::{notice_of, status_of};
use crate::written::bytes_of;
use http_front::{Head, HeadParts, TargetFault, Verb, print_response, read_head, request_of};
use ruby_types::{Reply, Request, Text, Value};
use std::alloc::{AllocError, Global};

fn bytes_from(alloc: Global, text: &str) -> Result<Vec<u8>, AllocError> {
    Vec::from_slice(alloc, text.as_bytes())
}

/// A whole head: its length, its method, and its target, `close` and `body` where they hold.
fn shown_parts(alloc: Global, length: usize, parts: &HeadParts) -> Result<Vec<u8>, AllocError> {
    let verb = match parts.verb {
        Verb::Get => "get",
        Verb::HeadOnly => "head",
        Verb::Other => "other",
    };
    let close = if parts.close { " close" } else { "" };
    let body = if parts.body { " body" } else { "" };
    let mut shown = format!(in alloc; "whole {length} {verb}{close}{body} ")?.into_bytes();
    shown.extend_from_slice(parts.target.as_bytes())?;
    Ok(shown)
}

fn shown_head(alloc: Global, head: &Head) -> Result<Vec<u8>, AllocError> {
    match head {
        Head::Whole(length, parts) => shown_parts(alloc, *length, parts),
        Head::More => bytes_from(alloc, "more"),
        Head::Bad => bytes_from(alloc, "bad"),
        Head::Long => bytes_from(alloc, "long"),
        Head::Many => bytes_from(alloc, "many"),
        Head::Memory => bytes_from(alloc, "memory"),
    }
}

/// The text of a symbol or a text.
fn value_bytes(value: &Value) -> &[u8] {
    match value {
        Value::Sym(text) => text.as_bytes(),
        Value::Str(text) => text.as_bytes(),
        _ => b"?",
    }
}

/// The parameters: ` name=value` for each.
fn push_params(shown: &mut Vec<u8>, params: &[(Value, Value)]) -> Result<(), AllocError> {
    for (name, value) in params {
        shown.push(b' ')?;
        shown.extend_from_slice(value_bytes(name))?;
        shown.push(b'=')?;
        shown.extend_from_slice(value_bytes(value))?;
    }
    Ok(())
}

/// The controller's segments, each with a `/` behind it.
fn push_controller(shown: &mut Vec<u8>, controller: &[Text]) -> Result<(), AllocError> {
    for segment in controller {
        shown.extend_from_slice(segment.as_bytes())?;
        shown.push(b'/')?;
    }
    Ok(())
}

fn shown_request(alloc: Global, request: &Request) -> Result<Vec<u8>, AllocError> {
    let mut shown = Vec::new(alloc);
    if request.controller.is_empty() {
        shown.extend_from_slice(b"no route")?;
    }
    push_controller(&mut shown, request.controller.as_slice())?;
    shown.extend_from_slice(request.action.as_bytes())?;
    push_params(&mut shown, request.params.as_slice())?;
    Ok(shown)
}

fn target_found(alloc: Global, target: &[u8]) -> Result<Vec<u8>, AllocError> {
    if target.len() >= 1_000_000 {
        return Ok(Vec::new(alloc));
    }
    match request_of(alloc, target) {
        Ok(request) => shown_request(alloc, &request),
        Err(TargetFault::TooLong(length)) => Ok(format!(in alloc;
            "too long {length}"
        )?.into_bytes()),
        Err(TargetFault::Memory) => bytes_from(alloc, "memory"),
    }
}

fn notice_found(alloc: Global, text: &str) -> Result<Option<Vec<u8>>, AllocError> {
    let (cause, rest) = text.split_once(", ").unwrap_or((text, ""));
    let Some(notice) = notice_of(alloc, cause, rest)? else {
        return Ok(None);
    };
    let reply = notice.reply(alloc)?;
    let mut shown = format!(in alloc; "{} ", reply.status)?.into_bytes();
    shown.extend_from_slice(reply.body.as_bytes())?;
    Ok(Some(shown))
}

/// The response with the status, the generation and the body that the text has.
fn response_found(
    alloc: Global,
    text: &str,
    close: bool,
    head_only: bool,
) -> Result<Option<Vec<u8>>, AllocError> {
    let Some((status, rest)) = text.split_once(' ') else {
        return Ok(None);
    };
    let (generation, body) = rest.split_once(' ').unwrap_or((rest, ""));
    let Some(status) = status_of(status) else {
        return Ok(None);
    };
    let body = Text::from_bytes(alloc, body.as_bytes())?;
    let reply = Reply { status, body };
    let generation = generation.parse::<u32>().ok();
    let bytes = print_response(alloc, &reply, generation, close, head_only)?;
    Ok(Some(Vec::from_slice(alloc, bytes.as_bytes())?))
}

/// What is found of a case of this kind; nothing, where there is no such case.
pub fn found(alloc: Global, kind: &str, text: &str) -> Result<Option<Vec<u8>>, AllocError> {
    match kind {
        "head" => {
            let bytes = bytes_of(alloc, text)?;
            Ok(Some(shown_head(alloc, &read_head(alloc, bytes.as_slice()))?))
        }
        "request" => Ok(Some(target_found(alloc, bytes_of(alloc, text)?.as_slice())?)),
        "notice" => notice_found(alloc, text),
        "response" => response_found(alloc, text, false, false),
        "closing response" => response_found(alloc, text, true, false),
        "head response" => response_found(alloc, text, false, true),
        _ => Ok(None),
    }
}
