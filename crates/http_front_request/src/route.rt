//! The routes of paths.
ghost use Rattle.std.specs.Prelude.{◌≡◌, [], IfOk, IsTrue, map};
ghost use Rattle.std.specs.List.{list_all};
ghost use Rattle.http_front_request.specs.Request as spec;

use lists::Copying;
use plain_text::segments;
use ruby_types::{Text, TextList};
use std::alloc::{AllocError, Global};

/// A controller's segments and the action. Without a route the controller has no segment.
#[derive(Drop)]
pub struct Route {
    pub controller: TextList,
    pub action: Text,
}

fn is_segment_byte(byte: u8) -> bool
    ensures { result ≡ spec.is_segment_byte byte }
{
    byte.is_ascii_lowercase() || byte.is_ascii_digit() || byte == b'_'
}

fn are_segment_bytes(bytes: &[u8]) -> bool
    ensures { result ≡ list_all spec.is_segment_byte bytes.now }
{
    bytes.iter().all(|byte| is_segment_byte(*byte))
}

fn is_route_segment(segment: &[u8]) -> bool
    ensures { result ≡ spec.is_route_segment segment.now }
{
    match segment.split_first() {
        None => false,
        Some((first, others)) => first.is_ascii_lowercase() && are_segment_bytes(others),
    }
}

fn are_route_segments(segments: &[Text]) -> bool
    ensures { result ≡ list_all spec.is_route_segment segments.now }
{
    segments
        .iter()
        .all(|segment| is_route_segment(segment.as_bytes()))
}

/// The segments of a route among those of a path, the first of which stands before the first `/`.
fn route_segments(segments: &[Text]) -> &[Text]
    ensures { result.now ≡ spec.route_segments segments.now }
{
    match segments.split_first() {
        None => &[],
        Some((before, segments)) => {
            if before.is_empty() && are_route_segments(segments) {
                segments
            } else {
                &[]
            }
        }
    }
}

/// The route of these segments.
#[tactic(auto, using(crate::proofs::Routes::routed_last))]
fn routed(alloc: Global, segments: &[Text]) -> Result<Route, AllocError>
    ensures { IfOk result (λ route. (route.controller, route.action) ≡ spec.routed segments.now) }
{
    let Some((last, others)) = segments.split_last() else {
        return Ok(Route {
            controller: TextList::new(alloc),
            action: Text::new(alloc),
        });
    };
    if others.is_empty() {
        return Ok(Route {
            controller: TextList::from_slice(alloc, segments)?,
            action: Text::from_bytes(alloc, b"index")?,
        });
    }
    Ok(Route {
        controller: TextList::from_slice(alloc, others)?,
        action: last.copy()?,
    })
}

/// The route of a path.
pub fn route_of(alloc: Global, path: &[u8]) -> Result<Route, AllocError>
    ensures { IfOk result (λ route. (route.controller, route.action) ≡ spec.route_of path.now) }
{
    let segments = segments(alloc, path)?;
    routed(alloc, route_segments(segments.as_slice()))
}
