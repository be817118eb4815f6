//! The requests of targets.
ghost use Rattle.std.specs.Prelude.{◌≡◌, ◌<◌, ◌^◌, length, IfOk};
ghost use Rattle.form_urlencoded.specs.Form.{split_once};
ghost use Rattle.http_front_request.specs.Request as spec;

use crate::form::params_of;
use crate::route::route_of;
use ruby_types::Request;
use std::alloc::{AllocError, Global};

/// The greatest length of a target that is answered, in bytes.
pub const LONGEST_TARGET: usize = 2048;

/// Why a target has no request.
#[derive(Clone, Copy, Debug, PartialEq, Eq)]
pub enum TargetFault {
    /// It has so many bytes, more than `LONGEST_TARGET`.
    TooLong(u32),
    Memory,
}

/// The path and the query of a target, around its first `?`.
fn split_target(target: &[u8]) -> (&[u8], &[u8])
    ensures path { result.0.now ≡ (split_once spec.question_mark target.now).0 }
    ensures query { result.1.now ≡ (split_once spec.question_mark target.now).1 }
{
    match target.iter().position(|&byte| byte == b'?') {
        Some(place) => (&target[..place], &target[place + 1..]),
        None => (target, &[]),
    }
}

/// The request of a target of any length.
fn read_target(alloc: Global, target: &[u8]) -> Result<Request, AllocError>
    ensures { IfOk result (λ request. request ≡ spec.request_of target.now) }
{
    let (path, query) = split_target(target);
    let route = route_of(alloc, path)?;
    let params = params_of(alloc, query)?;
    Ok(Request {
        controller: route.controller,
        action: route.action,
        params,
    })
}

/// The request that a target asks for.
pub fn request_of(alloc: Global, target: &[u8]) -> Result<Request, TargetFault>
    requires { length target.now < 2 ^ 32 }
    ensures { spec.AnswersTarget target.now result }
{
    if target.len() > LONGEST_TARGET {
        return Err(TargetFault::TooLong(target.len() as u32));
    }
    match read_target(alloc, target) {
        Ok(request) => Ok(request),
        Err(_) => Err(TargetFault::Memory),
    }
}
