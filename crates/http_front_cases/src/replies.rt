//! The replies and notices that cases name.
ghost use Rattle.std.specs.Prelude.{IfSome};
ghost use Rattle.http_front_response.specs.Response.{HasReason};

use http_front::Notice;
use ruby_types::Text;
use std::alloc::{AllocError, Global};

/// A status that responses have.
pub fn status_of(word: &str) -> Option<u16>
    ensures { IfSome result (λ status. HasReason status) }
{
    match word {
        "200" => Some(200),
        "400" => Some(400),
        "404" => Some(404),
        "405" => Some(405),
        "414" => Some(414),
        "431" => Some(431),
        "500" => Some(500),
        "503" => Some(503),
        _ => None,
    }
}

/// The notice of a cause and what stands behind it.
pub fn notice_of(alloc: Global, cause: &str, rest: &str) -> Result<Option<Notice>, AllocError> {
    let number = rest.parse::<u64>().unwrap_or(0);
    let small = u32::try_from(number).unwrap_or(0);
    let notice = match cause {
        "files unread" => Notice::FilesUnread,
        "application" => Notice::Application(Text::from_bytes(alloc, rest.as_bytes())?),
        "generations" => Notice::GenerationsFull(small),
        "kept bytes" => Notice::KeptBytesFull(number),
        "requests" => Notice::RequestsFull(small),
        "replies" => Notice::RepliesFull(number),
        "method" => Notice::Method,
        "body" => Notice::Body,
        "target" => Notice::Target,
        "bad request" => Notice::BadRequest,
        "head too long" => Notice::HeadTooLong,
        "too many lines" => Notice::TooManyLines,
        _ => return Ok(None),
    };
    Ok(Some(notice))
}
