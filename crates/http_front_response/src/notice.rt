//! Replies that no application gives.
ghost use Rattle.std.specs.Prelude.{◌≡◌, IfOk};
ghost use Rattle.std.specs.String.{string_bytes};
ghost use Rattle.http_front_response.specs.Notices as spec;
ghost use Rattle.http_front_response.specs.Response.{HasReason};

use lists::Copying;
use ruby_types::{Reply, Text};
use std::alloc::{AllocError, Global};

/// Why a request, or what is no request, has no reply of the application's own.
#[derive(Drop)]
pub enum Notice {
    /// The application's files could not be read.
    FilesUnread,
    /// The application is refused; the text says why.
    Application(Text),
    /// So many generations were made.
    GenerationsFull(u32),
    /// So many bytes of changed files would be kept.
    KeptBytesFull(u64),
    /// So many requests were begun or refused.
    RequestsFull(u32),
    /// So many bytes of replies are kept.
    RepliesFull(u64),
    /// The method is none that is served.
    Method,
    /// The head announces a body.
    Body,
    /// The target is too long.
    Target,
    /// The bytes are no request's head.
    BadRequest,
    /// The head has too many bytes.
    HeadTooLong,
    /// The head has too many header lines.
    TooManyLines,
}

fn print_limit(alloc: Global, name: &str, number: u64) -> Result<String, AllocError>
    ensures { IfOk result (λ text. string_bytes text ≡ spec.limit_text name.now number) }
{
    let text = format!(in alloc; "limit: {name} {number}")?;
    Ok(text)
}

fn limit_text(alloc: Global, name: &str, number: u64) -> Result<Text, AllocError>
    ensures { IfOk result (λ text. text ≡ spec.limit_text name.now number) }
{
    let text = print_limit(alloc, name, number)?;
    Text::from_vec(alloc, text.into_bytes())
}

impl Notice {
    /// The status that tells it.
    pub fn status(&self) -> u16
        ensures status { result ≡ spec.notice_status self.now }
        ensures known { HasReason result }
    {
        match self {
            Notice::FilesUnread | Notice::Application(_) => 500,
            Notice::GenerationsFull(_) | Notice::KeptBytesFull(_) => 503,
            Notice::RequestsFull(_) | Notice::RepliesFull(_) => 503,
            Notice::Method => 405,
            Notice::Body | Notice::BadRequest => 400,
            Notice::Target => 414,
            Notice::HeadTooLong | Notice::TooManyLines => 431,
        }
    }

    /// The text that tells it.
    fn text(&self, alloc: Global) -> Result<Text, AllocError>
        ensures { IfOk result (λ text. text ≡ spec.notice_text self.now) }
    {
        match self {
            Notice::FilesUnread => {
                Text::from_bytes(alloc, b"the application files could not be read")
            }
            Notice::Application(text) => text.copy(),
            Notice::GenerationsFull(number) => limit_text(alloc, "generations", u64::from(*number)),
            Notice::KeptBytesFull(number) => limit_text(alloc, "kept bytes", *number),
            Notice::RequestsFull(number) => limit_text(alloc, "requests", u64::from(*number)),
            Notice::RepliesFull(number) => limit_text(alloc, "replies", *number),
            Notice::Method => Text::from_bytes(alloc, b"method not allowed"),
            Notice::Body => Text::from_bytes(alloc, b"body not allowed"),
            Notice::Target => Text::from_bytes(alloc, b"target too long"),
            Notice::BadRequest => Text::from_bytes(alloc, b"bad request"),
            Notice::HeadTooLong => Text::from_bytes(alloc, b"head too long"),
            Notice::TooManyLines => Text::from_bytes(alloc, b"too many header lines"),
        }
    }

    /// The reply that tells it.
    pub fn reply(&self, alloc: Global) -> Result<Reply, AllocError>
        ensures { IfOk result (λ reply. reply ≡ spec.notice_reply self.now) }
    {
        Ok(Reply {
            status: self.status(),
            body: self.text(alloc)?,
        })
    }
}
