ghost use Rattle.std.specs.Prelude.{◌≡◌, IfOk};
ghost use Rattle.refusal_replies.specs.Refusals as spec;
ghost use Rattle.refusal_replies.specs.Refusals.{fault_text};

use http_front_response::Notice;
use program_refusals::refusal_of;
use program_snapshots::ProgramFault;
use ruby_types::{Reply, Text};
use std::alloc::{AllocError, Global};
use system_events::{Cause, Matter};

/// Why files have no program. An error where memory runs out.
fn text_of(alloc: Global, fault: &ProgramFault) -> Result<Text, AllocError>
    ensures { IfOk result (λ text. text ≡ fault_text fault.now) }
{
    match refusal_of(fault)? {
        None => Text::from_bytes(alloc, b"out of memory"),
        Some(refusal) => Text::from_vec(alloc, refusal.text(alloc)?),
    }
}

/// The notice that tells why a request is refused. An error where memory runs out.
pub fn notice_of<M: Matter<Fault = ProgramFault>>(
    alloc: Global,
    cause: &Cause<M>,
) -> Result<Notice, AllocError>
    ensures { IfOk result (λ notice. notice ≡ spec.notice_of cause.now) }
{
    Ok(match cause {
        Cause::Tree => Notice::FilesUnread,
        Cause::Program(fault) => Notice::Application(text_of(alloc, fault)?),
        Cause::GenerationsFull(number) => Notice::GenerationsFull(*number),
        Cause::KeptFull(number) => Notice::KeptBytesFull(*number),
        Cause::Method => Notice::Method,
        Cause::Body => Notice::Body,
        Cause::Target(_) => Notice::Target,
        Cause::Memory => Notice::Application(Text::from_bytes(alloc, b"out of memory")?),
    })
}

/// The reply that tells why a request is refused. An error where memory runs out.
pub fn refusal_reply<M: Matter<Fault = ProgramFault>>(
    alloc: Global,
    cause: &Cause<M>,
) -> Result<Reply, AllocError>
    ensures { IfOk result (λ reply. reply ≡ spec.refusal_reply cause.now) }
{
    notice_of::<M>(alloc, cause)?.reply(alloc)
}
