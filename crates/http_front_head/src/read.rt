//! Reads a head.
ghost use Rattle.std.specs.Prelude.{◌≡◌, ◌⊎◌, ◌≤◌, ◌<◌, ◌++◌, ℕ, List, length};
ghost use Rattle.http_front_head.specs.Heads as spec;
ghost use Rattle.http_front_head.specs.Heads.{IsHead, IsHopeless};
ghost use Rattle.http_front_head.specs.Lines.{line_count};
ghost use Rattle.http_front_head.specs.declared.parts.Head.{Head as HeadValue};
ghost use Rattle.http_front_head.specs.declared.parts.Head.TheVariants.{Whole, More, Many, Memory};
ghost use Rattle.http_front_head.specs.declared.parts.HeadParts.{HeadParts as PartsValue};

use crate::judging::judged;
use crate::kind::{Kind, kind_of};
use crate::parts::{Head, LONGEST_HEAD, MOST_LINES};
use httparse::spans::EMPTY_HEADER_SPAN;
use std::alloc::Global;

/// The bytes that are looked at.
fn looked_at(bytes: &[u8]) -> &[u8]
    ensures { result.now ≡ spec.looked_at bytes.now }
{
    if bytes.len() <= LONGEST_HEAD {
        bytes
    } else {
        &bytes[..LONGEST_HEAD]
    }
}

/// The head that bytes of any kind are.
fn head_of(alloc: Global, bytes: &[u8]) -> Head
    ensures { (result ≡ Memory) ⊎ IsHead bytes.now result }
{
    let front = looked_at(bytes);
    let mut headers = [EMPTY_HEADER_SPAN; MOST_LINES];
    match kind_of(front, &mut headers) {
        Kind::Found(spans) => judged(alloc, front, &headers, &spans),
        Kind::Open if bytes.len() < LONGEST_HEAD => Head::More,
        Kind::Open => Head::Long,
        Kind::Lost => Head::Bad,
        Kind::Crowded => Head::Many,
    }
}

/// What the bytes of an input are so far. It looks at the first `LONGEST_HEAD` of them.
#[tactic(auto, using(crate::proofs::HeadLaws::answer_is_only))]
pub fn read_head(alloc: Global, bytes: &[u8]) -> Head
    ensures head { (result ≡ Memory) ⊎ IsHead bytes.now result }
    ensures only { (other : HeadValue) → IsHead bytes.now other → (result ≡ Memory) ⊎ (result ≡ other) }

    // A whole head is there, and stays one whatever follows. Behind what is hopeless none comes.
    ensures within { (n : ℕ) (parts : PartsValue) → result ≡ Whole n parts → (1 ≤ n) × (n ≤ length bytes.now) }
    ensures grows { (n : ℕ) (parts : PartsValue) (more : List ℕ) → result ≡ Whole n parts
        → IsHead (bytes.now ++ more) (Whole n parts) }
    ensures hopeless { (n : ℕ) (parts : PartsValue) (more : List ℕ) → IsHopeless result
        → ¬ (IsHead (bytes.now ++ more) (Whole n parts)) }

    // More bytes are asked for only where there are few, with few lines; lines are too many only where they are there.
    ensures short { result ≡ More → (length bytes.now < spec.longest_head) × (line_count bytes.now < 66) }
    ensures lines { result ≡ Many → 66 ≤ line_count (spec.looked_at bytes.now) }
{
    head_of(alloc, bytes)
}
