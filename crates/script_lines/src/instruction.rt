//! What a script tells, and what is wrong with a line.

use lists::Text;
use std::alloc::AllocError;
use thiserror::Error;

/// What a line of a script tells, with the content that the lines behind it have. Seats are counted from 0.
#[derive(Drop)]
pub enum Instruction {
    /// A file of this path and content is written.
    Write(Text, Text),
    /// The file of this path is removed.
    Remove(Text),
    /// The seat has a request for this target.
    Request(u32, Text),
    /// The seat makes a step.
    Step(u32),
    /// The seat makes steps until its request has ended or waits.
    Finish(u32),
}

/// An instruction and the number of its line, counted from 1.
#[derive(Drop)]
pub struct Told {
    pub line: u32,
    pub instruction: Instruction,
}

/// Why a line isn't read: its number, counted from 1, and what is wrong with it. Want of memory has line 0.
#[derive(Clone, Copy, Debug, PartialEq, Eq, Error)]
#[error("line {line}: {kind}")]
pub struct LineFault {
    pub line: u32,
    pub kind: LineKind,
}

/// What is wrong with a line. Each text says a way out.
#[derive(Clone, Copy, Debug, PartialEq, Eq, Error)]
pub enum LineKind {
    /// The first word is none that begins a line.
    #[error("begin the line with write, remove, request, step or finish, or with # for a comment")]
    UnknownWord,
    /// The line has too few words or too many, or two spaces stand together.
    #[error("give the line as many words as its first one asks for, with one space between them")]
    WordCount,
    /// The path isn't UTF-8, or isn't one of an application.
    #[error("write a path below app/ or lib/, without empty, . or .. segments, or config/loader.conf")]
    BadPath,
    /// The seat isn't a number from 1 to 64.
    #[error("write a seat as a number from 1 to 64")]
    BadSeat,
    /// The target doesn't begin with `/`, has other than visible ASCII bytes, or is too long.
    #[error("write a target as / and visible characters, at most 2048 of them")]
    BadTarget,
    /// A line begins with `|` and stands behind no `write`.
    #[error("put lines that begin with | directly behind a write")]
    StrayContent,
    /// Memory ran out.
    #[error("out of memory, try again with more")]
    Memory,
}

impl From<AllocError> for LineKind {
    ghost use Rattle.std.specs.Prelude.{◌≡◌};
    ghost use Rattle.script_lines.specs.declared.instruction.LineKind.TheVariants.{Memory};

    ghost from_gives = { λ _ kind. kind ≡ Memory };

    fn from(_error: AllocError) -> LineKind {
        LineKind::Memory
    }
}
