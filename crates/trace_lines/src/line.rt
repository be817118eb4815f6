//! Writing lines.
ghost use Rattle.std.specs.Prelude.{◌≡◌, ◌++◌, ◌∷◌, ◌<◌, IfOk, OnOk};
ghost use Rattle.plain_text.specs.Quoting.{quoted};
ghost use Rattle.trace_lines.specs.Steps as spec;
ghost use Rattle.trace_lines.specs.Steps.{number, step_text, end_text, refuse_text};

use crate::step::Step;
use lists::Text;
use plain_text::{push_decimal, push_quoted};
use std::alloc::{AllocError, Global};

// Adds a number in decimal digits.
fn push_number(alloc: Global, line: &mut Vec<u8>, count: u32) -> Result<(), AllocError>
    ensures { OnOk result (line.new.items ≡ line.old.items ++ number count) }
{
    push_decimal(alloc, line, i64::from(count))
}

// Adds a name behind a text.
fn push_name(line: &mut Vec<u8>, before: &[u8], name: &[u8]) -> Result<(), AllocError>
    ensures { OnOk result (line.new.items ≡ line.old.items ++ (before.now ++ name.now)) }
{
    line.extend_from_slice(before)?;
    line.extend_from_slice(name)
}

// Adds a name between two texts.
fn push_named(
    line: &mut Vec<u8>,
    before: &[u8],
    name: &[u8],
    behind: &[u8],
) -> Result<(), AllocError>
    ensures { OnOk result (line.new.items ≡ line.old.items ++ (before.now ++ (name.now ++ behind.now))) }
{
    line.extend_from_slice(before)?;
    line.extend_from_slice(name)?;
    line.extend_from_slice(behind)
}

// Adds a text and a number.
fn push_numbered(
    alloc: Global,
    line: &mut Vec<u8>,
    before: &[u8],
    count: u32,
) -> Result<(), AllocError>
    ensures { OnOk result (line.new.items ≡ line.old.items ++ (before.now ++ number count)) }
{
    line.extend_from_slice(before)?;
    push_number(alloc, line, count)
}

// Adds a space and a text in quotes.
fn push_body(line: &mut Vec<u8>, body: &[u8]) -> Result<(), AllocError>
    ensures { OnOk result (line.new.items ≡ line.old.items ++ 32 ∷ quoted body.now) }
{
    line.push(b' ')?;
    push_quoted(line, body)
}

fn push_end(
    alloc: Global,
    line: &mut Vec<u8>,
    status: u32,
    generation: u32,
    body: &[u8],
) -> Result<(), AllocError>
    ensures { OnOk result (line.new.items ≡ line.old.items ++ end_text status generation body.now) }
{
    push_numbered(alloc, line, b"end ", status)?;
    push_numbered(alloc, line, b" ", generation)?;
    push_body(line, body)
}

fn push_refuse(
    alloc: Global,
    line: &mut Vec<u8>,
    status: u32,
    body: &[u8],
) -> Result<(), AllocError>
    ensures { OnOk result (line.new.items ≡ line.old.items ++ refuse_text status body.now) }
{
    push_numbered(alloc, line, b"refuse ", status)?;
    push_body(line, body)
}

// Adds the text of a step.
fn push_step(alloc: Global, line: &mut Vec<u8>, step: Step<'_>) -> Result<(), AllocError>
    ensures { OnOk result (line.new.items ≡ line.old.items ++ step_text step.entry) }
{
    match step {
        Step::Reload(generation) => push_numbered(alloc, line, b"reload ", generation),
        Step::LookFound(task) => push_named(line, b"look ", task, b" found"),
        Step::LookMissing(task) => push_named(line, b"look ", task, b" missing"),
        Step::SeekLoad(task) => push_name(line, b"seek load ", task),
        Step::TakeLoad(task) => push_name(line, b"take load ", task),
        Step::Define(task) => push_name(line, b"define ", task),
        Step::End(status, generation, body) => push_end(alloc, line, status, generation, body),
        Step::Refuse(status, body) => push_refuse(alloc, line, status, body),
        Step::Idle => line.extend_from_slice(b"idle"),
        Step::Waits => line.extend_from_slice(b"waits"),
        Step::Share => line.extend_from_slice(b"share"),
        Step::CheckSame => line.extend_from_slice(b"check same"),
        Step::CheckDiffers => line.extend_from_slice(b"check differs"),
        Step::SeekUnload => line.extend_from_slice(b"seek unload"),
        Step::TakeUnload => line.extend_from_slice(b"take unload"),
        Step::ReloadNone => line.extend_from_slice(b"reload none"),
        Step::Release => line.extend_from_slice(b"release"),
        Step::ReleaseWaits => line.extend_from_slice(b"release waits"),
        Step::Resume => line.extend_from_slice(b"resume"),
        Step::Begin => line.extend_from_slice(b"begin"),
        Step::Unshare => line.extend_from_slice(b"unshare"),
    }
}

/// The line of a step of a seat, which is counted from 0 and written from 1 on.
pub fn step_line(alloc: Global, seat: u32, step: Step<'_>) -> Result<Text, AllocError>
    requires { seat < 64 }
    ensures { IfOk result (λ line. line ≡ spec.step_line seat step.entry) }
{
    let mut line = Vec::new(alloc);
    push_number(alloc, &mut line, seat + 1)?;
    line.push(b' ')?;
    push_step(alloc, &mut line, step)?;
    Text::from_vec(alloc, line)
}

/// The line of a text that is logged.
pub fn log_line(alloc: Global, text: &[u8]) -> Result<Text, AllocError>
    ensures { IfOk result (λ line. line ≡ spec.log_line text.now) }
{
    let mut line = Vec::new(alloc);
    line.extend_from_slice(b"log ")?;
    line.extend_from_slice(text)?;
    Text::from_vec(alloc, line)
}

/// The line that names a line of a script outside the grammar, counted from 1.
pub fn bad_line(alloc: Global, line: u32) -> Result<Text, AllocError>
    ensures { IfOk result (λ text. text ≡ spec.bad_line line) }
{
    let mut text = Vec::new(alloc);
    push_numbered(alloc, &mut text, b"line ", line)?;
    Text::from_vec(alloc, text)
}
