//! What the words of a line tell.
ghost use Rattle.std.specs.Prelude.{◌≡◌, Some};
ghost use Rattle.std.specs.Str.{is_utf8};
ghost use Rattle.script_lines.specs.Lines as spec;
ghost use Rattle.app_config.specs.Loops.Left.{parts_left};
ghost use Rattle.script_lines.specs.Lines.{Says, AreOperands};

use crate::content::is_content;
use crate::instruction::{Instruction, LineKind};
use app_config::cut_at;
use lists::Text;
use std::alloc::{AllocError, Global};
use word_forms::{is_application_path, is_target, number_of};

/// The word that begins a line.
#[derive(Clone, Copy, Debug, PartialEq, Eq)]
pub(crate) enum Verb {
    Write,
    Remove,
    Request,
    Step,
    Finish,
}

fn verb_of(word: &[u8]) -> Option<Verb>
    ensures { result ≡ spec.verb_of word.now }
{
    if word == b"write".as_slice() {
        Some(Verb::Write)
    } else if word == b"remove".as_slice() {
        Some(Verb::Remove)
    } else if word == b"request".as_slice() {
        Some(Verb::Request)
    } else if word == b"step".as_slice() {
        Some(Verb::Step)
    } else if word == b"finish".as_slice() {
        Some(Verb::Finish)
    } else {
        None
    }
}

fn is_utf8(text: &[u8]) -> bool
    ensures { result ≡ is_utf8 text.now }
{
    match std::str::from_utf8(text) {
        Ok(_) => true,
        Err(_) => false,
    }
}

fn is_script_path(path: &[u8]) -> bool
    ensures { result ≡ spec.is_script_path path.now }
{
    is_utf8(path) && is_application_path(path)
}

fn is_script_target(target: &[u8]) -> bool
    ensures { result ≡ spec.is_script_target target.now }
{
    is_target(target) && target.len() <= 2048
}

// The seat of a word, counted from 0.
fn seat_of(word: &[u8]) -> Option<u32>
    ensures { result ≡ spec.seat_of word.now }
{
    match number_of(word, 64) {
        None => None,
        Some(number) => Some(number.saturating_sub(1)),
    }
}

// The words behind the first.
#[derive(Clone, Copy)]
pub(crate) enum Operands<'a> {
    None,
    One(&'a [u8]),
    Two(&'a [u8], &'a [u8]),
    More,
}

// The words of a text, or none where there is no text.
fn operands_of(text: Option<&[u8]>) -> Operands<'_>
    ensures { AreOperands result (parts_left 32 text.entry) }
{
    let Some(text) = text else {
        return Operands::None;
    };
    let (first, behind) = cut_at(text, b' ');
    let Some(behind) = behind else {
        return Operands::One(first);
    };
    let (second, more) = cut_at(behind, b' ');
    match more {
        None => Operands::Two(first, second),
        Some(_) => Operands::More,
    }
}

fn write_told(alloc: Global, text: Option<&[u8]>, content: Text) -> Result<Instruction, LineKind>
    ensures { Says result (spec.write_told (parts_left 32 text.entry) content) }
{
    let Operands::One(path) = operands_of(text) else {
        return Err(LineKind::WordCount);
    };
    if !is_script_path(path) {
        return Err(LineKind::BadPath);
    }
    Ok(Instruction::Write(Text::from_bytes(alloc, path)?, content))
}

fn remove_told(alloc: Global, text: Option<&[u8]>) -> Result<Instruction, LineKind>
    ensures { Says result (spec.remove_told (parts_left 32 text.entry)) }
{
    let Operands::One(path) = operands_of(text) else {
        return Err(LineKind::WordCount);
    };
    if !is_script_path(path) {
        return Err(LineKind::BadPath);
    }
    Ok(Instruction::Remove(Text::from_bytes(alloc, path)?))
}

fn request_told(alloc: Global, text: Option<&[u8]>) -> Result<Instruction, LineKind>
    ensures { Says result (spec.request_told (parts_left 32 text.entry)) }
{
    let Operands::Two(seat, target) = operands_of(text) else {
        return Err(LineKind::WordCount);
    };
    let seat = known_seat(seat)?;
    if !is_script_target(target) {
        return Err(LineKind::BadTarget);
    }
    Ok(Instruction::Request(seat, Text::from_bytes(alloc, target)?))
}

fn known_seat(word: &[u8]) -> Result<u32, LineKind>
    ensures { result ≡ spec.known_seat word.now }
{
    match seat_of(word) {
        None => Err(LineKind::BadSeat),
        Some(seat) => Ok(seat),
    }
}

// The seat that is the only word.
fn only_seat(text: Option<&[u8]>) -> Result<u32, LineKind>
    ensures { result ≡ spec.only_seat (parts_left 32 text.entry) }
{
    let Operands::One(seat) = operands_of(text) else {
        return Err(LineKind::WordCount);
    };
    known_seat(seat)
}

fn told_by(
    alloc: Global,
    verb: Verb,
    text: Option<&[u8]>,
    content: Text,
) -> Result<Instruction, LineKind>
    ensures { Says result (spec.told_by (Some verb) (parts_left 32 text.entry) content) }
{
    match verb {
        Verb::Write => write_told(alloc, text, content),
        Verb::Remove => remove_told(alloc, text),
        Verb::Request => request_told(alloc, text),
        Verb::Step => Ok(Instruction::Step(only_seat(text)?)),
        Verb::Finish => Ok(Instruction::Finish(only_seat(text)?)),
    }
}

/// What a line tells that isn't blank, with the content behind it.
pub(crate) fn line_told(alloc: Global, line: &[u8], content: Text) -> Result<Instruction, LineKind>
    ensures { Says result (spec.line_told line.now content) }
{
    if is_content(line) {
        return Err(LineKind::StrayContent);
    }
    let (word, behind) = cut_at(line, b' ');
    match verb_of(word) {
        None => Err(LineKind::UnknownWord),
        Some(verb) => told_by(alloc, verb, behind, content),
    }
}
