//! Reading a script.
ghost use Rattle.std.specs.Prelude.{◌≡◌, ◌≤◌, ◌<◌, ◌+◌, ◌^◌, length, Ok, IfNone, IfSome};
ghost use Rattle.app_config.specs.Entries.{is_blank};
ghost use Rattle.app_config.specs.Loops.Left.{parts_left, size_left};
ghost use Rattle.script_lines.specs.Content.{contents, behind_contents, count_contents};
ghost use Rattle.script_lines.specs.Lines.{line_told};
ghost use Rattle.script_lines.specs.Reading.{whole, turn_from, turn_of, IsTurn, Ends, Tells};

use crate::content::read_content;
use crate::instruction::{Instruction, LineFault, LineKind, Told};
use crate::words::line_told;
use app_config::cut_at;
use std::alloc::Global;
use std::marker::Model;

/// What is left of a script. Contracts see how many of its lines were read, and the others.
#[derive(Drop)]
pub struct Script<'a> {
    rest: Option<&'a [u8]>,
    number: u64,
}

impl<'a> Model for Script<'a> {
    ghost use Rattle.std.specs.Prelude.{◌≤◌, ◌+◌, ◌^◌};
    ghost use Rattle.app_config.specs.Loops.Left.{parts_left, size_left};
    ghost use Rattle.script_lines.specs.Reading.{Left};

    ghost Value = { Left };

    ghost view = { λ s. record { number = s.number; lines = parts_left 10 s.rest } };

    ghost invariant = { λ s. s.number + size_left s.rest ≤ 2 ^ 32 };
}

fn is_blank(line: &[u8]) -> bool
    ensures { result ≡ is_blank line.now }
{
    match line {
        [] => true,
        [first, ..] => *first == b'#',
    }
}

// A line that isn't blank, with its number and the text behind it.
#[derive(Drop)]
struct Line<'a> {
    number: u64,
    text: &'a [u8],
    behind: Option<&'a [u8]>,
}

// The next line that isn't blank, in a text that stands behind so many lines.
fn next_line(text: Option<&[u8]>, before: u64) -> Option<Line<'_>>
    requires { before + size_left text ≤ 2 ^ 32 }
    ensures none { IfNone result (turn_from before (parts_left 10 text.entry) ≡ Ends) }
    ensures line { IfSome result (λ line. turn_from before (parts_left 10 text.entry)
        ≡ turn_of line.number (line_told line.text.now (contents (parts_left 10 line.behind)))
        (parts_left 10 line.behind)) }
    ensures size { IfSome result (λ line. (line.number < 2 ^ 32) × (line.number + size_left line.behind ≤ 2 ^ 32)) }
{
    let mut rest = text;
    let mut number = before;
    'lines: while let Some(left) = rest {
        let (line, behind) = cut_at(left, b'\n');
        number += 1;
        if !is_blank(line) {
            return Some(Line {
                number,
                text: line,
                behind,
            });
        }
        rest = behind;
    }
    None
}

// Where an instruction ends: how many lines are read then, and the text behind it.
#[derive(Drop)]
struct End<'a> {
    number: u64,
    behind: Option<&'a [u8]>,
}

// A `write` ends behind its content, any other instruction behind its line.
fn end_of<'a>(
    instruction: &Instruction,
    number: u64,
    behind: Option<&'a [u8]>,
    content: End<'a>,
) -> End<'a>
    requires count { content.number ≡ number + count_contents (parts_left 10 behind) }
    requires behind { parts_left 10 content.behind ≡ behind_contents (parts_left 10 behind) }
    requires size { number + size_left behind ≤ 2 ^ 32 }
    requires content_size { content.number + size_left content.behind ≤ 2 ^ 32 }
    ensures turn { turn_of number (Ok instruction.now) (parts_left 10 behind.entry)
        ≡ Tells (record { line = number; instruction = instruction.now })
        (record { number = result.number; lines = parts_left 10 result.behind }) }
    ensures size { result.number + size_left result.behind ≤ 2 ^ 32 }
{
    match instruction {
        Instruction::Write(_, _) => content,
        _ => End { number, behind },
    }
}

impl<'a> Script<'a> {
    /// The whole of a text.
    pub fn new(text: &'a [u8]) -> Script<'a>
        requires { length text.now < 2 ^ 32 }
        ensures { result ≡ whole text.now }
    {
        Script {
            rest: Some(text),
            number: 0,
        }
    }

    /// The next instruction, or None at the end. A line outside the grammar, and want of memory, leave the script as it
    /// was.
    pub fn next(&mut self, alloc: Global) -> Result<Option<Told>, LineFault>
        ensures { IsTurn result self.old self.new }
    {
        let Some(line) = next_line(self.rest, self.number) else {
            self.rest = None;
            return Ok(None);
        };
        let Ok(content) = read_content(alloc, line.behind) else {
            return Err(OUT_OF_MEMORY);
        };
        let behind_content = End {
            number: line.number + content.count,
            behind: content.behind,
        };
        match line_told(alloc, line.text, content.bytes) {
            Err(LineKind::Memory) => Err(OUT_OF_MEMORY),
            Err(kind) => Err(LineFault {
                line: line.number as u32,
                kind,
            }),
            Ok(instruction) => {
                let end = end_of(&instruction, line.number, line.behind, behind_content);
                self.number = end.number;
                self.rest = end.behind;
                Ok(Some(Told {
                    line: line.number as u32,
                    instruction,
                }))
            }
        }
    }
}

const OUT_OF_MEMORY: LineFault = LineFault {
    line: 0,
    kind: LineKind::Memory,
};
