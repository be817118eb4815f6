//! The lines of a file's content.
ghost use Rattle.std.specs.Prelude.{◌≡◌, ◌≤◌, ◌<◌, ◌+◌, ◌^◌, IfOk, IfNone, IfSome, option_map};
ghost use Rattle.script_lines.specs.Content.{BeginsWith, BeginsWithNone};
ghost use Rattle.app_config.specs.Loops.Left.{parts_left, size_left};
ghost use Rattle.script_lines.specs.Content.{is_content, content_of, contents, behind_contents, count_contents};

use app_config::cut_at;
use lists::Text;
use std::alloc::{AllocError, Global};

/// Whether a line is one of content.
pub(crate) fn is_content(line: &[u8]) -> bool
    ensures { result ≡ is_content line.now }
{
    match line {
        [] => false,
        [first, ..] => *first == b'|',
    }
}

/// The text of a line of content, behind the bar that it begins with.
fn content_of(line: &[u8]) -> Option<&[u8]>
    ensures { option_map (λ text. text.now) result ≡ content_of line.now }
{
    match line {
        [] => None,
        [first, text @ ..] => { if *first == b'|' { Some(text) } else { None } }
    }
}

// A line of content, without its bar, and the text behind it.
#[derive(Drop)]
struct ContentLine<'a> {
    text: &'a [u8],
    behind: Option<&'a [u8]>,
}

// The line that a text begins with, where it is one of content.
fn next_content(rest: Option<&[u8]>) -> Option<ContentLine<'_>>
    ensures none { IfNone result (BeginsWithNone (parts_left 10 rest.entry)) }
    ensures line { IfSome result
        (λ line. BeginsWith line.text.now (parts_left 10 line.behind) (parts_left 10 rest.entry)) }
    ensures size { IfSome result (λ line. size_left line.behind < size_left rest.entry) }
{
    let Some(left) = rest else {
        return None;
    };
    let (line, behind) = cut_at(left, b'\n');
    match content_of(line) {
        None => None,
        Some(text) => Some(ContentLine { text, behind }),
    }
}

/// The content that the lines at the front of a text tell, with the text behind them and their number.
#[derive(Drop)]
pub(crate) struct Content<'a> {
    pub(crate) bytes: Text,
    pub(crate) behind: Option<&'a [u8]>,
    pub(crate) count: u64,
}

/// Reads the content that a text begins with.
pub(crate) fn read_content<'a>(
    alloc: Global,
    text: Option<&'a [u8]>,
) -> Result<Content<'a>, AllocError>
    requires { size_left text ≤ 2 ^ 32 }
    ensures bytes { IfOk result (λ content. content.bytes ≡ contents (parts_left 10 text.entry)) }
    ensures behind { IfOk result
        (λ content. parts_left 10 content.behind ≡ behind_contents (parts_left 10 text.entry)) }
    ensures count { IfOk result (λ content. content.count ≡ count_contents (parts_left 10 text.entry)) }
    ensures size { IfOk result (λ content. content.count + size_left content.behind ≤ size_left text.entry) }
{
    let mut bytes = Vec::new(alloc);
    let mut rest = text;
    let mut count = 0u64;
    'lines: while let Some(line) = next_content(rest) {
        bytes.extend_from_slice(line.text)?;
        bytes.push(b'\n')?;
        count += 1;
        rest = line.behind;
    }
    Ok(Content {
        bytes: Text::from_vec(alloc, bytes)?,
        behind: rest,
        count,
    })
}
