//! Paths of modules and classes.

ghost use Rattle.std.specs.Prelude.{◌≤◌, length};
ghost use Rattle.ruby_parse_definition.specs.Parts.{GivesWritten, GivesOpenedRest};

use ruby_parse_cursor::terminals::CONST;
use ruby_parse_cursor::{Cursor, Fault};
use ruby_parse_steps::{longer, path_rest};
use ruby_types::CPath;
use std::alloc::Global;

/// A path as it is written, and its place.
#[derive(Drop)]
pub struct Written {
    pub path: CPath,
    pub at: u32,
}

/// The names that follow, each behind `::`, where the flag allows any.
fn allowed_rest(
    alloc: Global,
    may_go_on: bool,
    first: CPath,
    cursor: &mut Cursor<'_>,
) -> Result<CPath, Fault>
    ensures reads { GivesOpenedRest may_go_on first cursor.old result cursor.new }
    ensures shorter { length cursor.new ≤ length cursor.old }
{
    if may_go_on {
        path_rest(alloc, first, cursor)
    } else {
        Ok(first)
    }
}

/// A path, which is one name where the flag allows no more.
pub fn path_as_written(
    alloc: Global,
    may_go_on: bool,
    cursor: &mut Cursor<'_>,
) -> Result<Written, Fault>
    ensures reads { GivesWritten may_go_on cursor.old result cursor.new }
    ensures shorter { length cursor.new ≤ length cursor.old }
{
    let first = cursor.take_word(CONST)?;
    let path = longer(alloc, CPath::new(alloc), first.text)?;
    let path = allowed_rest(alloc, may_go_on, path, cursor)?;
    Ok(Written { path, at: first.at })
}
