//! References to constants.

ghost use Rattle.std.specs.Prelude.{◌≡◌, ◌≤◌, ◌∷◌, ◌++◌, [], length, IfOk};
ghost use Rattle.ruby_parse_steps.specs.Gives.{GivesConstant, GivesConstantFrom, GivesPathRest};

use ruby_parse_cursor::terminals::{CONST, PATH};
use ruby_parse_cursor::{Cursor, Fault};
use ruby_types::{CPath, ConstRef, Text};
use std::alloc::{AllocError, Global};

/// The path with one name more.
pub fn longer(alloc: Global, path: CPath, name: &[u8]) -> Result<CPath, AllocError>
    ensures { IfOk result (λ longer. longer ≡ path ++ name.now ∷ []) }
{
    let mut path = path;
    path.push(Text::from_bytes(alloc, name)?)?;
    Ok(path)
}

/// The names that follow, each behind `::`.
pub fn path_rest(alloc: Global, first: CPath, cursor: &mut Cursor<'_>) -> Result<CPath, Fault>
    ensures reads { GivesPathRest first cursor.old result cursor.new }
    ensures shorter { length cursor.new ≤ length cursor.old }
{
    let mut path = first;
    'segments: while cursor.sees(PATH) {
        cursor.skip();
        let next = cursor.take_word(CONST)?;
        path = longer(alloc, path, next.text)?;
    }
    Ok(path)
}

/// `A::B`, where the flag says that a `::` stands before it.
fn constant_from(alloc: Global, top: bool, cursor: &mut Cursor<'_>) -> Result<ConstRef, Fault>
    ensures reads { GivesConstantFrom top cursor.old result cursor.new }
    ensures shorter { length cursor.new ≤ length cursor.old }
{
    let first = cursor.take_word(CONST)?;
    let path = longer(alloc, CPath::new(alloc), first.text)?;
    let path = path_rest(alloc, path, cursor)?;
    Ok(ConstRef { top, path })
}

/// A constant as it is written, perhaps with a `::` before it.
pub fn constant(alloc: Global, cursor: &mut Cursor<'_>) -> Result<ConstRef, Fault>
    ensures reads { GivesConstant cursor.old result cursor.new }
    ensures shorter { length cursor.new ≤ length cursor.old }
{
    if cursor.sees(PATH) {
        cursor.skip();
        constant_from(alloc, true, cursor)
    } else if cursor.sees(CONST) {
        constant_from(alloc, false, cursor)
    } else {
        Err(Fault::Unexpected)
    }
}
