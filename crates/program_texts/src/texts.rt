ghost use Rattle.std.specs.Prelude.{◌≡◌, ◌<◌, ◌^◌, length, All, IfOk};
ghost use Rattle.program_used.specs.Rows.{IsUsed, AreUsed};
ghost use Rattle.program_texts.specs.Read.{IsReadOf, AreReadOf, IsNamed};

use crate::text::read_text;
use lists::Copying;
use outside::FileEntry;
use program_used::UsedText;
use ruby_types::CPath;
use std::alloc::{AllocError, Global};

/// The text of a file that has this constant, if it has one.
fn read_row(
    alloc: Global,
    file: &FileEntry,
    constant: &Option<CPath>,
) -> Result<Option<UsedText>, AllocError>
    requires small { length file.now.bytes < 2 ^ 32 }
    requires named { IsNamed constant.now }
    ensures used { IfOk result (IsUsed constant.now) }
    ensures read { IfOk result (IsReadOf file.now) }
{
    match constant {
        None => Ok(None),
        Some(constant) => {
            let text = read_text(alloc, file.bytes.as_bytes())?;
            Ok(Some(UsedText {
                constant: constant.copy()?,
                text,
            }))
        }
    }
}

/// The texts of the files that have these constants, each read once. An error where memory runs out.
pub fn read_texts(
    alloc: Global,
    files: &[FileEntry],
    constants: &[Option<CPath>],
) -> Result<Vec<Option<UsedText>>, AllocError>
    requires each { length constants.now ≡ length files.now }
    requires small { All (λ file. length file.bytes < 2 ^ 32) files.now }
    requires named { All IsNamed constants.now }
    ensures used { IfOk result (λ texts. AreUsed constants.now texts.items) }
    ensures read { IfOk result (λ texts. AreReadOf files.now texts.items) }
{
    let mut texts = Vec::new(alloc);
    'places: for place in 0..files.len() {
        texts.push(read_row(alloc, &files[place], &constants[place])?)?;
    }
    Ok(texts)
}
