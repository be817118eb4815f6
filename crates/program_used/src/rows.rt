ghost use Rattle.std.specs.Prelude.{◌≡◌, length, map, IfOk};
ghost use Rattle.std.specs.Option.{option_map};
ghost use Rattle.program_faults.specs.Read as read;
ghost use Rattle.program_used.specs.Texts.{reading_in};
ghost use Rattle.program_used.specs.Rows.{used_at, all_used};

use crate::text::FileText;
use crate::used::UsedText;
use outside::FileEntry;
use program_entries::entries_of;
use program_faults::{ReadFile, Reading};
use std::alloc::{AllocError, Global};

fn reading_of(alloc: Global, text: &FileText) -> Result<Reading<'_>, AllocError>
    ensures { IfOk result (λ reading. read.seen_reading reading ≡ reading_in text.now) }
{
    match text {
        FileText::Tree(tree) => Ok(Reading::Entries(entries_of(alloc, tree)?)),
        FileText::Fault { kind, at } => Ok(Reading::Fault {
            kind: *kind,
            at: *at,
        }),
    }
}

fn read_file<'t>(
    alloc: Global,
    file: &'t FileEntry,
    row: &'t Option<UsedText>,
) -> Result<Option<ReadFile<'t>>, AllocError>
    ensures { IfOk result (λ read_as. option_map read.used read_as ≡ used_at file.now row.now) }
{
    match row {
        None => Ok(None),
        Some(used) => Ok(Some(ReadFile {
            path: &file.path,
            constant: &used.constant,
            reading: reading_of(alloc, &used.text)?,
        })),
    }
}

/// The files as they are used, with the entries of their trees. An error where memory runs out.
pub fn read_files<'t>(
    alloc: Global,
    files: &'t [FileEntry],
    rows: &'t [Option<UsedText>],
) -> Result<Vec<Option<ReadFile<'t>>>, AllocError>
    requires { length rows.now ≡ length files.now }
    ensures { IfOk result (λ reads. map (option_map read.used) reads.items ≡ all_used files.now rows.now) }
{
    let mut reads = Vec::new(alloc);
    'places: for place in 0..files.len() {
        reads.push(read_file(alloc, &files[place], &rows[place])?)?;
    }
    Ok(reads)
}
