//! The code of all constants that the files of an application own.
ghost use Rattle.std.specs.Prelude.{◌≡◌, [], List, length, IfOk, OnOk};
ghost use Rattle.program_used.specs.Rows.{all_used, used_at};
ghost use Rattle.program_outcomes.specs.Outcomes.{HasOutcome, HaveOutcomes, listed};
ghost use Rattle.program_files.specs.Files.{UsedFile};
ghost use Rattle.program_tables.specs.Tables.{owned_from};
ghost use Rattle.ruby_nodes.specs.Entries.{Extends};
ghost use Rattle.program_code.specs.Codes.{AddsRow, AreCodesOf};

use crate::content::ContentCode;
use crate::file::push_file_codes;
use outside::FileEntry;
use program_outcomes::Outcome;
use program_used::UsedText;
use ruby_nodes::NodeTable;
use std::alloc::{AllocError, Global};

/// Adds the code of what a file says of the constants of its tasks, where it is used.
fn push_row(
    alloc: Global,
    nodes: &mut NodeTable,
    codes: &mut Vec<ContentCode>,
    file: &FileEntry,
    text: &Option<UsedText>,
    outcome: &Option<Outcome>,
) -> Result<(), AllocError>
    requires { (all : List UsedFile) × HasOutcome all (used_at file.now text.now) outcome.now }
    ensures extends { Extends nodes.old nodes.new }
    ensures added { OnOk result ((all : List UsedFile) → HasOutcome all (used_at file.now text.now) outcome.now →
        AddsRow all nodes.new (used_at file.now text.now) codes.old.items codes.new.items) }
{
    match (text, outcome) {
        (Some(used), Some(outcome)) => {
            push_file_codes(alloc, nodes, codes, &file.path, used, outcome)
        }
        _ => Ok(()),
    }
}

/// The code of what the files say of the constants that they own, in the order of the files and of their tasks. An
/// error where memory or numbers run out.
pub fn codes_of(
    alloc: Global,
    nodes: &mut NodeTable,
    files: &[FileEntry],
    texts: &[Option<UsedText>],
    outcomes: &[Option<Outcome>],
) -> Result<Vec<ContentCode>, AllocError>
    requires texts { length texts.now ≡ length files.now }
    requires outcomes { HaveOutcomes (listed (all_used files.now texts.now)) (all_used files.now texts.now)
        outcomes.now }
    ensures codes { IfOk result (λ codes. AreCodesOf (all_used files.now texts.now) nodes.new
        (owned_from (listed (all_used files.now texts.now)) 0 (all_used files.now texts.now)) codes.items) }
    ensures bare { IfOk result (λ codes. files.now ≡ [] → nodes.new ≡ nodes.old) }
{
    let mut codes = Vec::new(alloc);
    'places: for place in 0..files.len() {
        push_row(
            alloc,
            nodes,
            &mut codes,
            &files[place],
            &texts[place],
            &outcomes[place],
        )?;
    }
    Ok(codes)
}
