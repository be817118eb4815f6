//! What a file's entries define.
ghost use Rattle.std.specs.Prelude.{◌≡◌, ◌++◌, ◌∷◌, [], cond, map, filter, IfOk, OnOk};
ghost use Rattle.program_files.specs.Faults.{is_definition, kind_of};
ghost use Rattle.program_entries.specs.Seen.{seen, seen_all};
ghost use Rattle.program_faults.specs.Read.{own_kind};

use lists::Copying;
use program_entries::Entry;
use program_faults::{OwnKind, is_definition, kind_of};
use ruby_types::CPath;
use std::alloc::{AllocError, Global};

fn push_constant(constants: &mut Vec<CPath>, entry: &Entry<'_>) -> Result<(), AllocError>
    ensures { OnOk result (constants.new.items ≡ constants.old.items
        ++ cond (is_definition (seen entry.now)) (entry.now.constant ∷ []) []) }
{
    if is_definition(entry) {
        constants.push(entry.constant.copy()?)?;
    }
    Ok(())
}

/// The constants of the entries that define one.
pub fn defined_constants(alloc: Global, entries: &[Entry<'_>]) -> Result<Vec<CPath>, AllocError>
    ensures { IfOk result (λ constants. constants.items
        ≡ map (λ e. e.constant) (filter is_definition (seen_all entries.now))) }
{
    let mut constants = Vec::new(alloc);
    'places: for place in 0..entries.len() {
        push_constant(&mut constants, &entries[place])?;
    }
    Ok(constants)
}

fn push_kind(kinds: &mut Vec<OwnKind>, entry: &Entry<'_>) -> Result<(), AllocError>
    ensures { OnOk result (kinds.new.items ≡ kinds.old.items
        ++ cond (is_definition (seen entry.now)) (own_kind (kind_of (seen entry.now)) ∷ []) []) }
{
    if is_definition(entry) {
        kinds.push(kind_of(entry))?;
    }
    Ok(())
}

/// How the entries that define a constant do so.
pub fn defined_kinds(alloc: Global, entries: &[Entry<'_>]) -> Result<Vec<OwnKind>, AllocError>
    ensures { IfOk result (λ kinds. kinds.items
        ≡ map (λ e. own_kind (kind_of e)) (filter is_definition (seen_all entries.now))) }
{
    let mut kinds = Vec::new(alloc);
    'places: for place in 0..entries.len() {
        push_kind(&mut kinds, &entries[place])?;
    }
    Ok(kinds)
}
