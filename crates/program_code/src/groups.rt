//! The entries of a file, by the constants that they are of.
ghost use Rattle.std.specs.Prelude.{◌≡◌, ◌<◌, [], length, replicate, slice_get, Some, List, IfOk, OnOk};
ghost use Rattle.program_constants.specs.Constants.{first_place};
ghost use Rattle.program_entries.specs.Seen.{seen_all};
ghost use Rattle.program_files.specs.Entries.{Entry as Plain};
ghost use Rattle.program_code.specs.Groups as spec;
ghost use Rattle.program_code.specs.Groups.{AreDistinct, add_at, add_in};
ghost use Rattle.program_code.specs.Seen.{placed_groups};

use program_constants::ConstantTable;
use program_entries::Entry;
use ruby_types::CPath;
use std::alloc::{AllocError, Global};

/// The places of the entries of one constant, in text order.
pub type Group = Vec<usize>;

/// So many groups without entries.
fn empty_groups(alloc: Global, count: usize) -> Result<Vec<Group>, AllocError>
    ensures { IfOk result (λ groups. (es : List Plain) → placed_groups es groups.items ≡ replicate count []) }
{
    let mut groups = Vec::new(alloc);
    'count: for place in 0..count {
        let _ = place;
        groups.push(Vec::new(alloc))?;
    }
    Ok(groups)
}

/// Adds the entry at a place to the group of this number.
fn push_at(groups: &mut Vec<Group>, number: usize, place: usize) -> Result<(), AllocError>
    requires { number < length groups.old.items }
    ensures { OnOk result ((es : List Plain) (e : Plain) → slice_get es place ≡ Some e →
        placed_groups es groups.new.items ≡ add_at (placed_groups es groups.old.items) number e) }
{
    groups[number].push(place)?;
    Ok(())
}

/// Adds the entry at a place to the group of its constant, if there is one.
fn push_entry(
    groups: &mut Vec<Group>,
    table: &ConstantTable,
    constant: &CPath,
    place: usize,
) -> Result<(), AllocError>
    requires { length groups.old.items ≡ length table.now }
    ensures { OnOk result ((es : List Plain) (e : Plain) → slice_get es place ≡ Some e →
        placed_groups es groups.new.items
        ≡ add_in (placed_groups es groups.old.items) (first_place constant.now table.now) e) }
{
    match table.first(constant) {
        None => Ok(()),
        Some(number) => push_at(groups, number as usize, place),
    }
}

/// The places of the entries of each constant of a table, none of which stands there twice. An error where memory runs
/// out.
pub fn groups_of(
    alloc: Global,
    table: &ConstantTable,
    entries: &[Entry<'_>],
) -> Result<Vec<Group>, AllocError>
    requires { AreDistinct table.now }
    ensures { IfOk result (λ groups. placed_groups (seen_all entries.now) groups.items
        ≡ spec.groups (seen_all entries.now) table.now) }
{
    let mut groups = empty_groups(alloc, table.constants().len())?;
    'places: for place in 0..entries.len() {
        push_entry(&mut groups, table, &entries[place].constant, place)?;
    }
    Ok(groups)
}
