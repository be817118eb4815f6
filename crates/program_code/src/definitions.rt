//! How a constant is first defined.
ghost use Rattle.std.specs.Prelude.{◌≡◌, None, MatchOption};
ghost use Rattle.program_entries.specs.Seen.{seen_all};
ghost use Rattle.program_code.specs.Definitions as spec;
ghost use Rattle.program_code.specs.Definitions.{IsFirstAt};
ghost use Rattle.program_code.specs.Groups.{first_kind};
ghost use Rattle.program_code.specs.Seen.{placed};

use program_entries::Entry;
use program_faults::is_definition;

/// Whether there is an entry at a place that defines its constant.
fn defines_at(entries: &[Entry<'_>], place: usize) -> bool
    ensures { result ≡ spec.defines_at (seen_all entries.now) place }
{
    if place < entries.len() {
        is_definition(&entries[place])
    } else {
        false
    }
}

/// The place of the entry that first defines a constant, among the places of its entries.
pub fn first_definition(entries: &[Entry<'_>], group: &[usize]) -> Option<usize>
    ensures { MatchOption result (first_kind (placed (seen_all entries.now) group.now) ≡ None)
        (IsFirstAt (seen_all entries.now) group.now) }
{
    let mut left = group;
    'places: while let [place, behind @ ..] = left {
        if defines_at(entries, *place) {
            return Some(*place);
        }
        left = behind;
    }
    None
}
