ghost use Rattle.std.specs.Prelude.{◌≡◌};
ghost use Rattle.program_files.specs.Files as among;
ghost use Rattle.program_entries.specs.Seen.{seen_all};
ghost use Rattle.program_faults.specs.Read.{seen_reading};

use crate::read::Reading;
use program_entries::Entry;

/// The entries of what was read; none of a text without a tree.
pub fn entries_in<'a, 't>(reading: &'a Reading<'t>) -> &'a [Entry<'t>]
    ensures { seen_all result.now ≡ among.entries_read (seen_reading reading.now) }
{
    match reading {
        Reading::Entries(entries) => entries.as_slice(),
        Reading::Fault { .. } => &[],
    }
}
