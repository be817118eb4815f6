ghost use Rattle.std.specs.Prelude.{◌≡◌, ◌≤◌, ◌-◌, ◌^◌, ◌↔◌, min, length, All, IsTrue};
ghost use Rattle.outside.specs.Limits.{AreWithinLimits, bytes_in_all};

use crate::files::{FilePath, Stamp};

/// The most files of an application.
pub const MOST_FILES: usize = 4_096;

/// The most bytes of all files of an application together.
pub const MOST_BYTES: u64 = 4_194_304;

/// The most bytes of a path.
pub const LONGEST_PATH: usize = 255;

/// The bytes of all files together, as their stamps say: 2^64 - 1 where there are more.
pub fn sum_of_lengths(stamps: &[(FilePath, Stamp)]) -> u64
    ensures { result ≡ min (bytes_in_all stamps.now) (2 ^ 64 - 1) }
{
    let mut total = 0u64;
    'files: for file in stamps {
        total = total.saturating_add(file.1.length);
    }
    total
}

fn are_short(stamps: &[(FilePath, Stamp)]) -> bool
    ensures { IsTrue result ↔ All (λ s. length s.0 ≤ 255) stamps.now }
{
    stamps.iter().all(|(path, _)| path.len() <= LONGEST_PATH)
}

/// Whether files with these paths and stamps are within the limits of an application.
pub fn are_within_limits(stamps: &[(FilePath, Stamp)]) -> bool
    ensures { IsTrue result ↔ AreWithinLimits stamps.now }
{
    stamps.len() <= MOST_FILES && sum_of_lengths(stamps) <= MOST_BYTES && are_short(stamps)
}
