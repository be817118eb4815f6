ghost use Rattle.std.specs.Prelude.{◌≡◌};
ghost use Rattle.std.specs.List.{find};
ghost use Rattle.std.specs.Option.{option_map};
ghost use Rattle.stamp_limits.specs.Limits as spec;
ghost use Rattle.stamp_limits.specs.Limits.{has_long_path, long_path_of};

use outside::{FilePath, LONGEST_PATH, MOST_BYTES, MOST_FILES, Stamp, sum_of_lengths};
use tree_report::{ExceededLimit, Limit};

fn first_long(stamps: &[(FilePath, Stamp)]) -> Option<&(FilePath, Stamp)>
    ensures { option_map (λ f. f.now) result ≡ find has_long_path stamps.now }
{
    stamps.iter().find(|file| file.0.len() > LONGEST_PATH)
}

/// The first path that is too long.
fn exceeded_path(stamps: &[(FilePath, Stamp)]) -> Option<ExceededLimit>
    ensures { result ≡ long_path_of stamps.now }
{
    let file = first_long(stamps)?;
    Some(ExceededLimit {
        limit: Limit::Path,
        number: file.0.len() as u64,
    })
}

/// The first limit that files with these paths and stamps exceed. It takes no memory.
pub fn exceeded_by(stamps: &[(FilePath, Stamp)]) -> Option<ExceededLimit>
    ensures { result ≡ spec.exceeded_by stamps.now }
{
    if stamps.len() > MOST_FILES {
        return Some(ExceededLimit {
            limit: Limit::Files,
            number: stamps.len() as u64,
        });
    }
    let bytes = sum_of_lengths(stamps);
    if bytes > MOST_BYTES {
        return Some(ExceededLimit {
            limit: Limit::Bytes,
            number: bytes,
        });
    }
    exceeded_path(stamps)
}
