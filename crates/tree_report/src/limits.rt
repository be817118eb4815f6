ghost use Rattle.std.specs.Prelude.{◌≡◌, ◌≤◌, ◌-◌, ◌^◌, ◌↔◌, min, length, All, IsTrue, IsNone, IfSome, IfNone};
ghost use Rattle.std.specs.List.{find};
ghost use Rattle.std.specs.Option.{option_map};
ghost use Rattle.tree_report.specs.Limits.{has_long_path, IsWithinLimits, IsExceeded, IsFirstLongPath, total_bytes};

use outside::{FileEntry, LONGEST_PATH, MOST_BYTES, MOST_FILES};

/// What an application may have too much of, in the order in which it is judged.
#[derive(Clone, Copy, Debug, PartialEq, Eq)]
pub enum Limit {
    Files,
    Bytes,
    Path,
}

/// A limit that is exceeded: by this number of files, of bytes in all files together (2^64 - 1 where there are more),
/// or of bytes in the first path that is too long.
#[derive(Clone, Copy, Debug, PartialEq, Eq)]
pub struct ExceededLimit {
    pub limit: Limit,
    pub number: u64,
}

fn sum_of_bytes(files: &[FileEntry]) -> u64
    ensures { result ≡ min (total_bytes files.now) (2 ^ 64 - 1) }
{
    let mut total = 0u64;
    'files: for file in files {
        total = total.saturating_add(file.stamp.length.max(file.bytes.len() as u64));
    }
    total
}

fn first_long(files: &[FileEntry]) -> Option<&FileEntry>
    ensures { option_map (λ f. f.now) result ≡ find has_long_path files.now }
{
    files.iter().find(|file| file.path.len() > LONGEST_PATH)
}

/// The length of the first path that is too long.
fn first_long_path(files: &[FileEntry]) -> Option<usize>
    ensures found { IfSome result (IsFirstLongPath files.now) }
    ensures none { IfNone result (All (λ f. length f.path ≤ 255) files.now) }
{
    let file = first_long(files)?;
    Some(file.path.len())
}

/// The first limit that the files exceed.
pub fn exceeded_limit(files: &[FileEntry]) -> Option<ExceededLimit>
    ensures within { IsNone result ↔ IsWithinLimits files.now }
    ensures exceeded { IfSome result (λ exceeded. IsExceeded files.now exceeded.limit exceeded.number) }
{
    if files.len() > MOST_FILES {
        return Some(ExceededLimit {
            limit: Limit::Files,
            number: files.len() as u64,
        });
    }
    let bytes = sum_of_bytes(files);
    if bytes > MOST_BYTES {
        return Some(ExceededLimit {
            limit: Limit::Bytes,
            number: bytes,
        });
    }
    let length = first_long_path(files)?;
    Some(ExceededLimit {
        limit: Limit::Path,
        number: length as u64,
    })
}

/// Whether the files are within the limits of a snapshot.
pub fn is_within_limits(files: &[FileEntry]) -> bool
    ensures { IsTrue result ↔ IsWithinLimits files.now }
{
    exceeded_limit(files).is_none()
}
