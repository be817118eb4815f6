ghost use Rattle.std.specs.Prelude.{◌≡◌, ◌<◌, length, take, slice_index, MatchBool};
ghost use Rattle.app_config.specs.Patterns.{IsNamed};
ghost use Rattle.tree_scan.specs.Sites.{path_at};
ghost use Rattle.tree_scan_roots.specs.Directories.{IsAbove};
ghost use Rattle.eager_order.specs.EagerOrder.{IsBelowRoot};
ghost use Rattle.eager_plan.specs.Plan.{IsMarked, IsSkipped};

use crate::roots::root_above;
use app_config::PatternIndex;
use outside::FileEntry;
use tree_scan_roots::RootTable;

/// Whether a slash stands at a place of a path and a pattern names the directory before it.
fn is_named_up_to(patterns: &PatternIndex<'_>, path: &[u8], end: usize) -> bool
    requires { end < length path.now }
    ensures { MatchBool result ((slice_index path.now end ≡ 47) × IsNamed patterns.now (take end path.now))
        ((slice_index path.now end ≡ 47) → ¬ (IsNamed patterns.now (take end path.now))) }
{
    path[end] == b'/' && patterns.names(&path[..end])
}

/// Whether a pattern names the file at a path, or a directory between a root and it.
fn is_marked(patterns: &PatternIndex<'_>, root: &[u8], path: &[u8]) -> bool
    requires { IsAbove root.now path.now }
    ensures { MatchBool result (IsMarked patterns.now root.now path.now) (¬ IsMarked patterns.now root.now path.now) }
{
    if patterns.names(path) {
        return true;
    }
    let mut end = path.len();
    'places: while end - root.len() > 1 {
        end -= 1;
        if is_named_up_to(patterns, path, end) {
            return true;
        }
    }
    false
}

fn path_at(files: &[FileEntry], number: usize) -> &[u8]
    requires { number < length files.now }
    ensures { result.now ≡ path_at files.now number }
{
    files[number].path.as_bytes()
}

/// Whether the patterns mark the file of a number, which is below a root.
pub(crate) fn is_skipped(
    files: &[FileEntry],
    roots: &RootTable,
    patterns: &PatternIndex<'_>,
    number: usize,
) -> bool
    requires within { number < length files.now }
    requires below { IsBelowRoot roots.now (path_at files.now number) }
    ensures { MatchBool result (IsSkipped roots.now patterns.now (path_at files.now number))
        (¬ IsSkipped roots.now patterns.now (path_at files.now number)) }
{
    let path = path_at(files, number);
    is_marked(patterns, root_above(roots, path), path)
}
