ghost use Rattle.std.specs.Prelude.{◌≡◌, ◌<◌, length, slice_index, MatchOption};
ghost use Rattle.plain_text.specs.Segments.{IsPiece};
ghost use Rattle.tree_scan_names.specs.Below.{within};
ghost use Rattle.tree_scan_names.specs.Spellings as whole;

use app_config::cut_at;

/// What stands before the slash at a place of a path, and what stands behind it.
pub(crate) fn parts_around(path: &[u8], slash: usize) -> (&[u8], &[u8])
    requires inside { slash < length path.now }
    requires slash { slice_index path.now slash ≡ 47 }
    ensures above { result.0.now ≡ whole.above path.now slash }
    ensures behind { result.1.now ≡ whole.behind path.now slash }
    ensures parts { path.now ≡ within result.0.now result.1.now }
{
    (&path[..slash], &path[slash + 1..])
}

/// A step down a path: the name of what stands next below a directory, its path, and what of the path is below it.
#[derive(Clone, Copy)]
pub(crate) struct Step<'a> {
    pub name: &'a [u8],
    pub place: &'a [u8],
    pub below: Option<&'a [u8]>,
}

/// The step below a directory on a path's way, by what of the path is below the directory.
pub(crate) fn step_below<'a>(path: &'a [u8], directory: &[u8], below: &'a [u8]) -> Step<'a>
    requires { path.now ≡ within directory.now below.now }
    ensures piece { IsPiece result.name.now }
    ensures place { result.place.now ≡ within directory.now result.name.now }
    ensures parts { MatchOption result.below (below.now ≡ result.name.now)
        (λ rest. below.now ≡ within result.name.now rest.now) }
{
    let (name, rest) = cut_at(below, b'/');
    let place = &path[..directory.len() + 1 + name.len()];
    Step {
        name,
        place,
        below: rest,
    }
}
