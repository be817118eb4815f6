ghost use Rattle.std.specs.Prelude.{◌≡◌, ◌↔◌, IsTrue};
ghost use Rattle.app_config.specs.Loops.Matching.{all_fit};
ghost use Rattle.app_config.specs.Paths.{segments};
ghost use Rattle.app_config.specs.Patterns.{Names};

use crate::matching::segment_fits;
use crate::text::cut_at;

/// Whether a pattern names a path. In a pattern `*` stands for any bytes inside one segment; a pattern names paths of
/// the same number of segments. It takes no memory.
pub fn names(pattern: &[u8], path: &[u8]) -> bool
    ensures { IsTrue result ↔ Names pattern.now path.now }
{
    segments_fit(pattern, path)
}

fn segments_fit(pattern: &[u8], path: &[u8]) -> bool
    ensures { result ≡ all_fit (segments pattern.now) (segments path.now) }
{
    let mut pattern = pattern;
    let mut path = path;
    'segments: loop {
        let (wanted, patterns) = cut_at(pattern, b'/');
        let (segment, below) = cut_at(path, b'/');
        if !segment_fits(wanted, segment) {
            return false;
        }
        let Some(next_pattern) = patterns else {
            return below.is_none();
        };
        let Some(next_path) = below else {
            return false;
        };
        pattern = next_pattern;
        path = next_path;
    }
}
