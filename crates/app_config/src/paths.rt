ghost use Rattle.std.specs.Prelude.{◌≡◌};
ghost use Rattle.app_config.specs.Paths as spec;

use crate::text::cut_at;

/// Whether a name is a constant name: an upper case letter, then letters, digits and `_`.
pub fn is_constant(name: &[u8]) -> bool
    ensures { result ≡ spec.is_constant name.now }
{
    match name {
        [] => false,
        [first, rest @ ..] => first.is_ascii_uppercase() && are_name_bytes(rest),
    }
}

fn are_name_bytes(bytes: &[u8]) -> bool
    ensures { result ≡ spec.are_name_bytes bytes.now }
{
    for byte in bytes {
        if !byte.is_ascii_alphanumeric() && *byte != b'_' {
            return false;
        }
    }
    true
}

/// Constant names with `::` between each two.
pub(crate) fn is_constant_path(word: &[u8]) -> bool
    ensures { result ≡ spec.is_constant_path word.now }
{
    let mut rest = word;
    'names: loop {
        let (name, behind) = cut_at(rest, b':');
        if !is_constant(name) {
            return false;
        }
        match behind {
            None => return true,
            Some([b':', next @ ..]) => rest = next,
            Some(_) => return false,
        }
    }
}

fn is_plain(segment: &[u8]) -> bool
    ensures { result ≡ spec.is_plain segment.now }
{
    !segment.is_empty() && segment != b".".as_slice() && segment != b"..".as_slice()
}

fn are_plain(path: &[u8]) -> bool
    ensures { result ≡ spec.are_plain path.now }
{
    let mut rest = Some(path);
    'segments: while let Some(text) = rest {
        let (segment, behind) = cut_at(text, b'/');
        if !is_plain(segment) {
            return false;
        }
        rest = behind;
    }
    true
}

fn is_top(segment: &[u8]) -> bool
    ensures { result ≡ spec.is_top segment.now }
{
    segment == b"app".as_slice() || segment == b"lib".as_slice()
}

/// A path or a pattern below `app/` or `lib/`, with no empty, `.` or `..` segment.
#[tactic(auto, using(crate::proofs::PathLaws::is_tree_path_cut))]
pub fn is_tree_path(path: &[u8]) -> bool
    ensures { result ≡ spec.is_tree_path path.now }
{
    let (top, behind) = cut_at(path, b'/');
    match behind {
        None => false,
        Some(below) => is_top(top) && are_plain(below),
    }
}
