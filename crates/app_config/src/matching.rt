ghost use Rattle.std.specs.Prelude.{◌≡◌, option_copied};
ghost use Rattle.app_config.specs.Loops.Matching as spec;

use crate::text::cut_at;

/// What stands behind a piece at the front of a text.
fn behind_front<'a>(text: &'a [u8], piece: &[u8]) -> Option<&'a [u8]>
    ensures { option_copied result ≡ spec.behind piece.now text.now }
{
    text.strip_prefix(piece)
}

/// What stands behind the first place of a piece in a text.
fn behind_first<'a>(text: &'a [u8], piece: &[u8]) -> Option<&'a [u8]>
    ensures { option_copied result ≡ spec.behind_first piece.now text.now }
{
    let mut rest = text;
    'places: loop {
        let found = behind_front(rest, piece);
        if found.is_some() {
            return found;
        }
        match rest {
            [] => return None,
            [_, next @ ..] => rest = next,
        }
    }
}

/// Whether some end of the segment fits the pattern. Each piece between stars is sought at its first place, since a
/// later one would leave less for the pieces behind it.
fn some_end_fits(pattern: &[u8], segment: &[u8]) -> bool
    ensures { result ≡ spec.some_end_fits pattern.now segment.now }
{
    let mut pattern = pattern;
    let mut segment = segment;
    'stars: loop {
        let (piece, more) = cut_at(pattern, b'*');
        let Some(next) = more else {
            return segment.ends_with(piece);
        };
        let Some(rest) = behind_first(segment, piece) else {
            return false;
        };
        pattern = next;
        segment = rest;
    }
}

/// Whether one segment of a path fits one of a pattern.
pub(crate) fn segment_fits(pattern: &[u8], segment: &[u8]) -> bool
    ensures { result ≡ spec.segment_fits pattern.now segment.now }
{
    let (piece, more) = cut_at(pattern, b'*');
    let Some(rest) = behind_front(segment, piece) else {
        return false;
    };
    match more {
        None => rest.is_empty(),
        Some(next) => some_end_fits(next, rest),
    }
}
