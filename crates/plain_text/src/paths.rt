ghost use Rattle.std.specs.Prelude.{◌≡◌, ◌++◌, ◌∷◌, List, ℕ, map, IfOk, OnOk};
ghost use Rattle.std.specs.List.{flat_map};
ghost use Rattle.plain_text.specs.Segments as spec;
ghost use Rattle.ruby_types.specs.Paths as printed;

use ruby_types::{CPath, Text, TextList};
use std::alloc::{AllocError, Global};

/// The pieces between the `/` of a path. The empty path has one empty piece, `a//b` an empty one in its middle.
pub fn segments(alloc: Global, path: &[u8]) -> Result<TextList, AllocError>
    ensures exact { IfOk result (λ pieces. pieces ≡ spec.segments path.now) }
    ensures segments { IfOk result (λ pieces. spec.AreSegments path.now pieces) }
    ensures only { IfOk result (λ pieces. (others : List (List ℕ)) → spec.AreSegments path.now others →
        others ≡ pieces) }
{
    let mut pieces = TextList::new(alloc);
    for piece in cut(alloc, path)?.as_slice() {
        pieces.push(Text::from_bytes(alloc, piece)?)?;
    }
    Ok(pieces)
}

fn cut(alloc: Global, path: &[u8]) -> Result<Vec<&[u8]>, AllocError>
    ensures { IfOk result (λ pieces. map (λ piece. piece.now) pieces.items ≡ spec.segments path.now) }
{
    path.split(|byte| *byte == b'/').collect(alloc)
}

/// A constant path as it is written, its names with `::` between them. That of Object is empty.
pub fn path_text(alloc: Global, path: &CPath) -> Result<Text, AllocError>
    ensures { IfOk result (λ text. text ≡ printed.path_text path.now) }
{
    let mut written = Vec::new(alloc);
    push_path(&mut written, path)?;
    Text::from_vec(alloc, written)
}

/// Writes a constant path behind what is there, as [`path_text`] shows it.
pub fn push_path(written: &mut Vec<u8>, path: &CPath) -> Result<(), AllocError>
    ensures { OnOk result (written.new.items ≡ written.old.items ++ printed.path_text path.now) }
{
    push_names(written, path.as_slice())
}

fn push_names(written: &mut Vec<u8>, names: &[Text]) -> Result<(), AllocError>
    ensures { OnOk result (written.new.items ≡ written.old.items ++ printed.path_text names.now) }
{
    match names.split_first() {
        None => Ok(()),
        Some((outermost, inner)) => {
            written.extend_from_slice(outermost.as_bytes())?;
            push_inner(written, inner)?;
            Ok(())
        }
    }
}

/// The names behind the outermost, each with `::` before it.
fn push_inner(written: &mut Vec<u8>, names: &[Text]) -> Result<(), AllocError>
    ensures { OnOk result (written.new.items ≡ written.old.items ++ flat_map (λ name. 58 ∷ 58 ∷ name) names.now) }
{
    for name in names {
        written.extend_from_slice(b"::")?;
        written.extend_from_slice(name.as_bytes())?;
    }
    Ok(())
}
