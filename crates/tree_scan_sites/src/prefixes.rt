ghost use Rattle.std.specs.Prelude.{◌≡◌, [], ◌++◌, IfOk, OnOk};
ghost use Rattle.tree_scan_sites.specs.Reached.{longer, paths_from};

use crate::compare::shared_names;
use crate::spelled::Spelled;
use lists::Text;
use ruby_types::CPath;
use std::alloc::{AllocError, Global};

/// Adds the beginnings of a constant that have more names than this.
fn push_longer(
    alloc: Global,
    paths: &mut Vec<CPath>,
    constant: &[Text],
    names: usize,
) -> Result<(), AllocError>
    ensures { OnOk result (paths.new.items ≡ paths.old.items ++ longer names constant.now) }
{
    'lengths: for length in names..constant.len() {
        paths.push(CPath::from_slice(alloc, &constant[..length + 1])?)?;
    }
    Ok(())
}

/// The paths that are spelled or stand above a spelled one. Where the constants are in order, each path comes once and
/// in its place.
pub(crate) fn paths_of(alloc: Global, spelled: &[Spelled]) -> Result<Vec<CPath>, AllocError>
    ensures { IfOk result (λ paths. paths.items ≡ paths_from [] spelled.now) }
{
    let mut paths = Vec::new(alloc);
    let mut previous: &[Text] = &[];
    'spelled: for entry in spelled {
        let constant = entry.constant.as_slice();
        push_longer(
            alloc,
            &mut paths,
            constant,
            shared_names(previous, constant),
        )?;
        previous = constant;
    }
    Ok(paths)
}
