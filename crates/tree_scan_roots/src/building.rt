ghost use Rattle.std.specs.Prelude.{◌≡◌, ◌≢◌, ◌↔◌, [], ◌∷◌, ◌++◌, List, ℕ, map, filter, Contains, IfOk, OnOk, IsTrue};
ghost use Rattle.std.specs.BTreeSet.{IsOrdered};
ghost use Rattle.tree_scan_roots.specs.Keys.{IsNumbering, key_order, key_paths};
ghost use Rattle.tree_scan_roots.specs.Roots.{named, root_paths, namespace_of, default_root, line_root, names_none_of};
ghost use Rattle.tree_scan_roots.specs.Roots.{NamesOnce};

use crate::directories::Directories;
use crate::numbers::{PathNumbers, give_number, number_of};
use crate::roots::{Root, Roots};
use app_config::RootLine;
use lists::{Copying, Text};
use ruby_types::CPath;
use std::alloc::{AllocError, Global};
use std::collections::BTreeMap;

/// Roots that are being collected, and their numbers.
#[derive(Drop)]
pub(crate) struct Building {
    pub(crate) roots: Roots,
    pub(crate) numbers: PathNumbers,
}

pub(crate) fn nothing_built(alloc: Global) -> Building
    ensures none { result.roots ≡ [] }
    ensures numbered { IsNumbering (root_paths result.roots) result.numbers }
{
    Building {
        roots: Roots::new(alloc),
        numbers: BTreeMap::new(alloc),
    }
}

fn add_root(building: &mut Building, alloc: Global, root: Root) -> Result<(), AllocError>
    requires numbered { IsNumbering (root_paths building.old.roots) building.old.numbers }
    requires other { ¬ Contains (root_paths building.old.roots) root.path }
    ensures added { OnOk result (building.new.roots ≡ building.old.roots ++ root ∷ []) }
    ensures numbered { OnOk result (IsNumbering (root_paths building.new.roots) building.new.numbers) }
{
    let Ok(number) = u32::try_from(building.roots.len()) else {
        return Err(AllocError);
    };
    give_number(&mut building.numbers, alloc, root.path.as_bytes(), number)?;
    building.roots.push(root)?;
    Ok(())
}

/// The namespace that the root lines give a directory.
fn namespace_of(
    alloc: Global,
    lines: &[RootLine],
    numbers: &PathNumbers,
    directory: &[u8],
) -> Result<CPath, AllocError>
    requires { IsNumbering (named lines.now) numbers.now }
    ensures { IfOk result (λ namespace. namespace ≡ namespace_of lines.now directory.now) }
{
    match number_of(numbers, directory) {
        Some(number) => CPath::from_slice(alloc, lines[number as usize].namespace.as_slice()),
        None => Ok(CPath::new(alloc)),
    }
}

pub(crate) fn add_default_roots(
    building: &mut Building,
    alloc: Global,
    directories: &Directories,
    lines: &[RootLine],
    numbers: &PathNumbers,
) -> Result<(), AllocError>
    requires none { building.old.roots ≡ [] }
    requires numbered { IsNumbering (root_paths building.old.roots) building.old.numbers }
    requires lines { IsNumbering (named lines.now) numbers.now }
    ensures added { OnOk result (building.new.roots ≡ map (default_root lines.now) (key_paths directories.now)) }
    ensures numbered { OnOk result (IsNumbering (root_paths building.new.roots) building.new.numbers) }
    ensures ordered { IsOrdered key_order directories.now }
{
    'directories: for directory in directories.iter() {
        let path = Text::from_bytes(alloc, directory.as_slice())?;
        let namespace = namespace_of(alloc, lines, numbers, directory.as_slice())?;
        add_root(building, alloc, Root { path, namespace })?;
    }
    Ok(())
}

pub(crate) fn add_line_roots(
    building: &mut Building,
    alloc: Global,
    lines: &[RootLine],
) -> Result<(), AllocError>
    requires numbered { IsNumbering (root_paths building.old.roots) building.old.numbers }
    requires once { NamesOnce lines.now }
    ensures added { OnOk result
        (building.new.roots ≡ building.old.roots ++ map line_root
        (filter (names_none_of (root_paths building.old.roots)) lines.now)) }
    ensures numbered { OnOk result (IsNumbering (root_paths building.new.roots) building.new.numbers) }
{
    'lines: for line in lines {
        if number_of(&building.numbers, line.path.as_bytes()).is_none() {
            let path = line.path.copy()?;
            let namespace = CPath::from_slice(alloc, line.namespace.as_slice())?;
            add_root(building, alloc, Root { path, namespace })?;
        }
    }
    Ok(())
}
