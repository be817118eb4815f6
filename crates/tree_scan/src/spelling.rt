//! What the files of a snapshot spell.
ghost use Rattle.std.specs.Prelude.{◌≡◌, ◌≢◌, ◌↔◌, ◌<◌, ◌^◌, ◌++◌, [], ◌∷◌, ℕ, List, Some, None, length, slice_get};
ghost use Rattle.std.specs.Prelude.{All, AllPairs, IfOk, IfErr, OnOk};
ghost use Rattle.tree_scan_roots.specs.Roots.{root_paths};
ghost use Rattle.tree_scan_sites.specs.Listed.{Lists};
ghost use Rattle.tree_scan.specs.Spells.{SpellsConstant, Spells, HasBadName};
ghost use Rattle.tree_scan.specs.Spelling.{SpelledBy, IsNameFault, IsNameFaultOf};

use crate::fault::ScanFault;
use lists::Copying;
use outside::FileEntry;
use ruby_types::{CPath, Text, TextList};
use std::alloc::{AllocError, Global};
use tree_scan_names::{NamingRules, Spelling, names_below};
use tree_scan_roots::{Root, RootTable};
use tree_scan_sites::Spelled;

/// A constant and the number of the root below which it is spelled.
#[derive(Drop)]
struct RootedConstant {
    path: CPath,
    root: u32,
}

/// Adds names at the end of a path.
fn push_names(path: &mut TextList, names: &[Text]) -> Result<(), AllocError>
    ensures { OnOk result (path.new ≡ path.old ++ names.now) }
{
    'names: for name in names {
        path.push(name.copy()?)?;
    }
    Ok(())
}

/// A namespace's path with these names behind it.
fn joined_path(alloc: Global, namespace: &CPath, names: &[Text]) -> Result<CPath, AllocError>
    ensures { IfOk result (λ path. path ≡ namespace.now ++ names.now) }
{
    let mut path = TextList::from_slice(alloc, namespace.as_slice())?;
    push_names(&mut path, names)?;
    CPath::from_vec(alloc, path.into_vec())
}

/// The root of this number.
fn root_at(roots: &RootTable, number: u32) -> &Root
    requires { number < length roots.now }
    ensures at { slice_get roots.now number ≡ Some result.now }
    ensures distinct { AllPairs (λ a b. a ≢ b) (root_paths roots.now) }
{
    &roots.roots()[number as usize]
}

/// The constant that a file spells, if it spells one.
fn constant_of(
    alloc: Global,
    rules: &NamingRules,
    roots: &RootTable,
    file: &FileEntry,
) -> Result<Option<RootedConstant>, ScanFault>
    ensures exact { IfOk result (λ found. (constant : List (List ℕ)) (root : ℕ) →
        SpelledBy found constant root ↔ SpellsConstant roots.now rules.now file.now.path constant root) }
    ensures named { OnOk result (¬ (HasBadName roots.now rules.now file.now.path)) }
    ensures fault { IfErr result (IsNameFaultOf roots.now rules.now file.now.path) }
{
    let path = file.path.as_bytes();
    let Some(number) = roots.above(path) else {
        return Ok(None);
    };
    let root = root_at(roots, number);
    match names_below(alloc, rules, path, root.path.len())? {
        Spelling::Names(names) => Ok(Some(RootedConstant {
            path: joined_path(alloc, &root.namespace, names.as_slice())?,
            root: number,
        })),
        Spelling::Nothing => Ok(None),
        Spelling::BadName => Err(ScanFault::BadName(file.path.copy()?)),
    }
}

fn add_spelled(spelled: &mut Vec<Spelled>, one: Spelled) -> Result<(), AllocError>
    ensures { OnOk result (spelled.new.items ≡ spelled.old.items ++ one ∷ []) }
{
    spelled.push(one)?;
    Ok(())
}

/// What the files spell, in their order.
pub(crate) fn spelled_by(
    alloc: Global,
    rules: &NamingRules,
    roots: &RootTable,
    files: &[FileEntry],
) -> Result<Vec<Spelled>, ScanFault>
    requires { length files.now < 2 ^ 32 }
    ensures exact { IfOk result (λ spelled. (constant : List (List ℕ)) (root file : ℕ) →
        Lists spelled.items constant root file ↔ Spells roots.now rules.now files.now constant root file) }
    ensures named { OnOk result (All (λ f. ¬ (HasBadName roots.now rules.now f.path)) files.now) }
    ensures fault { IfErr result (IsNameFault roots.now rules.now files.now) }
{
    let mut spelled = Vec::new(alloc);
    'files: for place in 0..files.len() {
        if let Some(constant) = constant_of(alloc, rules, roots, &files[place])? {
            add_spelled(
                &mut spelled,
                Spelled {
                    constant: constant.path,
                    root: constant.root,
                    file: place as u32,
                },
            )?;
        }
    }
    Ok(spelled)
}
