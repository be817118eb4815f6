ghost use Rattle.std.specs.Prelude.{◌≡◌, ◌<◌, ℕ, List, length, slice_index, if◌then◌else◌, IfOk, OnOk, MatchOption};
ghost use Rattle.std.specs.List.{list_all};
ghost use Rattle.app_config.specs.Paths.{is_constant};
ghost use Rattle.tree_scan_names.specs.Below.{EndsInRb, SpellsBelow, AddsDirectory, within};
ghost use Rattle.tree_scan_names.specs.Spellings.{above, behind, IsSpelling};

use crate::camel::camelize_by;
use crate::counts::is_passed_over;
use crate::rules::NamingRules;
use crate::steps::{parts_around, step_below};
use app_config::{Config, is_constant};
use ruby_types::{Text, TextList};
use std::alloc::{AllocError, Global};

/// What the path of a file spells below its root.
#[derive(Drop)]
pub enum Spelling {
    /// The names of the directories below the root that aren't collapsed, from the outermost on, and of the file.
    Names(TextList),
    /// The file counts for nothing: its path doesn't end in `.rb`, or it is hidden or ignored.
    Nothing,
    /// Some of the names is no constant name.
    BadName,
}

/// What the path of a file spells below a root, whose path is the first `root_length` bytes, with a slash behind them.
/// The names of directories come from the outermost on, then the file's own; namespaces of roots are not among them.
pub fn names_below(
    alloc: Global,
    rules: &NamingRules,
    path: &[u8],
    root_length: usize,
) -> Result<Spelling, AllocError>
    requires inside { root_length < length path.now }
    requires slash { slice_index path.now root_length ≡ 47 }
    ensures spelled { IfOk result
        (λ spelling. IsSpelling rules.now (above path.now root_length) (behind path.now root_length) spelling) }
    ensures only { IfOk result (λ spelling. (other : Spelling) →
        IsSpelling rules.now (above path.now root_length) (behind path.now root_length) other → other ≡ spelling) }
{
    let (root, below) = parts_around(path, root_length);
    if is_passed_over(rules, path, root, below) {
        return Ok(Spelling::Nothing);
    }
    match spelled_names(alloc, rules, path, root, below)? {
        None => Ok(Spelling::Nothing),
        Some(names) => Ok(judged_names(names)),
    }
}

/// A path spells one list of names at most.
pub fn spells_one_list(config: &Config, root: &[u8], below: &[u8])
    ensures { (names others : List (List ℕ)) → SpellsBelow config.now root.now below.now names →
        SpellsBelow config.now root.now below.now others → others ≡ names }
{}

/// Whether each name is a constant name.
fn are_constants(names: &[Text]) -> bool
    ensures { result ≡ list_all is_constant names.now }
{
    names.iter().all(|name| is_constant(name.as_bytes()))
}

/// The names of a file that counts, unless some of them is no constant name.
fn judged_names(names: TextList) -> Spelling
    ensures { result ≡ (if list_all is_constant names then Spelling.Names names else Spelling.BadName) }
{
    if are_constants(names.as_slice()) {
        Spelling::Names(names)
    } else {
        Spelling::BadName
    }
}

/// The names that a path spells, constant names or not; none where it doesn't end in `.rb`.
fn spelled_names(
    alloc: Global,
    rules: &NamingRules,
    path: &[u8],
    root: &[u8],
    below: &[u8],
) -> Result<Option<TextList>, AllocError>
    requires { path.now ≡ within root.now below.now }
    ensures { IfOk result (λ found. MatchOption found (¬ EndsInRb below.now)
        (λ names. SpellsBelow rules.now root.now below.now names)) }
{
    let mut names = TextList::new(alloc);
    let mut directory = root;
    let mut left = below;
    'steps: loop {
        let step = step_below(path, directory, left);
        let Some(rest) = step.below else {
            let Some(base) = step.name.strip_suffix(b".rb".as_slice()) else {
                return Ok(None);
            };
            names.push(camelize_by(alloc, base, rules)?)?;
            return Ok(Some(names));
        };
        add_directory(alloc, rules, step.place, step.name, &mut names)?;
        directory = step.place;
        left = rest;
    }
}

/// Adds the name of a directory that isn't collapsed.
fn add_directory(
    alloc: Global,
    rules: &NamingRules,
    place: &[u8],
    name: &[u8],
    names: &mut TextList,
) -> Result<(), AllocError>
    ensures { OnOk result (AddsDirectory rules.now place.now name.now names.old names.new) }
{
    if !rules.collapses(place) {
        names.push(camelize_by(alloc, name, rules)?)?;
    }
    Ok(())
}
