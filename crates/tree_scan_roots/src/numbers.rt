ghost use Rattle.std.specs.Prelude.{◌≡◌, List, ℕ, ◌-◌, ◌<◌, ◌^◌, Some, None, IfOk, IfErr, OnOk, if◌then◌else◌};
ghost use Rattle.std.specs.Prelude.{bytes_eq, length};
ghost use Rattle.tree_scan_roots.specs.Keys.{IsNumbering, number_of};
ghost use Rattle.tree_scan_roots.specs.Roots.{named, IsFault};

use crate::roots::RootsFault;
use app_config::RootLine;
use lists::Copying;
use std::alloc::{AllocError, Global};
use std::collections::BTreeMap;

/// Paths, each with its number.
pub(crate) type PathNumbers = BTreeMap<Vec<u8>, u32>;

pub(crate) fn number_of(numbers: &PathNumbers, path: &[u8]) -> Option<u32>
    ensures { result ≡ number_of numbers.now path.now }
{
    numbers.get(path).copied()
}

pub(crate) fn give_number(
    numbers: &mut PathNumbers,
    alloc: Global,
    path: &[u8],
    number: u32,
) -> Result<(), AllocError>
    ensures { OnOk result ((other : List ℕ) →
        number_of numbers.new other ≡ (if bytes_eq path.now other then Some number else number_of numbers.old other)) }
{
    numbers.insert(Vec::from_slice(alloc, path)?, number)?;
    Ok(())
}

/// The places of the paths that root lines name.
pub(crate) fn line_numbers(alloc: Global, lines: &[RootLine]) -> Result<PathNumbers, RootsFault>
    ensures numbered { IfOk result (IsNumbering (named lines.now)) }
    ensures fault { IfErr result (IsFault lines.now) }
{
    let mut numbers = BTreeMap::new(alloc);
    'lines: for place in 0..lines.len() {
        let path = &lines[place].path;
        if number_of(&numbers, path.as_bytes()).is_some() {
            return Err(RootsFault::TwoRoots(path.copy()?));
        }
        let Ok(number) = u32::try_from(place) else {
            return Err(RootsFault::Memory);
        };
        give_number(&mut numbers, alloc, path.as_bytes(), number)?;
    }
    Ok(numbers)
}
