ghost use Rattle.std.specs.Prelude.{◌≡◌, [], IfOk};
ghost use Rattle.ruby_builtin_keys.specs.Merging as spec;

use crate::indexed::Indexed;
use lists::Copying;
use ruby_types::{Pairs, Value};
use std::alloc::{AllocError, Global};

/// The pairs with others put among them, one after another: a repeated key keeps its first place and takes the last
/// value. A hash literal is its pairs merged into none.
pub fn merged(
    alloc: Global,
    pairs: &[(Value, Value)],
    others: &[(Value, Value)],
) -> Result<Pairs, AllocError>
    ensures { IfOk result (λ all. all ≡ spec.merged pairs.now others.now) }
{
    let count = pairs.len().saturating_add(others.len());
    let mut all = Indexed::new(alloc, count)?;
    for pair in pairs {
        all = all.push(pair.copy()?)?;
    }
    for other in others {
        all = all.put(other.copy()?)?;
    }
    Pairs::from_vec(alloc, all.into_pairs())
}
