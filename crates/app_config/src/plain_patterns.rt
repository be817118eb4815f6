//! Patterns without a star: each names its own path alone.
ghost use Rattle.std.specs.Prelude.{◌≡◌, MatchBool, IfOk, Contains};
ghost use Rattle.app_config.specs.Indexes.Arranged as spec;
ghost use Rattle.app_config.specs.Indexes.Arranged.{ArePlain, AreInOrder, texts};

use crate::config::ConfigText;
use std::alloc::{AllocError, Global};

/// Whether a pattern has a star.
pub(crate) fn has_star(pattern: &[u8]) -> bool
    ensures { result ≡ spec.has_star pattern.now }
{
    pattern.iter().any(|byte| *byte == b'*')
}

/// The patterns without a star, by their bytes.
pub(crate) fn plain_patterns<'a>(
    alloc: Global,
    patterns: &'a [ConfigText],
) -> Result<Vec<&'a [u8]>, AllocError>
    ensures { IfOk result (λ plain. ArePlain patterns.now plain.items) }
{
    let mut plain = Vec::new(alloc);
    'patterns: for pattern in patterns {
        if !has_star(pattern.as_bytes()) {
            plain.push(pattern.as_bytes())?;
        }
    }
    plain.sort()?;
    Ok(plain)
}

/// Whether sorted texts contain this one.
pub(crate) fn contains(sorted: &[&[u8]], text: &[u8]) -> bool
    requires { AreInOrder sorted.now }
    ensures { MatchBool result (Contains (texts sorted.now) text.now) (¬ Contains (texts sorted.now) text.now) }
{
    sorted.binary_search_by(|one| (*one).cmp(text)).is_ok()
}
