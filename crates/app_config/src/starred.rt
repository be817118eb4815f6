//! Patterns with a star, by their numbers of segments.
ghost use Rattle.std.specs.Prelude.{◌≡◌, MatchBool, IfOk};
ghost use Rattle.app_config.specs.Indexes.Arranged as spec;
ghost use Rattle.app_config.specs.Indexes.Arranged.{AreStarred, AreByCount, IsGroup, SomeNames};

use crate::config::ConfigText;
use crate::patterns::names;
use crate::plain_patterns::has_star;
use std::alloc::{AllocError, Global};

/// A pattern with a star, and how many slashes it has.
#[derive(Clone, Copy)]
pub struct Starred<'a> {
    slashes: usize,
    pattern: &'a [u8],
}

/// How many slashes a path or a pattern has: one less than segments.
fn slashes(path: &[u8]) -> usize
    ensures { result ≡ spec.slashes path.now }
{
    path.iter().filter(|byte| **byte == b'/').count()
}

/// The patterns with a star, by their numbers of slashes.
pub(crate) fn starred_patterns<'a>(
    alloc: Global,
    patterns: &'a [ConfigText],
) -> Result<Vec<Starred<'a>>, AllocError>
    ensures { IfOk result (λ starred. AreStarred patterns.now starred.items) }
{
    let mut starred = Vec::new(alloc);
    'patterns: for text in patterns {
        let pattern = text.as_bytes();
        if has_star(pattern) {
            starred.push(Starred {
                slashes: slashes(pattern),
                pattern,
            })?;
        }
    }
    starred.sort_by_key(|one| one.slashes)?;
    Ok(starred)
}

/// The patterns with this number of slashes, which stand together.
fn with_slashes<'s, 'a>(starred: &'s [Starred<'a>], wanted: usize) -> &'s [Starred<'a>]
    requires { AreByCount starred.now }
    ensures { IsGroup wanted starred.now result.now }
{
    let start = starred.partition_point(|one| one.slashes < wanted);
    let rest = &starred[start..];
    let count = rest.partition_point(|one| one.slashes <= wanted);
    &rest[..count]
}

/// Whether some of the patterns names the path, each of them tried.
fn is_named_by(starred: &[Starred], path: &[u8]) -> bool
    ensures { MatchBool result (SomeNames starred.now path.now) (¬ SomeNames starred.now path.now) }
{
    starred.iter().any(|one| names(one.pattern, path))
}

/// Whether some of the patterns names the path. Only those with as many slashes can.
pub(crate) fn some_names(starred: &[Starred], path: &[u8]) -> bool
    requires { AreByCount starred.now }
    ensures { MatchBool result (SomeNames starred.now path.now) (¬ SomeNames starred.now path.now) }
{
    is_named_by(with_slashes(starred, slashes(path)), path)
}
