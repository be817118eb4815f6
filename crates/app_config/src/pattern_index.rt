ghost use Rattle.std.specs.Prelude.{◌≡◌, MatchBool, IfOk};
ghost use Rattle.app_config.specs.Patterns.{IsNamed};

use crate::config::Patterns;
use crate::plain_patterns::{contains, plain_patterns};
use crate::starred::{Starred, some_names, starred_patterns};
use std::alloc::{AllocError, Global};
use std::marker::Model;

/// The patterns of a list, arranged for looking up which paths they name. Contracts see it as the list.
///
/// A pattern without a star names its own path alone, so such patterns are sorted and searched. Of those with a star
/// only the ones with as many segments as the path are tried, one after another.
#[derive(Drop)]
pub struct PatternIndex<'a> {
    patterns: &'a Patterns,
    plain: Vec<&'a [u8]>,
    starred: Vec<Starred<'a>>,
}

impl<'a> Model for PatternIndex<'a> {
    ghost use Rattle.std.specs.Prelude.{List, ℕ};

    ghost Value = { List (List ℕ) };

    ghost use Rattle.app_config.specs.Indexes.Arranged.{IsArranged};

    ghost view = { λ i. i.patterns.now };

    ghost invariant = { λ i. IsArranged i.patterns.now i.plain.items i.starred.items };
}

impl<'a> PatternIndex<'a> {
    /// These patterns, arranged.
    pub fn new(alloc: Global, patterns: &'a Patterns) -> Result<PatternIndex<'a>, AllocError>
        ensures { IfOk result (λ index. index ≡ patterns.now) }
    {
        let plain = plain_patterns(alloc, patterns.as_slice())?;
        let starred = starred_patterns(alloc, patterns.as_slice())?;
        Ok(PatternIndex {
            patterns,
            plain,
            starred,
        })
    }

    /// Whether some of the patterns names the path. It takes no memory.
    pub fn names(&self, path: &[u8]) -> bool
        ensures { MatchBool result (IsNamed self.now path.now) (¬ IsNamed self.now path.now) }
    {
        contains(self.plain.as_slice(), path) || some_names(self.starred.as_slice(), path)
    }
}
