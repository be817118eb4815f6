ghost use Rattle.std.specs.Prelude.{◌≡◌, IfOk, MatchBool, MatchOption};
ghost use Rattle.app_config.specs.Inflections.{IsLastFor, LacksBase};
ghost use Rattle.app_config.specs.Patterns.{IsNamed};

use app_config::{Config, ConfigText, Inflections, PatternIndex};
use std::alloc::{AllocError, Global};
use std::marker::Model;

/// What a configuration says of names, arranged for looking up. Contracts see it as the configuration.
///
/// It is built once for a scan: with it, what a file spells takes a few look-ups for each of its directories, however
/// many lines the configuration has.
#[derive(Drop)]
pub struct NamingRules<'a> {
    config: &'a Config,
    ignored: PatternIndex<'a>,
    collapsed: PatternIndex<'a>,
    inflections: Inflections<'a>,
}

impl<'a> Model for NamingRules<'a> {
    ghost use Rattle.app_config.specs.declared.config.Config.{Config};

    ghost Value = { Config };

    ghost use Rattle.tree_scan_names.specs.Rules.{AreRules};

    ghost view = { λ r. r.config.now };

    ghost invariant = { λ r. AreRules r.config.now r.ignored r.collapsed r.inflections };
}

impl<'a> NamingRules<'a> {
    /// The rules of a configuration.
    pub fn new(alloc: Global, config: &'a Config) -> Result<NamingRules<'a>, AllocError>
        ensures { IfOk result (λ rules. rules ≡ config.now) }
    {
        Ok(NamingRules {
            config,
            ignored: PatternIndex::new(alloc, &config.ignore)?,
            collapsed: PatternIndex::new(alloc, &config.collapse)?,
            inflections: Inflections::new(alloc, &config.inflect)?,
        })
    }

    /// Whether some pattern of `ignore` names the path.
    pub fn ignores(&self, path: &[u8]) -> bool
        ensures { MatchBool result (IsNamed self.now.ignore path.now) (¬ IsNamed self.now.ignore path.now) }
    {
        self.ignored.names(path)
    }

    /// Whether some pattern of `collapse` names the path.
    pub fn collapses(&self, path: &[u8]) -> bool
        ensures { MatchBool result (IsNamed self.now.collapse path.now) (¬ IsNamed self.now.collapse path.now) }
    {
        self.collapsed.names(path)
    }

    /// What a base name is camelized to: the constant of the last `inflect` line that has the base.
    pub fn inflection(&self, base: &[u8]) -> Option<&ConfigText>
        ensures { MatchOption result (LacksBase self.now.inflect base.now)
            (λ constant. IsLastFor self.now.inflect base.now constant.now) }
    {
        self.inflections.constant_of(base)
    }
}
