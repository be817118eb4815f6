ghost use Rattle.std.specs.Prelude.{◌≡◌, MatchBool};
ghost use Rattle.tree_scan_names.specs.Below.{within};
ghost use Rattle.tree_scan_names.specs.Counts.{BeginsWithDot, IsPassed, IsPassedOver};

use crate::rules::NamingRules;
use crate::steps::step_below;

fn begins_with_dot(name: &[u8]) -> bool
    ensures { MatchBool result (BeginsWithDot name.now) (¬ BeginsWithDot name.now) }
{
    match name {
        [b'.', ..] => true,
        _ => false,
    }
}

/// Whether a file is hidden or ignored, by the path of its root and what of its own path is below that.
pub(crate) fn is_passed_over(rules: &NamingRules, path: &[u8], root: &[u8], below: &[u8]) -> bool
    requires { path.now ≡ within root.now below.now }
    ensures { MatchBool result (IsPassedOver rules.now root.now below.now)
        (¬ IsPassedOver rules.now root.now below.now) }
{
    let mut directory = root;
    let mut left = below;
    'steps: loop {
        let step = step_below(path, directory, left);
        if is_passed(rules, step.name, step.place) {
            return true;
        }
        let Some(rest) = step.below else {
            return false;
        };
        directory = step.place;
        left = rest;
    }
}

/// Whether a file or directory of this name and path is hidden or ignored by itself.
fn is_passed(rules: &NamingRules, name: &[u8], place: &[u8]) -> bool
    ensures { MatchBool result (IsPassed rules.now name.now place.now) (¬ IsPassed rules.now name.now place.now) }
{
    begins_with_dot(name) || rules.ignores(place)
}
