ghost use Rattle.std.specs.Prelude.{◌≡◌};
ghost use Rattle.tree_scan_sites.specs.Paths as spec;
ghost use Rattle.tree_scan_sites.specs.Paths.{path_order, name_eq};

use lists::Text;
use std::cmp::Ordering;

/// The order of constant paths: the first name that differs decides, by its bytes, else the shorter path comes first.
pub fn compare_paths(path: &[Text], other: &[Text]) -> Ordering
    ensures { result ≡ path_order path.now other.now }
{
    let mut left = path;
    let mut right = other;
    'names: while let [name, behind @ ..] = left {
        let [wanted, after @ ..] = right else {
            return Ordering::Greater;
        };
        match name.as_bytes().cmp(wanted.as_bytes()) {
            Ordering::Equal => {
                left = behind;
                right = after;
            }
            Ordering::Less => return Ordering::Less,
            Ordering::Greater => return Ordering::Greater,
        }
    }
    if right.is_empty() {
        Ordering::Equal
    } else {
        Ordering::Less
    }
}

fn is_same(name: &Text, other: &Text) -> bool
    ensures { result ≡ name_eq name.now other.now }
{
    name.as_bytes() == other.as_bytes()
}

/// The number of names that two paths share from the front on.
pub(crate) fn shared_names(path: &[Text], other: &[Text]) -> usize
    ensures { result ≡ spec.shared path.now other.now }
{
    let mut left = path;
    let mut right = other;
    let mut count = 0;
    'names: while let [name, behind @ ..] = left {
        let [wanted, after @ ..] = right else {
            return count;
        };
        if !is_same(name, wanted) {
            return count;
        }
        count += 1;
        left = behind;
        right = after;
    }
    count
}
