ghost use Rattle.std.specs.Prelude.{◌≡◌, bytes_eq};
ghost use Rattle.program_places.specs.Paths as spec;
ghost use Rattle.program_places.specs.Paths.{same_path};
ghost use Rattle.program_files.specs.Files as files;

use ruby_types::Text;

fn is_same_name(name: &Text, other: &Text) -> bool
    ensures { result ≡ bytes_eq name.now other.now }
{
    name.as_bytes() == other.as_bytes()
}

/// Whether two paths are the same.
pub fn is_same(path: &[Text], other: &[Text]) -> bool
    ensures { result ≡ same_path path.now other.now }
{
    let mut left = path;
    let mut right = other;
    'names: while let [name, behind @ ..] = left {
        let [wanted, after @ ..] = right else {
            return false;
        };
        if !is_same_name(name, wanted) {
            return false;
        }
        left = behind;
        right = after;
    }
    right.is_empty()
}

/// Whether the first path is the second, or stands above it.
pub fn begins(front: &[Text], path: &[Text]) -> bool
    ensures { result ≡ spec.begins front.now path.now }
{
    let mut left = front;
    let mut right = path;
    'names: while let [name, behind @ ..] = left {
        let [wanted, after @ ..] = right else {
            return false;
        };
        if !is_same_name(name, wanted) {
            return false;
        }
        left = behind;
        right = after;
    }
    true
}

/// Whether the first path stands strictly above the second.
pub fn is_above(front: &[Text], path: &[Text]) -> bool
    ensures { result ≡ files.is_above front.now path.now }
{
    begins(front, path) && !begins(path, front)
}
