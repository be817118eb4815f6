//! Whether files have changed.
ghost use Rattle.std.specs.Prelude.{◌≡◌, ◌≢◌, ◌↔◌, IsTrue};

use outside::{FilePath, Stamp, Stamps};

/// Compares what a tree of files tells now with what is in force, as Rails' file update checker does.
pub struct UpdateCheck;

impl UpdateCheck {
    /// Whether a file came, went, or has another length or time. It takes no memory.
    pub fn differs(in_force: &Stamps, now: &Stamps) -> bool
        ensures { IsTrue result ↔ (in_force.now ≢ now.now) }
    {
        !are_same(in_force.as_slice(), now.as_slice())
    }
}

// Whether two lists of stamps are the same.
fn are_same(a: &[(FilePath, Stamp)], b: &[(FilePath, Stamp)]) -> bool
    ensures { IsTrue result ↔ (a.now ≡ b.now) }
{
    if a.len() != b.len() {
        return false;
    }
    'files: for (i, file) in a.iter().enumerate() {
        if !is_same(file, &b[i]) {
            return false;
        }
    }
    true
}

// Whether two files have the same path and the same stamp.
fn is_same(a: &(FilePath, Stamp), b: &(FilePath, Stamp)) -> bool
    ensures { IsTrue result ↔ (a.now ≡ b.now) }
{
    a.0.as_slice() == b.0.as_slice() && a.1 == b.1
}
