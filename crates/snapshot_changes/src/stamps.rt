ghost use Rattle.std.specs.Prelude.{◌≡◌, ◌↔◌, IsTrue};
ghost use Rattle.outside.specs.Tree.{stamps_of};
ghost use Rattle.program_snapshots.specs.Stamps.{same_stamp, same_stamps};

use outside::FileEntry;

fn is_same(before: &FileEntry, after: &FileEntry) -> bool
    ensures { result ≡ same_stamp (before.now.path, before.now.stamp) after.now }
{
    before.path.as_bytes() == after.path.as_bytes()
        && before.stamp.length == after.stamp.length
        && before.stamp.time == after.stamp.time
}

fn are_same(before: &[FileEntry], after: &[FileEntry]) -> bool
    ensures { result ≡ same_stamps (stamps_of before.now) after.now }
{
    let mut left = before;
    let mut right = after;
    'files: while let [file, behind @ ..] = left {
        let [other, further @ ..] = right else {
            return false;
        };
        if !is_same(file, other) {
            return false;
        }
        left = behind;
        right = further;
    }
    right.is_empty()
}

/// Whether two snapshots have the same files, with the same lengths and times. It takes no memory.
pub fn have_same_stamps(before: &[FileEntry], after: &[FileEntry]) -> bool
    ensures test { result ≡ same_stamps (stamps_of before.now) after.now }
    ensures stamps { IsTrue result ↔ (stamps_of before.now ≡ stamps_of after.now) }
{
    are_same(before, after)
}
