use crate::files::FileEntry;
use lists::SharedList;

/// What a tree in memory gave at one call: the files that it held then, and whether it gave them whole.
#[derive(Drop)]
pub struct Glance {
    pub files: SharedList<FileEntry>,
    pub whole: bool,
}
