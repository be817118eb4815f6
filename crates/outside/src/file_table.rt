ghost use Rattle.std.specs.Prelude.{◌≡◌, ◌↔◌, ◌+◌, ◌<◌, [], length, remove, slice_set, vec_len, IsTrue, IfOk, IfErr};
ghost use Rattle.std.specs.Prelude.{OnOk, OnErr};
ghost use Rattle.std.specs.List.Sorted.{IsSearchInRange, IsBinarySearchResult};
ghost use Rattle.outside.specs.Order.{Rising, order};
ghost use Rattle.outside.specs.Tree.{paths_of};
ghost use Rattle.outside.specs.Table.{IsPlace, HasPath, with_file, without_file};

use crate::files::FileEntry;
use std::alloc::{AllocError, Global};
use std::cmp::Ordering;
use std::marker::Model;

/// Files in the order of their paths, each path once.
#[derive(Drop)]
pub struct FileTable {
    files: Vec<FileEntry>,
}

impl Model for FileTable {
    ghost use Rattle.std.specs.Prelude.{List};
    ghost use Rattle.outside.specs.declared.files.FileEntry.{FileEntry};

    ghost Value = { List FileEntry };

    ghost use Rattle.outside.specs.Order.{Rising};
    ghost use Rattle.outside.specs.Tree.{paths_of};

    ghost view = { λ t. t.files.items };

    ghost invariant = { λ t. Rising (paths_of t.files.items) };
}

fn search_path(files: &[FileEntry], path: &[u8]) -> Result<usize, usize>
    ensures bound { IsSearchInRange result (length files.now) }
    ensures position { IsBinarySearchResult (λ f. order f.path path.now) files.now result }
{
    files.binary_search_by(
        |file: &FileEntry| -> Ordering
            ensures { result ≡ order file.now.path path.entry.now }
        { file.path.as_bytes().cmp(path) },
    )
}

/// The place of the file with this path, or the place where such a file would stand.
fn place_of(files: &[FileEntry], path: &[u8]) -> Result<usize, usize>
    requires { Rising (paths_of files.now) }
    ensures found { IfOk result (λ i. HasPath files.now path.now × IsPlace files.now path.now i (i + 1)) }
    ensures missing { IfErr result (λ i. (¬ HasPath files.now path.now) × IsPlace files.now path.now i i) }
{
    match search_path(files, path) {
        Ok(place) => Ok(place),
        Err(place) => Err(place),
    }
}

fn replace_at(files: &mut Vec<FileEntry>, place: usize, file: FileEntry)
    requires { place < vec_len files.old }
    ensures { files.new.items ≡ slice_set files.old.items place file }
{
    files[place] = file;
}

fn take_out(files: &mut Vec<FileEntry>, place: usize)
    requires { place < vec_len files.old }
    ensures { files.new.items ≡ remove files.old.items place }
{
    files.remove(place);
}

impl FileTable {
    /// A table of no files, which takes no memory.
    pub fn new(alloc: Global) -> FileTable
        ensures { result ≡ [] }
    {
        FileTable {
            files: Vec::new(alloc),
        }
    }

    /// The files in the order of their paths by bytes. No two have the same path.
    pub fn files(&self) -> &[FileEntry]
        ensures files { result.now ≡ self.now }
        ensures rising { Rising (paths_of self.now) }
    {
        self.files.as_slice()
    }

    /// Puts a file in its place, instead of one of the same path. A refused one is dropped.
    pub fn put(&mut self, file: FileEntry) -> Result<(), AllocError>
        ensures ok { OnOk result (self.new ≡ with_file file self.old) }
        ensures err { OnErr result (self.new ≡ self.old) }
    {
        match place_of(self.files.as_slice(), file.path.as_bytes()) {
            Ok(place) => replace_at(&mut self.files, place, file),
            Err(place) => self.files.insert(place, file)?,
        }
        Ok(())
    }

    /// Takes the file with this path out. It answers whether there was one.
    pub fn remove(&mut self, path: &[u8]) -> bool
        ensures found { IsTrue result ↔ HasPath self.old path.now }
        ensures removed { self.new ≡ without_file path.now self.old }
    {
        match place_of(self.files.as_slice(), path) {
            Ok(place) => {
                take_out(&mut self.files, place);
                true
            }
            Err(_) => false,
        }
    }
}
