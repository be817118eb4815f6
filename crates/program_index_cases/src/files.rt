//! The files that the lines of a case tell.
use crate::told::put_line;
use outside::{CallNumbers, MemTree, Snapshot, Tree, TreeAns};
use std::alloc::{AllocError, Global};

/// Writes so many files, the first of which is `app/lib/m0.rb` with the module `M0`.
fn write_many(alloc: Global, tree: &mut MemTree, number: u32) -> Result<(), AllocError> {
    for n in 0..number {
        let path = format!(in alloc; "app/lib/m{n}.rb")?;
        let text = format!(in alloc; "module M{n}\nend\n")?;
        tree.write(path.as_str(), text.as_bytes())?;
    }
    Ok(())
}

/// The files of a paragraph. A line of text belongs to the last file that was begun.
fn tree_of(alloc: Global, paragraph: &str) -> Result<MemTree, AllocError> {
    let mut tree = MemTree::new(alloc, CallNumbers::new(alloc));
    let mut path = "";
    let mut text = Vec::new(alloc);
    for line in paragraph.lines() {
        match line.split_once(' ') {
            Some(("file", begun)) => {
                path = begun;
                text = Vec::new(alloc);
                tree.write(path, b"")?;
            }
            Some(("|", written)) => {
                put_line(&mut text, written.as_bytes())?;
                tree.write(path, text.as_slice())?;
            }
            Some(("many", number)) => {
                write_many(alloc, &mut tree, number.parse::<u32>().unwrap_or(0))?;
            }
            _ => {}
        }
    }
    Ok(tree)
}

/// The snapshot of the files of a paragraph.
pub fn snapshot_of(alloc: Global, paragraph: &str) -> Result<Snapshot, AllocError> {
    match tree_of(alloc, paragraph)?.read_all() {
        TreeAns::Read(snapshot) => Ok(snapshot),
        TreeAns::Failed | TreeAns::Memory => Err(AllocError),
    }
}
