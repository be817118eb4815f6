ghost use Rattle.std.specs.Prelude.{◌≡◌, ◌↔◌, ℕ, IfOk, Contains};
ghost use Rattle.std.specs.List.Sorted.{IsSorted, IsStrictlyIncreasing};
ghost use Rattle.tree_scan_sites.specs.Listed.{spelled_order, is_file, hidden_files};

use crate::search::file_in;
use crate::spelled::Spelled;
use std::alloc::{AllocError, Global};

fn is_file(found: Option<u32>, file: u32) -> bool
    ensures { result ≡ is_file found file }
{
    match found {
        None => false,
        Some(first) => first == file,
    }
}

/// The file of each spelling whose constant has another file.
fn hidden_among(alloc: Global, spelled: &[Spelled]) -> Result<Vec<u32>, AllocError>
    requires { IsSorted spelled_order spelled.now }
    ensures { IfOk result (λ files. files.items ≡ hidden_files spelled.now spelled.now) }
{
    let mut files = Vec::new(alloc);
    'spelled: for entry in spelled {
        if !is_file(file_in(spelled, entry.constant.as_slice()), entry.file) {
            files.push(entry.file)?;
        }
    }
    Ok(files)
}

/// The shadowed files, each once.
pub(crate) fn shadowed_in(alloc: Global, spelled: &[Spelled]) -> Result<Vec<u32>, AllocError>
    requires { IsSorted spelled_order spelled.now }
    ensures rising { IfOk result (λ files. IsStrictlyIncreasing files.items) }
    ensures exact { IfOk result (λ files. (file : ℕ) →
        Contains files.items file ↔ Contains (hidden_files spelled.now spelled.now) file) }
{
    let mut files = hidden_among(alloc, spelled)?;
    files.sort_unstable();
    files.dedup();
    Ok(files)
}
