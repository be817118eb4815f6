//! What holds of every application.
ghost use Rattle.std.specs.Prelude.{ℕ, List};
ghost use Rattle.tree_report.specs.declared.refusal.Refusal.{Refusal};
ghost use Rattle.tree_command.specs.Tree.{IsTreeListing, IsRefused};

use outside::FileEntry;

/// An application is never both listed and refused.
pub fn never_both(files: &[FileEntry])
    ensures { (bytes : List ℕ) (refusal : Refusal) → IsTreeListing files.now bytes → IsRefused files.now refusal → ⊥ }
{
    let _ = files;
}
