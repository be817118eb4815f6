ghost use Rattle.std.specs.Prelude.{◌≡◌};
ghost use Rattle.program_files.specs.Faults.{is_definition, kind_in, kind_of};
ghost use Rattle.program_entries.specs.Seen.{seen, seen_all};
ghost use Rattle.program_faults.specs.Read as spec;
ghost use Rattle.program_faults.specs.Read.{own_kind, used};

use crate::paths::is_same;
use crate::read::{ReadFile, Reading};
use program_entries::{Entry, What};
use ruby_types::CPath;

/// How a text defines a constant.
#[derive(Clone, Copy, Debug, PartialEq, Eq)]
pub enum OwnKind {
    /// It doesn't.
    Missing,
    Module,
    Class,
    Value,
}

/// How an entry defines its constant.
pub fn kind_of(entry: &Entry<'_>) -> OwnKind
    ensures { result ≡ own_kind (kind_of (seen entry.now)) }
{
    match entry.what {
        What::Module => OwnKind::Module,
        What::Class(_) => OwnKind::Class,
        What::Assigned(_) => OwnKind::Value,
        What::Method { .. } | What::Include(_) | What::Readers(_) => OwnKind::Missing,
    }
}

/// Whether an entry opens or assigns its constant.
pub fn is_definition(entry: &Entry<'_>) -> bool
    ensures { result ≡ is_definition (seen entry.now) }
{
    match entry.what {
        What::Module | What::Class(_) | What::Assigned(_) => true,
        What::Method { .. } | What::Include(_) | What::Readers(_) => false,
    }
}

/// How these entries first define a constant.
pub fn kind_in(entries: &[Entry<'_>], constant: &CPath) -> OwnKind
    ensures { result ≡ own_kind (kind_in (seen_all entries.now) constant.now) }
{
    let mut left = entries;
    'entries: while let [entry, behind @ ..] = left {
        if is_same(entry.constant.as_slice(), constant.as_slice()) {
            let kind = kind_of(entry);
            if kind != OwnKind::Missing {
                return kind;
            }
        }
        left = behind;
    }
    OwnKind::Missing
}

/// How the text of a file defines the constant that its path spells.
pub fn own_of(file: &ReadFile<'_>) -> OwnKind
    ensures { result ≡ spec.own_of (used file.now) }
{
    match &file.reading {
        Reading::Entries(entries) => kind_in(entries.as_slice(), file.constant),
        Reading::Fault { .. } => OwnKind::Missing,
    }
}
