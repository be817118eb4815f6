//! What the faults of a file ask of its entries.
ghost use Rattle.std.specs.Prelude.{◌≡◌, Option};
ghost use Rattle.std.specs.List.{list_any};
ghost use Rattle.program_files.specs.Faults as spec;
ghost use Rattle.program_entries.specs.Seen.{seen, seen_what, seen_all};
ghost use Rattle.program_faults.specs.Read.{own_kind};

use crate::own::OwnKind;
use crate::paths::{begins, is_above};
use program_entries::{Entry, What};
use ruby_types::CPath;

/// An opening without a parent.
fn is_plain_opening(what: What<'_>) -> bool
    ensures { result ≡ spec.is_plain_opening (seen_what what.entry) }
{
    match what {
        What::Module => true,
        What::Class(parent) => parent.is_none(),
        What::Assigned(_) | What::Method { .. } | What::Include(_) | What::Readers(_) => false,
    }
}

/// Whether the entry opens an enclosing namespace of the constant, without a parent.
pub fn opens_around(constant: &CPath, entry: &Entry<'_>) -> bool
    ensures { result ≡ spec.opens_around constant.now (seen entry.now) }
{
    is_above(entry.constant.as_slice(), constant.as_slice()) && is_plain_opening(entry.what)
}

fn is_outside(constant: &CPath, entry: &Entry<'_>) -> bool
    ensures { result ≡ spec.is_outside constant.now (seen entry.now) }
{
    !(begins(constant.as_slice(), entry.constant.as_slice()) || opens_around(constant, entry))
}

/// Whether an entry stands outside the constant and is no plain opening around it.
pub fn any_outside(constant: &CPath, entries: &[Entry<'_>]) -> bool
    ensures { result ≡ list_any (spec.is_outside constant.now) (seen_all entries.now) }
{
    let mut left = entries;
    'entries: while let [entry, behind @ ..] = left {
        if is_outside(constant, entry) {
            return true;
        }
        left = behind;
    }
    false
}

/// Whether this keyword isn't that of a namespace which a text defines so.
pub fn clashes(kind: OwnKind, what: What<'_>) -> bool
    ensures { (defined : Option spec.Kind) → kind ≡ own_kind defined →
        result ≡ spec.clashes defined (seen_what what.entry) }
{
    match (kind, what) {
        (OwnKind::Module, What::Class(_)) => true,
        (OwnKind::Class, What::Module) => true,
        _ => false,
    }
}
