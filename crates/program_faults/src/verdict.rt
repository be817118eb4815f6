//! The first fault of a file.
ghost use Rattle.std.specs.Prelude.{◌≡◌, ◌&&◌, IfOk};
ghost use Rattle.std.specs.List.{find, list_any};
ghost use Rattle.std.specs.Option.{option_map};
ghost use Rattle.program_files.specs.Faults as spec;
ghost use Rattle.program_files.specs.Files as among;
ghost use Rattle.program_entries.specs.Seen.{seen, seen_all};
ghost use Rattle.program_faults.specs.Read.{used, used_all, seen_reading};
ghost use Rattle.program_faults.specs.Read as read;

use crate::files::UsedFiles;
use crate::inner::inner_site;
use crate::messages::{
    defines_more, has_own_file, no_module, other_keyword, syntax_error, undefined,
};
use crate::own::{OwnKind, own_of};
use crate::read::{ReadFile, Reading};
use crate::reading::entries_in;
use crate::tests_of_entries::{any_outside, clashes, opens_around};
use program_entries::Entry;
use ruby_types::RubyError;
use std::alloc::{AllocError, Global};

/// It doesn't parse.
fn unread(alloc: Global, file: &ReadFile<'_>) -> Result<Option<RubyError>, AllocError>
    ensures { IfOk result (λ fault. fault ≡ spec.unread (used file.now) (seen_reading file.now.reading)) }
{
    match &file.reading {
        Reading::Entries(_) => Ok(None),
        Reading::Fault { kind, at } => Ok(Some(syntax_error(alloc, file, kind, *at)?)),
    }
}

/// It doesn't define its constant.
fn undefined_by(
    alloc: Global,
    file: &ReadFile<'_>,
    own: OwnKind,
) -> Result<Option<RubyError>, AllocError>
    requires { own ≡ read.own_of (used file.now) }
    ensures { IfOk result (λ fault. fault ≡ spec.undefined_by (used file.now)
        (spec.kind_in (among.entries (used file.now)) file.now.constant.now)) }
{
    match own {
        OwnKind::Missing => Ok(Some(undefined(alloc, file)?)),
        OwnKind::Module | OwnKind::Class | OwnKind::Value => Ok(None),
    }
}

/// Something stands outside its constant that is no plain opening around it.
fn more_than(alloc: Global, file: &ReadFile<'_>) -> Result<Option<RubyError>, AllocError>
    ensures { IfOk result (λ fault. fault ≡ spec.more_than (used file.now)
        (list_any (spec.is_outside file.now.constant.now) (among.entries (used file.now)))) }
{
    if any_outside(file.constant, entries_in(&file.reading)) {
        Ok(Some(defines_more(alloc, file)?))
    } else {
        Ok(None)
    }
}

/// Whether it assigns a namespace.
fn assigns_namespace(files: &UsedFiles<'_, '_>, file: &ReadFile<'_>, own: OwnKind) -> bool
    requires { own ≡ read.own_of (used file.now) }
    ensures { result ≡ (spec.is_value (spec.kind_in (among.entries (used file.now)) file.now.constant.now)
        && among.is_namespace (used_all files.now.files.now) file.now.constant.now) }
{
    match own {
        OwnKind::Value => files.is_namespace(file.constant),
        OwnKind::Missing | OwnKind::Module | OwnKind::Class => false,
    }
}

/// Whether an entry opens an enclosing namespace with the other keyword.
fn opens_otherwise(files: &UsedFiles<'_, '_>, file: &ReadFile<'_>, entry: &Entry<'_>) -> bool
    ensures { result ≡ spec.opens_otherwise (used_all files.now.files.now) (used file.now) (seen entry.now) }
{
    opens_around(file.constant, entry) && clashes(files.keyword(&entry.constant), entry.what)
}

/// The first entry that opens an enclosing namespace with the other keyword.
fn first_otherwise<'a, 't>(
    files: &UsedFiles<'_, '_>,
    file: &ReadFile<'_>,
    entries: &'a [Entry<'t>],
) -> Option<&'a Entry<'t>>
    ensures { option_map (λ e. seen e.now) result
        ≡ find (spec.opens_otherwise (used_all files.now.files.now) (used file.now)) (seen_all entries.now) }
{
    let mut left = entries;
    'entries: while let [entry, behind @ ..] = left {
        if opens_otherwise(files, file, entry) {
            return Some(entry);
        }
        left = behind;
    }
    None
}

/// The first fault of a file, among the files that are used. An error where memory runs out.
pub fn file_fault(
    alloc: Global,
    files: &UsedFiles<'_, '_>,
    file: &ReadFile<'_>,
) -> Result<Option<RubyError>, AllocError>
    ensures { IfOk result (λ fault. fault ≡ spec.file_fault (used_all files.now.files.now) (used file.now)) }
{
    match unread(alloc, file)? {
        Some(fault) => Ok(Some(fault)),
        None => text_fault(alloc, files, file),
    }
}

/// The first fault of a file behind those of its syntax.
fn text_fault(
    alloc: Global,
    files: &UsedFiles<'_, '_>,
    file: &ReadFile<'_>,
) -> Result<Option<RubyError>, AllocError>
    ensures { IfOk result (λ fault. fault ≡ read.text_fault (used_all files.now.files.now) (used file.now)) }
{
    let own = own_of(file);
    match undefined_by(alloc, file, own)? {
        Some(fault) => Ok(Some(fault)),
        None => match more_than(alloc, file)? {
            Some(fault) => Ok(Some(fault)),
            None => place_fault(alloc, files, file, own),
        },
    }
}

/// The first fault of a file that defines its constant and nothing outside of it.
fn place_fault(
    alloc: Global,
    files: &UsedFiles<'_, '_>,
    file: &ReadFile<'_>,
    own: OwnKind,
) -> Result<Option<RubyError>, AllocError>
    requires { own ≡ read.own_of (used file.now) }
    ensures { IfOk result (λ fault. fault ≡ read.place_fault (used_all files.now.files.now) (used file.now)) }
{
    let entries = entries_in(&file.reading);
    if assigns_namespace(files, file, own) {
        return Ok(Some(no_module(alloc, file)?));
    }
    match inner_site(alloc, files, file.constant, entries)? {
        Some(path) => Ok(Some(has_own_file(alloc, file, &path)?)),
        None => keyword_fault(alloc, files, file, entries),
    }
}

/// The sixth fault.
fn keyword_fault(
    alloc: Global,
    files: &UsedFiles<'_, '_>,
    file: &ReadFile<'_>,
    entries: &[Entry<'_>],
) -> Result<Option<RubyError>, AllocError>
    ensures { IfOk result (λ fault. fault ≡ spec.other_keyword (used file.now)
        (find (spec.opens_otherwise (used_all files.now.files.now) (used file.now)) (seen_all entries.now))) }
{
    match first_otherwise(files, file, entries) {
        Some(entry) => Ok(Some(other_keyword(alloc, file, entry)?)),
        None => Ok(None),
    }
}
