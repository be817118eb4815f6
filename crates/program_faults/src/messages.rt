//! The errors that files at fault raise.
ghost use Rattle.std.specs.Prelude.{◌≡◌, ◌++◌, codes, true, Some, None, IfOk};
ghost use Rattle.std.specs.String.{string_bytes};
ghost use Rattle.std.specs.Fmt.{decimal};
ghost use Rattle.program_files.specs.Faults as spec;
ghost use Rattle.program_files.specs.Faults.{fault, keyword_text};
ghost use Rattle.program_entries.specs.Seen.{seen, seen_what};
ghost use Rattle.program_faults.specs.Read.{used};
ghost use Rattle.ruby_types.specs.Paths.{path_text};
ghost use Rattle.ruby_types.specs.declared.request.ErrorClass.TheVariants as class;

use crate::read::ReadFile;
use lists::Copying;
use plain_text::push_path;
use program_entries::{Entry, What};
use ruby_types::{CPath, ErrorClass, RubyError, Text};
use std::alloc::{AllocError, Global};

/// An error of this class and text, with the file's path.
fn error_of(
    alloc: Global,
    class: ErrorClass,
    message: Vec<u8>,
    file: &ReadFile<'_>,
) -> Result<RubyError, AllocError>
    ensures { IfOk result (λ error. Some error ≡ fault (used file.now) class message.items) }
{
    Ok(RubyError {
        class,
        message: Text::from_vec(alloc, message)?,
        path: file.path.copy()?,
    })
}

fn kind_at(alloc: Global, kind: &str, at: u32) -> Result<String, AllocError>
    ensures { IfOk result (λ text. string_bytes text ≡ kind.now ++ (codes " at byte " ++ decimal at)) }
{
    let text = format!(in alloc; "{kind} at byte {at}")?;
    Ok(text)
}

/// `unexpected at byte 12`.
pub fn syntax_error(
    alloc: Global,
    file: &ReadFile<'_>,
    kind: &str,
    at: u32,
) -> Result<RubyError, AllocError>
    ensures { IfOk result (λ error. Some error
        ≡ fault (used file.now) class.Syntax (kind.now ++ (codes " at byte " ++ decimal at))) }
{
    let message = kind_at(alloc, kind, at)?.into_bytes();
    error_of(alloc, ErrorClass::Syntax, message, file)
}

/// `expected file app/lib/a.rb to define constant A, but didn't`.
pub fn undefined(alloc: Global, file: &ReadFile<'_>) -> Result<RubyError, AllocError>
    ensures { IfOk result (λ error. Some error ≡ spec.undefined_by (used file.now) None) }
{
    let mut message = Vec::new(alloc);
    message.extend_from_slice(b"expected file ")?;
    message.extend_from_slice(file.path.as_bytes())?;
    message.extend_from_slice(b" to define constant ")?;
    push_path(&mut message, file.constant)?;
    message.extend_from_slice(b", but didn't")?;
    error_of(alloc, ErrorClass::Name, message, file)
}

/// `app/lib/a.rb defines more than A`.
pub fn defines_more(alloc: Global, file: &ReadFile<'_>) -> Result<RubyError, AllocError>
    ensures { IfOk result (λ error. Some error ≡ spec.more_than (used file.now) true) }
{
    let mut message = Vec::from_slice(alloc, file.path.as_bytes())?;
    message.extend_from_slice(b" defines more than ")?;
    push_path(&mut message, file.constant)?;
    error_of(alloc, ErrorClass::Name, message, file)
}

/// `A is not a class or module`.
pub fn no_module(alloc: Global, file: &ReadFile<'_>) -> Result<RubyError, AllocError>
    ensures { IfOk result (λ error. Some error ≡ spec.no_module (used file.now) true) }
{
    let mut message = Vec::new(alloc);
    push_path(&mut message, file.constant)?;
    message.extend_from_slice(b" is not a class or module")?;
    error_of(alloc, ErrorClass::Kind, message, file)
}

/// `A::B has a file of its own`.
pub fn has_own_file(
    alloc: Global,
    file: &ReadFile<'_>,
    path: &CPath,
) -> Result<RubyError, AllocError>
    ensures { IfOk result (λ error. Some error ≡ spec.own_file (used file.now) (Some path.now)) }
{
    let mut message = Vec::new(alloc);
    push_path(&mut message, path)?;
    message.extend_from_slice(b" has a file of its own")?;
    error_of(alloc, ErrorClass::Name, message, file)
}

fn keyword_of(what: What<'_>) -> &'static [u8]
    ensures { result.now ≡ keyword_text (seen_what what.entry) }
{
    match what {
        What::Class(_) => b"class",
        What::Module
        | What::Assigned(_)
        | What::Method { .. }
        | What::Include(_)
        | What::Readers(_) => b"module",
    }
}

/// `A is not a class`.
pub fn other_keyword(
    alloc: Global,
    file: &ReadFile<'_>,
    entry: &Entry<'_>,
) -> Result<RubyError, AllocError>
    ensures { IfOk result (λ error. Some error ≡ spec.other_keyword (used file.now) (Some (seen entry.now))) }
{
    let mut message = Vec::new(alloc);
    push_path(&mut message, &entry.constant)?;
    message.extend_from_slice(b" is not a ")?;
    message.extend_from_slice(keyword_of(entry.what))?;
    error_of(alloc, ErrorClass::Kind, message, file)
}
