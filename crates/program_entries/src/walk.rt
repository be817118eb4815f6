ghost use Rattle.std.specs.Prelude.{◌≡◌, [], ◌∷◌, ◌++◌, IfOk, OnOk};
ghost use Rattle.program_files.specs.Entries as plain;
ghost use Rattle.program_files.specs.Entries.{file_entries};
ghost use Rattle.program_entries.specs.Seen.{seen_what, seen_all, written_by};

use crate::entry::{Entry, Scopes, What};
use lists::Copying;
use ruby_types::{CPath, Def, FileTree, Text};
use std::alloc::{AllocError, Global};

/// A path with these names behind it.
fn joined(alloc: Global, around: &CPath, names: &[Text]) -> Result<CPath, AllocError>
    ensures { IfOk result (λ path. path ≡ around.now ++ names.now) }
{
    let mut path = Vec::new(alloc);
    push_names(&mut path, around.as_slice())?;
    push_names(&mut path, names)?;
    CPath::from_vec(alloc, path)
}

fn push_names(path: &mut Vec<Text>, names: &[Text]) -> Result<(), AllocError>
    ensures { OnOk result (path.new.items ≡ path.old.items ++ names.now) }
{
    'names: for name in names {
        path.push(name.copy()?)?;
    }
    Ok(())
}

/// The scopes of a body of this constant.
fn scopes_inside(alloc: Global, constant: &CPath, scopes: &Scopes) -> Result<Scopes, AllocError>
    ensures { IfOk result (λ inner. inner ≡ constant.now ∷ scopes.now) }
{
    let mut inner = Vec::new(alloc);
    inner.push(constant.copy()?)?;
    push_scopes(&mut inner, scopes.as_slice())?;
    Scopes::from_vec(alloc, inner)
}

fn push_scopes(inner: &mut Vec<CPath>, scopes: &[CPath]) -> Result<(), AllocError>
    ensures { OnOk result (inner.new.items ≡ inner.old.items ++ scopes.now) }
{
    'scopes: for scope in scopes {
        inner.push(scope.copy()?)?;
    }
    Ok(())
}

/// Adds what is written in these scopes, of this constant.
fn push_entry<'t>(
    entries: &mut Vec<Entry<'t>>,
    constant: CPath,
    scopes: &Scopes,
    what: What<'t>,
) -> Result<(), AllocError>
    ensures { OnOk result (seen_all entries.new.items
        ≡ seen_all entries.old.items ++ plain.entry constant scopes.now (seen_what what.entry) ∷ []) }
{
    let scopes = scopes.copy()?;
    entries.push(Entry {
        constant,
        scopes,
        what,
    })?;
    Ok(())
}

/// Adds an opening of this constant and what its body writes.
#[cycle(definition)]
fn push_opening<'t>(
    alloc: Global,
    entries: &mut Vec<Entry<'t>>,
    constant: &CPath,
    scopes: &Scopes,
    what: What<'t>,
    body: &'t [Def],
) -> Result<(), AllocError>
    ensures { OnOk result (seen_all entries.new.items ≡ seen_all entries.old.items
        ++ plain.entry constant.now scopes.now (seen_what what.entry)
        ∷ written_by body.now constant.now (constant.now ∷ scopes.now)) }
{
    push_entry(entries, constant.copy()?, scopes, what)?;
    let inner = scopes_inside(alloc, constant, scopes)?;
    push_definitions(alloc, entries, constant, &inner, body)
}

/// Adds what these definitions write, inside the body of this constant.
#[cycle(definition)]
fn push_definitions<'t>(
    alloc: Global,
    entries: &mut Vec<Entry<'t>>,
    around: &CPath,
    scopes: &Scopes,
    definitions: &'t [Def],
) -> Result<(), AllocError>
    ensures { OnOk result (seen_all entries.new.items ≡ seen_all entries.old.items
        ++ written_by definitions.now around.now scopes.now) }
{
    'definitions: for definition in definitions {
        push_definition(alloc, entries, around, scopes, definition)?;
    }
    Ok(())
}

#[cycle(definition)]
#[tactic(auto, using(crate::proofs::WalkLaws::module_writes, crate::proofs::WalkLaws::class_writes, crate::proofs::WalkLaws::assignment_writes, crate::proofs::WalkLaws::method_writes, crate::proofs::WalkLaws::include_writes, crate::proofs::WalkLaws::readers_write))]
fn push_definition<'t>(
    alloc: Global,
    entries: &mut Vec<Entry<'t>>,
    around: &CPath,
    scopes: &Scopes,
    definition: &'t Def,
) -> Result<(), AllocError>
    ensures { OnOk result (seen_all entries.new.items ≡ seen_all entries.old.items
        ++ plain.entries_of definition.now around.now scopes.now) }
{
    match definition {
        Def::Module { path, body } => {
            let constant = joined(alloc, around, path.as_slice())?;
            push_opening(
                alloc,
                entries,
                &constant,
                scopes,
                What::Module,
                body.as_slice(),
            )
        }
        Def::Class { path, parent, body } => {
            let constant = joined(alloc, around, path.as_slice())?;
            push_opening(
                alloc,
                entries,
                &constant,
                scopes,
                What::Class(parent),
                body.as_slice(),
            )
        }
        Def::Assign { name, value } => {
            let constant = joined_name(alloc, around, name)?;
            push_entry(entries, constant, scopes, What::Assigned(value))
        }
        Def::Method {
            single,
            name,
            params,
            body,
        } => push_entry(
            entries,
            around.copy()?,
            scopes,
            What::Method {
                single: *single,
                name,
                params,
                body,
            },
        ),
        Def::Include(constant) => push_entry(
            entries,
            around.copy()?,
            scopes,
            What::Include(constant),
        ),
        Def::Readers(names) => push_entry(entries, around.copy()?, scopes, What::Readers(names)),
    }
}

/// A path with this name behind it.
fn joined_name(alloc: Global, around: &CPath, name: &Text) -> Result<CPath, AllocError>
    ensures { IfOk result (λ path. path ≡ around.now ++ name.now ∷ []) }
{
    let mut path = Vec::new(alloc);
    push_names(&mut path, around.as_slice())?;
    path.push(name.copy()?)?;
    CPath::from_vec(alloc, path)
}

/// The entries of a file's tree, in text order. An error where memory runs out.
#[tactic(auto, using(crate::proofs::WalkLaws::file_writes))]
pub fn entries_of(alloc: Global, tree: &FileTree) -> Result<Vec<Entry<'_>>, AllocError>
    ensures { IfOk result (λ entries. seen_all entries.items ≡ file_entries tree.now.defs) }
{
    let mut entries = Vec::new(alloc);
    let outside = CPath::new(alloc);
    let scopes = Scopes::new(alloc);
    push_definitions(alloc, &mut entries, &outside, &scopes, tree.defs.as_slice())?;
    Ok(entries)
}
