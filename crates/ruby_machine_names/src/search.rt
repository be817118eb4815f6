ghost use Rattle.std.specs.Prelude.{◌≡◌, ◌++◌, ◌∷◌, [], IfOk, OnOk, codes, filter_map};
ghost use Rattle.ruby_types.specs.Paths.{path_text};
ghost use Rattle.program_places.specs.Paths.{Path};
ghost use Rattle.ruby_runs.specs.Names as spec;
ghost use Rattle.ruby_machine_names.specs.Steps.{Ends, Settles, here_of};
ghost use Rattle.ruby_machine_names.specs.Profile.{profile};
ghost use Rattle.ruby_machine_names.specs.Names as names;

use crate::here::{Failure, HereCode};
use crate::looks::{copy_error, fault, is_there, join};
use lists::{Copying, Listed};
use plain_text::push_path;
use program_lookups::{Lookups, Standing};
use ruby_types::{CPath, ErrorClass, Text, Value};
use std::alloc::{AllocError, Global};

/// Where a name stands: bare in the scopes, or behind another constant.
#[derive(Drop)]
pub enum Outer {
    Scopes,
    Within(CPath),
}

/// Whether a scope has a path below it as its own constant. A scope whose file is at fault raises that fault.
fn owns<P: Lookups>(program: &P, scope: &CPath, inner: &CPath) -> Result<bool, Failure>
    ensures { let place = (P.index program.now).place in
        Settles (spec.own_at (P.index program.now) profile (place scope.now) (spec.is_there (place inner.now))) result }
{
    match fault(program, scope) {
        Some(error) => Err(Failure::Raised(copy_error(error)?)),
        None => Ok(is_there(program, inner)),
    }
}

/// The first of these scopes that has the name as its own constant, with the name behind it.
pub fn search<P: Lookups>(
    alloc: Global,
    program: &P,
    name: &Text,
    scopes: &[CPath],
) -> Result<Option<CPath>, Failure>
    ensures { Settles (spec.search (P.index program.now) profile name.now scopes.now) result }
{
    'scopes: for scope in scopes {
        let path = join(alloc, scope.as_slice(), name)?;
        if owns(program, scope, &path)? {
            return Ok(Some(path));
        }
    }
    Ok(None)
}

/// The name in one scope.
pub fn own<P: Lookups>(
    alloc: Global,
    program: &P,
    scope: &CPath,
    name: &Text,
) -> Result<Option<CPath>, Failure>
    ensures { Settles (spec.search (P.index program.now) profile name.now (scope.now ∷ [])) result }
{
    let path = join(alloc, scope.as_slice(), name)?;
    if owns(program, scope, &path)? {
        Ok(Some(path))
    } else {
        Ok(None)
    }
}

fn uninitialized_name(alloc: Global, path: &CPath) -> Result<Text, AllocError>
    ensures { IfOk result (λ text. text ≡ codes "uninitialized constant " ++ path_text path.now) }
{
    let mut text = Vec::from_slice(alloc, b"uninitialized constant ")?;
    push_path(&mut text, path)?;
    Text::from_vec(alloc, text)
}

/// The error of a constant that isn't there.
fn uninitialized(alloc: Global, here: &HereCode, outer: &[Text], name: &Text) -> Failure
    ensures { Ends (spec.uninitialized {A = Path} (here_of here.now) (outer.now ++ name.now ∷ [])) result }
{
    let Ok(path) = join(alloc, outer, name) else {
        return Failure::Memory;
    };
    match uninitialized_name(alloc, &path) {
        Ok(text) => here.error(alloc, ErrorClass::Name, text),
        Err(_) => Failure::Memory,
    }
}

/// A constant of the top level, else the error that none is there below the path told.
pub fn at_top<P: Lookups>(
    alloc: Global,
    program: &P,
    here: &HereCode,
    told: &[Text],
    name: &Text,
) -> Result<CPath, Failure>
    ensures { let told = told.now ++ name.now ∷ [] in
        Settles (spec.at_top (P.index program.now) profile (here_of here.now) told name.now) result }
{
    let path = join(alloc, &[], name)?;
    if is_there(program, &path) {
        Ok(path)
    } else {
        Err(uninitialized(alloc, here, told, name))
    }
}

/// Where neither scopes nor ancestors have a name: the top level for a bare one, else an error.
pub fn fallback<P: Lookups>(
    alloc: Global,
    program: &P,
    here: &HereCode,
    outer: &Outer,
    name: &Text,
) -> Result<CPath, Failure>
    ensures { Settles (names.fallback (P.index program.now) (here_of here.now) outer.now name.now) result }
{
    match outer {
        Outer::Within(path) => Err(uninitialized(alloc, here, path.as_slice(), name)),
        Outer::Scopes => at_top(alloc, program, here, innermost(here), name),
    }
}

fn innermost(here: &HereCode) -> &[Text]
    ensures { result.now ≡ spec.innermost here.now.scopes }
{
    if here.scopes.is_empty() {
        return &[];
    }
    here.scopes.at(0).as_slice()
}

/// Whether the ancestors of what stands at a path are asked for. Those of anything else are itself alone.
pub fn asks_ancestors<P: Lookups>(program: &P, path: &CPath) -> bool
    ensures { names.AncestorsBy (P.index program.now) path.now result }
{
    match program.place(path) {
        Standing::Missing => false,
        Standing::Implicit => false,
        Standing::Faulty(_, _) => true,
        Standing::Assigned(_, _, _) => false,
        Standing::Opened(_, _) => true,
    }
}

/// The modules of a list of ancestors. What is no list has none.
pub fn members(alloc: Global, value: &Value) -> Result<Vec<CPath>, AllocError>
    ensures { IfOk result (λ paths. paths.items ≡ spec.members_of value.now) }
{
    match value {
        Value::Array(items) => modules(alloc, items.as_slice()),
        _ => Ok(Vec::new(alloc)),
    }
}

fn modules(alloc: Global, items: &[Value]) -> Result<Vec<CPath>, AllocError>
    ensures { IfOk result (λ paths. paths.items ≡ filter_map spec.module_of items.now) }
{
    let mut paths = Vec::new(alloc);
    'items: for item in items {
        push_module(&mut paths, item)?;
    }
    Ok(paths)
}

/// Adds the path of what is a module or class.
fn push_module(paths: &mut Vec<CPath>, item: &Value) -> Result<(), AllocError>
    ensures { OnOk result (paths.new.items ≡ paths.old.items ++ filter_map spec.module_of (item.now ∷ [])) }
{
    match item {
        Value::Module(path) => {
            paths.push(path.copy()?)?;
            Ok(())
        }
        _ => Ok(()),
    }
}
