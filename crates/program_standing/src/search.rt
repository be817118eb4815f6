ghost use Rattle.std.specs.Prelude.{◌≡◌, ◌∷◌, ◌++◌, [], IfOk, OnOk};
ghost use Rattle.program_standing.specs.Search as spec;
ghost use Rattle.program_standing.specs.Search.{own_or_other, found_at};

use crate::resolved::Resolved;
use crate::standing::Standing;
use crate::standings::Standings;
use lists::Copying;
use ruby_types::{CPath, Task, Text};
use std::alloc::{AllocError, Global};

fn owner_of(standing: Standing) -> Option<u32>
    ensures { result ≡ spec.owner_of standing }
{
    match standing {
        Standing::Owned(file) => Some(file),
        Standing::Missing | Standing::Implicit => None,
    }
}

fn own_or_other(from: Option<u32>, file: u32, path: CPath) -> Resolved
    ensures { result ≡ own_or_other from file path }
{
    match from {
        None => Resolved::Other(file, Task::Const(path)),
        Some(from) => {
            if from == file {
                Resolved::Own(Task::Const(path))
            } else {
                Resolved::Other(file, Task::Const(path))
            }
        }
    }
}

fn found_at(from: Option<u32>, path: CPath, standing: Standing) -> Option<Resolved>
    ensures { result ≡ found_at from path standing }
{
    match standing {
        Standing::Missing => None,
        Standing::Implicit => Some(Resolved::Namespace(path)),
        Standing::Owned(file) => Some(own_or_other(from, file, path)),
    }
}

fn push_names(path: &mut Vec<Text>, names: &[Text]) -> Result<(), AllocError>
    ensures { OnOk result (path.new.items ≡ path.old.items ++ names.now) }
{
    'names: for name in names {
        path.push(name.copy()?)?;
    }
    Ok(())
}

/// A scope's path with a name behind it.
fn joined(alloc: Global, scope: &[Text], name: &Text) -> Result<CPath, AllocError>
    ensures { IfOk result (λ path. path ≡ scope.now ++ name.now ∷ []) }
{
    let mut path = Vec::new(alloc);
    push_names(&mut path, scope)?;
    path.push(name.copy()?)?;
    CPath::from_vec(alloc, path)
}

impl Standings {
    fn scope_fault(&self, standing: Standing) -> Option<Resolved>
        ensures { result ≡ spec.scope_fault self.now standing }
    {
        match standing {
            Standing::Missing | Standing::Implicit => None,
            Standing::Owned(file) => {
                if self.is_faulty(file) {
                    Some(Resolved::Fault(file))
                } else {
                    None
                }
            }
        }
    }

    fn at_path(&self, from: Option<u32>, path: CPath) -> Option<Resolved>
        ensures { result ≡ spec.at_path self.now from path }
    {
        let standing = self.standing(&path);
        found_at(from, path, standing)
    }

    fn in_scope(
        &self,
        alloc: Global,
        from: Option<u32>,
        scope: &CPath,
        name: &Text,
    ) -> Result<Option<Resolved>, AllocError>
        ensures { IfOk result (λ found. found ≡ spec.in_scope self.now from scope.now name.now) }
    {
        match self.scope_fault(self.standing(scope)) {
            Some(fault) => Ok(Some(fault)),
            None => Ok(self.at_path(from, joined(alloc, scope.as_slice(), name)?)),
        }
    }

    fn at_top(&self, alloc: Global, from: Option<u32>, name: &Text) -> Result<Resolved, AllocError>
        ensures { IfOk result (λ found. found ≡ spec.or_missing (spec.at_path self.now from (name.now ∷ []))) }
    {
        match self.at_path(from, joined(alloc, &[], name)?) {
            Some(found) => Ok(found),
            None => Ok(Resolved::Missing),
        }
    }

    fn search(
        &self,
        alloc: Global,
        from: Option<u32>,
        scopes: &[CPath],
        name: &Text,
    ) -> Result<Resolved, AllocError>
        ensures { IfOk result (λ found. found ≡ spec.or_missing (spec.search self.now from scopes.now name.now)) }
    {
        let mut left = scopes;
        'scopes: while let [scope, behind @ ..] = left {
            match self.in_scope(alloc, from, scope, name)? {
                Some(found) => return Ok(found),
                None => left = behind,
            }
        }
        self.at_top(alloc, from, name)
    }

    fn innermost(&self, scopes: &[CPath]) -> Option<u32>
        ensures { result ≡ spec.innermost self.now scopes.now }
    {
        match scopes {
            [] => None,
            [scope, ..] => owner_of(self.standing(scope)),
        }
    }

    /// What a name is found as: each scope's own constant, innermost first, and then that of the top level. A scope
    /// whose file is at fault ends the search with that fault. An error where memory runs out.
    pub fn resolve(
        &self,
        alloc: Global,
        scopes: &[CPath],
        name: &Text,
    ) -> Result<Resolved, AllocError>
        ensures { IfOk result (λ found. found ≡ spec.resolved self.now scopes.now name.now) }
    {
        self.search(alloc, self.innermost(scopes), scopes, name)
    }
}
