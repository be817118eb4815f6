ghost use Rattle.std.specs.Prelude.{◌≡◌, ◌≢◌, ◌<◌, ◌++◌, [], length, map, slice_get, Some, IfOk, OnOk};
ghost use Rattle.program_files.specs.Files as among;
ghost use Rattle.program_files.specs.Faults.{keyword_by};
ghost use Rattle.program_faults.specs.Read as spec;
ghost use Rattle.program_faults.specs.Read.{used_all, present, constants_of, own_kind};

use crate::own::{OwnKind, own_of};
use crate::read::ReadFile;
use lists::Copying;
use program_constants::ConstantTable;
use ruby_types::CPath;
use std::alloc::{AllocError, Global};

/// The files that are used, and look-ups by their constants.
#[derive(Drop)]
pub struct UsedFiles<'f, 't> {
    pub files: &'f [Option<ReadFile<'t>>],
    constants: ConstantTable,
    owns: Vec<OwnKind>,
    ghost constants_are: { constants ≡ constants_of (used_all files.now) },
    ghost owns_are: { owns.items ≡ map spec.own_of (used_all files.now) },
}

fn push_constant(constants: &mut Vec<CPath>, file: &Option<ReadFile<'_>>) -> Result<(), AllocError>
    ensures { OnOk result (constants.new.items ≡ constants.old.items ++ constants_of (present file.now)) }
{
    if let Some(file) = file {
        constants.push(file.constant.copy()?)?;
    }
    Ok(())
}

fn constants_of(alloc: Global, files: &[Option<ReadFile<'_>>]) -> Result<Vec<CPath>, AllocError>
    ensures { IfOk result (λ constants. constants.items ≡ constants_of (used_all files.now)) }
{
    let mut constants = Vec::new(alloc);
    'files: for file in files {
        push_constant(&mut constants, file)?;
    }
    Ok(constants)
}

fn push_own(owns: &mut Vec<OwnKind>, file: &Option<ReadFile<'_>>) -> Result<(), AllocError>
    ensures { OnOk result (owns.new.items ≡ owns.old.items ++ map spec.own_of (present file.now)) }
{
    if let Some(file) = file {
        owns.push(own_of(file))?;
    }
    Ok(())
}

fn owns_of(alloc: Global, files: &[Option<ReadFile<'_>>]) -> Result<Vec<OwnKind>, AllocError>
    ensures { IfOk result (λ owns. owns.items ≡ map spec.own_of (used_all files.now)) }
{
    let mut owns = Vec::new(alloc);
    'files: for file in files {
        push_own(&mut owns, file)?;
    }
    Ok(owns)
}

fn own_at(owns: &[OwnKind], place: u32) -> OwnKind
    requires { place < length owns.now }
    ensures { slice_get owns.now place ≡ Some result }
{
    owns[place as usize]
}

impl<'f, 't> UsedFiles<'f, 't> {
    /// The look-ups of files, of which those that aren't used are passed over. An error where memory runs out.
    pub fn new(
        alloc: Global,
        files: &'f [Option<ReadFile<'t>>],
    ) -> Result<UsedFiles<'f, 't>, AllocError>
        ensures { IfOk result (λ all. used_all all.files.now ≡ used_all files.now) }
    {
        let constants = constants_of(alloc, files)?;
        // (an application has 4,096 files at most)
        if constants.len() > u32::MAX as usize {
            return Err(AllocError);
        }
        let constants = ConstantTable::new(alloc, constants)?;
        let owns = owns_of(alloc, files)?;
        Ok(UsedFiles {
            files,
            constants,
            owns,
        })
    }

    /// Whether a constant has a site: a file spells it or a constant inside it. Object has none.
    pub fn has_site(&self, path: &CPath) -> bool
        ensures { result ≡ among.has_site (used_all self.now.files.now) path.now }
    {
        self.constants.has_site(path)
    }

    /// Whether a file spells a constant inside this one, which isn't Object.
    pub fn is_namespace(&self, path: &CPath) -> bool
        requires { path.now ≢ [] }
        ensures { result ≡ among.is_namespace (used_all self.now.files.now) path.now }
    {
        self.constants.is_namespace(path)
    }

    /// How the text of a namespace's own file defines it. One without a file is a module.
    pub fn keyword(&self, path: &CPath) -> OwnKind
        ensures { result ≡ own_kind (keyword_by (among.file_of (used_all self.now.files.now) path.now) path.now) }
    {
        match self.constants.first(path) {
            None => OwnKind::Module,
            Some(place) => own_at(self.owns.as_slice(), place),
        }
    }
}
