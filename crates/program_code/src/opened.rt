ghost use Rattle.std.specs.Prelude.{IfOk};
ghost use Rattle.program_entries.specs.Seen.{seen_all};
ghost use Rattle.program_files.specs.Files.{UsedFile};
ghost use Rattle.program_lookups.specs.Codes.{Opens};
ghost use Rattle.ruby_nodes.specs.Entries.{Extends};
ghost use Rattle.program_code.specs.Codes.{IsOpenedOf};
ghost use Rattle.program_code.specs.Groups.{file_named, opening_by};
ghost use Rattle.program_code.specs.Seen.{placed};

use crate::members::{includes_of, instances_of, parent_of, singles_of};
use lists::Listed;
use program_entries::Entry;
use program_lookups::OpeningCode;
use program_methods::MethodTable;
use ruby_nodes::NodeTable;
use ruby_types::Text;
use std::alloc::{AllocError, Global};

/// A class or module with its own methods: those of itself, and those of its instances.
#[derive(Drop)]
pub struct OpenedCode {
    pub opening: OpeningCode,
    pub singles: MethodTable,
    pub instances: MethodTable,
}

/// A class or module without its methods, as its entries make it.
fn opening_of(
    alloc: Global,
    is_class: bool,
    entries: &[Entry<'_>],
    group: &[usize],
) -> Result<OpeningCode, AllocError>
    ensures { (file : UsedFile) → IfOk result (λ code. Opens code
        (opening_by file is_class (placed (seen_all entries.now) group.now))) }
{
    Ok(OpeningCode {
        is_class,
        parent: parent_of(entries, group)?,
        includes: Listed::from_vec(includes_of(alloc, entries, group)?),
    })
}

/// A class or module as the entries of a file make it.
pub fn opened_of(
    alloc: Global,
    nodes: &mut NodeTable,
    file: &Text,
    is_class: bool,
    entries: &[Entry<'_>],
    group: &[usize],
) -> Result<OpenedCode, AllocError>
    ensures extends { Extends nodes.old nodes.new }
    ensures code { IfOk result (λ code. IsOpenedOf nodes.new code
        (opening_by (file_named file.now) is_class (placed (seen_all entries.now) group.now))) }
{
    let opening = opening_of(alloc, is_class, entries, group)?;
    let singles = singles_of(alloc, nodes, file, entries, group)?;
    let instances = instances_of(alloc, nodes, file, entries, group)?;
    Ok(OpenedCode {
        opening,
        singles: MethodTable::new(singles)?,
        instances: MethodTable::new(instances)?,
    })
}
