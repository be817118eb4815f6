ghost use Rattle.std.specs.Prelude.{◌≢◌, None, IfOk};
ghost use Rattle.program_entries.specs.Seen.{seen, seen_all};
ghost use Rattle.program_files.specs.Faults.{kind_of};
ghost use Rattle.ruby_nodes.specs.Entries.{Extends};
ghost use Rattle.program_code.specs.Codes.{IsContentBy, IsContentSo};
ghost use Rattle.program_code.specs.Groups.{file_named, first_kind};
ghost use Rattle.program_code.specs.Seen.{placed};

use crate::definitions::first_definition;
use crate::opened::{OpenedCode, opened_of};
use lists::Copying;
use program_entries::{Entry, What};
use program_lookups::Scopes;
use ruby_nodes::{NodeTable, push_expr};
use ruby_types::Text;
use std::alloc::{AllocError, Global};

/// What a file says of a constant that it owns.
#[derive(Drop)]
pub enum ContentCode {
    /// The file is at fault.
    Faulty,
    /// The node of the expression that is assigned, and the scopes around.
    Assigned(u32, Scopes),
    Opened(OpenedCode),
}

/// What a constant is that this entry of its entries first defines.
fn content_by(
    alloc: Global,
    nodes: &mut NodeTable,
    file: &Text,
    entries: &[Entry<'_>],
    group: &[usize],
    first: &Entry<'_>,
) -> Result<ContentCode, AllocError>
    requires { kind_of (seen first.now) ≢ None }
    ensures extends { Extends nodes.old nodes.new }
    ensures code { IfOk result (λ code. IsContentSo nodes.new (file_named file.now)
        (placed (seen_all entries.now) group.now) (kind_of (seen first.now)) code) }
{
    match first.what {
        What::Module => Ok(ContentCode::Opened(opened_of(
            alloc, nodes, file, false, entries, group,
        )?)),
        What::Class(_) => Ok(ContentCode::Opened(opened_of(
            alloc, nodes, file, true, entries, group,
        )?)),
        What::Assigned(value) => {
            let node = push_expr(nodes, value)?;
            Ok(ContentCode::Assigned(node, first.scopes.copy()?))
        }
        What::Method { .. } | What::Include(_) | What::Readers(_) => unreachable!(),
    }
}

/// What the entries of a constant say of it, of which one defines it.
pub fn content_of(
    alloc: Global,
    nodes: &mut NodeTable,
    file: &Text,
    entries: &[Entry<'_>],
    group: &[usize],
) -> Result<ContentCode, AllocError>
    requires { first_kind (placed (seen_all entries.now) group.now) ≢ None }
    ensures extends { Extends nodes.old nodes.new }
    ensures code { IfOk result (IsContentBy nodes.new (file_named file.now)
        (placed (seen_all entries.now) group.now)) }
{
    match first_definition(entries, group) {
        None => unreachable!(),
        Some(place) => content_by(alloc, nodes, file, entries, group, &entries[place]),
    }
}
