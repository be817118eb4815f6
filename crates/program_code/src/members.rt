//! The methods and mentions of a class or module.
ghost use Rattle.std.specs.Prelude.{◌≡◌, ◌∷◌, ◌++◌, [], List, map, IfOk, OnOk};
ghost use Rattle.std.specs.Option.{option_map};
ghost use Rattle.program_places.specs.Places.{Method, Reads, Statements};
ghost use Rattle.program_files.specs.Contents.{first_mention, include_what, instance_what, parent_what, single_what};
ghost use Rattle.program_entries.specs.Seen.{seen, seen_all, seen_what};
ghost use Rattle.program_lookups.specs.Codes.{mention_of};
ghost use Rattle.ruby_nodes.specs.Entries.{Entry as NodeEntry, Extends};
ghost use Rattle.program_code.specs.Groups.{file_named, given};
ghost use Rattle.program_methods.specs.Methods.{Adds, IsMethodOf};
ghost use Rattle.program_code.specs.Members as spec;
ghost use Rattle.program_code.specs.Members.{reader_of, statements_of};
ghost use Rattle.program_code.specs.Seen.{entry_at, placed};

use lists::Copying;
use program_entries::{Entry, What};
use program_lookups::{BodyCode, MentionCode, MethodCode, Scopes};
use ruby_nodes::{NodeTable, push_body};
use ruby_types::{ConstRef, Stmts, Text, TextList};
use std::alloc::{AllocError, Global};

/// A method with these statements, in the text of a file.
fn method_code(
    nodes: &mut NodeTable,
    file: &Text,
    scopes: &Scopes,
    name: &Text,
    params: &TextList,
    body: &Stmts,
) -> Result<MethodCode, AllocError>
    ensures extends { Extends nodes.old nodes.new }
    ensures code { IfOk result (λ code. IsMethodOf nodes.new code
        (statements_of file.now scopes.now name.now params.now body.now)) }
{
    let first = push_body(nodes, body.as_slice())?;
    Ok(MethodCode {
        name: name.copy()?,
        params: params.copy()?,
        body: BodyCode::Statements(first),
        scopes: scopes.copy()?,
        file: file.copy()?,
    })
}

/// A method that reads an instance variable.
fn reader_code(
    alloc: Global,
    file: &Text,
    scopes: &Scopes,
    name: &Text,
) -> Result<MethodCode, AllocError>
    ensures { IfOk result (λ code. (known : List NodeEntry) → IsMethodOf known code
        (reader_of file.now scopes.now name.now)) }
{
    Ok(MethodCode {
        name: name.copy()?,
        params: TextList::new(alloc),
        body: BodyCode::Reads(name.copy()?),
        scopes: scopes.copy()?,
        file: file.copy()?,
    })
}

fn push_code(methods: &mut Vec<MethodCode>, code: MethodCode) -> Result<(), AllocError>
    ensures { OnOk result ((known : List NodeEntry) (method : Method) → IsMethodOf known code method →
        Adds known methods.old.items methods.new.items (method ∷ [])) }
{
    methods.push(code)?;
    Ok(())
}

/// Adds a reader of each name.
fn push_readers(
    alloc: Global,
    methods: &mut Vec<MethodCode>,
    file: &Text,
    scopes: &Scopes,
    names: &[Text],
) -> Result<(), AllocError>
    ensures { OnOk result ((known : List NodeEntry) → Adds known methods.old.items methods.new.items
        (map (reader_of file.now scopes.now) names.now)) }
{
    'names: for name in names {
        push_code(methods, reader_code(alloc, file, scopes, name)?)?;
    }
    Ok(())
}

/// Adds a method, if it is wanted.
fn push_method(
    nodes: &mut NodeTable,
    methods: &mut Vec<MethodCode>,
    file: &Text,
    scopes: &Scopes,
    name: &Text,
    params: &TextList,
    body: &Stmts,
    wanted: bool,
) -> Result<(), AllocError>
    ensures extends { Extends nodes.old nodes.new }
    ensures added { OnOk result (Adds nodes.new methods.old.items methods.new.items
        (spec.if_wanted wanted (statements_of file.now scopes.now name.now params.now body.now))) }
{
    if wanted {
        push_code(
            methods,
            method_code(nodes, file, scopes, name, params, body)?,
        )
    } else {
        Ok(())
    }
}

/// Adds the singleton method of an entry, if it writes one.
fn push_single(
    nodes: &mut NodeTable,
    methods: &mut Vec<MethodCode>,
    file: &Text,
    entry: &Entry<'_>,
) -> Result<(), AllocError>
    ensures extends { Extends nodes.old nodes.new }
    ensures added { OnOk result (Adds nodes.new methods.old.items methods.new.items
        (single_what (file_named file.now) (seen entry.now) (seen_what entry.now.what))) }
{
    match entry.what {
        What::Method {
            single,
            name,
            params,
            body,
        } => push_method(
            nodes,
            methods,
            file,
            &entry.scopes,
            name,
            params,
            body,
            single,
        ),
        What::Module | What::Class(_) | What::Assigned(_) | What::Include(_) | What::Readers(_) =>
            Ok(()),
    }
}

/// Adds the instance method or the readers of an entry, if it writes some.
fn push_instances(
    alloc: Global,
    nodes: &mut NodeTable,
    methods: &mut Vec<MethodCode>,
    file: &Text,
    entry: &Entry<'_>,
) -> Result<(), AllocError>
    ensures extends { Extends nodes.old nodes.new }
    ensures added { OnOk result (Adds nodes.new methods.old.items methods.new.items
        (instance_what (file_named file.now) (seen entry.now) (seen_what entry.now.what))) }
{
    match entry.what {
        What::Method {
            single,
            name,
            params,
            body,
        } => push_method(
            nodes,
            methods,
            file,
            &entry.scopes,
            name,
            params,
            body,
            !single,
        ),
        What::Readers(names) => {
            push_readers(alloc, methods, file, &entry.scopes, names.as_slice())
        }
        What::Module | What::Class(_) | What::Assigned(_) | What::Include(_) => Ok(()),
    }
}

/// Adds the singleton method of the entry at a place.
fn push_single_at(
    nodes: &mut NodeTable,
    methods: &mut Vec<MethodCode>,
    file: &Text,
    entries: &[Entry<'_>],
    place: usize,
) -> Result<(), AllocError>
    ensures extends { Extends nodes.old nodes.new }
    ensures added { OnOk result (Adds nodes.new methods.old.items methods.new.items
        (given (single_what (file_named file.now)) (entry_at (seen_all entries.now) place))) }
{
    if place < entries.len() {
        push_single(nodes, methods, file, &entries[place])
    } else {
        Ok(())
    }
}

/// Adds the instance method or the readers of the entry at a place.
fn push_instances_at(
    alloc: Global,
    nodes: &mut NodeTable,
    methods: &mut Vec<MethodCode>,
    file: &Text,
    entries: &[Entry<'_>],
    place: usize,
) -> Result<(), AllocError>
    ensures extends { Extends nodes.old nodes.new }
    ensures added { OnOk result (Adds nodes.new methods.old.items methods.new.items
        (given (instance_what (file_named file.now)) (entry_at (seen_all entries.now) place))) }
{
    if place < entries.len() {
        push_instances(alloc, nodes, methods, file, &entries[place])
    } else {
        Ok(())
    }
}

/// The singleton methods of a constant, as its entries write them.
pub fn singles_of(
    alloc: Global,
    nodes: &mut NodeTable,
    file: &Text,
    entries: &[Entry<'_>],
    group: &[usize],
) -> Result<Vec<MethodCode>, AllocError>
    ensures extends { Extends nodes.old nodes.new }
    ensures added { IfOk result (λ methods. Adds nodes.new [] methods.items
        (given (single_what (file_named file.now)) (placed (seen_all entries.now) group.now))) }
{
    let mut methods = Vec::new(alloc);
    'places: for place in group {
        push_single_at(nodes, &mut methods, file, entries, *place)?;
    }
    Ok(methods)
}

/// The instance methods and readers of a constant, as its entries write them.
pub fn instances_of(
    alloc: Global,
    nodes: &mut NodeTable,
    file: &Text,
    entries: &[Entry<'_>],
    group: &[usize],
) -> Result<Vec<MethodCode>, AllocError>
    ensures extends { Extends nodes.old nodes.new }
    ensures added { IfOk result (λ methods. Adds nodes.new [] methods.items
        (given (instance_what (file_named file.now)) (placed (seen_all entries.now) group.now))) }
{
    let mut methods = Vec::new(alloc);
    'places: for place in group {
        push_instances_at(alloc, nodes, &mut methods, file, entries, *place)?;
    }
    Ok(methods)
}

/// A constant as it is written, with the scopes that it is looked up in.
fn mention_code(constant: &ConstRef, scopes: &Scopes) -> Result<MentionCode, AllocError>
    ensures { IfOk result (λ code. mention_of code ≡ record { constant = constant.now; scopes = scopes.now }) }
{
    Ok(MentionCode {
        constant: ConstRef {
            top: constant.top,
            path: constant.path.copy()?,
        },
        scopes: scopes.copy()?,
    })
}

fn push_include(mentions: &mut Vec<MentionCode>, entry: &Entry<'_>) -> Result<(), AllocError>
    ensures { OnOk result (map mention_of mentions.new.items ≡ map mention_of mentions.old.items
        ++ include_what (seen entry.now) (seen_what entry.now.what)) }
{
    match entry.what {
        What::Include(constant) => {
            mentions.push(mention_code(constant, &entry.scopes)?)?;
            Ok(())
        }
        What::Module
        | What::Class(_)
        | What::Assigned(_)
        | What::Method { .. }
        | What::Readers(_) => Ok(()),
    }
}

fn push_include_at(
    mentions: &mut Vec<MentionCode>,
    entries: &[Entry<'_>],
    place: usize,
) -> Result<(), AllocError>
    ensures { OnOk result (map mention_of mentions.new.items ≡ map mention_of mentions.old.items
        ++ given include_what (entry_at (seen_all entries.now) place)) }
{
    if place < entries.len() {
        push_include(mentions, &entries[place])
    } else {
        Ok(())
    }
}

/// What a constant includes, in the order of the text.
pub fn includes_of(
    alloc: Global,
    entries: &[Entry<'_>],
    group: &[usize],
) -> Result<Vec<MentionCode>, AllocError>
    ensures { IfOk result (λ mentions. map mention_of mentions.items
        ≡ given include_what (placed (seen_all entries.now) group.now)) }
{
    let mut mentions = Vec::new(alloc);
    'places: for place in group {
        push_include_at(&mut mentions, entries, *place)?;
    }
    Ok(mentions)
}

/// The parent that an entry writes, if it writes one.
fn parent_in(entry: &Entry<'_>) -> Result<Option<MentionCode>, AllocError>
    ensures { IfOk result (λ parent. option_map mention_of parent
        ≡ first_mention (parent_what (seen entry.now) (seen_what entry.now.what))) }
{
    match entry.what {
        What::Class(Some(parent)) => Ok(Some(mention_code(parent, &entry.scopes)?)),
        What::Class(None)
        | What::Module
        | What::Assigned(_)
        | What::Method { .. }
        | What::Include(_)
        | What::Readers(_) => Ok(None),
    }
}

fn parent_at(entries: &[Entry<'_>], place: usize) -> Result<Option<MentionCode>, AllocError>
    ensures { IfOk result (λ parent. option_map mention_of parent
        ≡ first_mention (given parent_what (entry_at (seen_all entries.now) place))) }
{
    if place < entries.len() {
        parent_in(&entries[place])
    } else {
        Ok(None)
    }
}

/// The parent of a class: the first that is written.
pub fn parent_of(entries: &[Entry<'_>], group: &[usize]) -> Result<Option<MentionCode>, AllocError>
    ensures { IfOk result (λ parent. option_map mention_of parent
        ≡ first_mention (given parent_what (placed (seen_all entries.now) group.now))) }
{
    let mut left = group;
    'places: while let [place, behind @ ..] = left {
        match parent_at(entries, *place)? {
            Some(parent) => return Ok(Some(parent)),
            None => left = behind,
        }
    }
    Ok(None)
}
