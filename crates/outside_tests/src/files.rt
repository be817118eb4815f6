//! Trees of files.

use lists::{Copying, Listed, Text};
use outside::{CallNumbers, MemTree, Snapshot, Stamp, StampsAns, Tree, TreeAns, is_watched};
use std::alloc::{AllocError, Global};
use std::process::Abort;
use std::test::Fail;

fn tree_that_fails_at(alloc: Global, numbers: &[u64]) -> Result<MemTree, AllocError> {
    let fails: CallNumbers = Listed::from_slice(alloc, numbers)?;
    Ok(MemTree::new(alloc, fails))
}

/// Writes each file.
fn write_each(tree: &mut MemTree, files: &[(&str, &[u8])]) -> Result<(), AllocError> {
    for (path, bytes) in files {
        tree.write(path, bytes)?;
    }
    Ok(())
}

fn stamps_of(tree: &mut MemTree) -> Result<Vec<(Text, Stamp)>, Fail> {
    match tree.stamps() {
        StampsAns::Read(stamps) => Ok(stamps.into_vec()),
        StampsAns::Failed | StampsAns::Memory => Err(Fail::new("the stamps were not read")),
    }
}

/// These are the paths, lengths and times, in order.
fn each_is_stamped(rt: &impl Abort, stamps: &[(Text, Stamp)], wanted: &[(&[u8], u64, u64)]) {
    assert_eq!(rt; stamps.len(), wanted.len());
    for ((path, stamp), (name, length, time)) in stamps.iter().zip(wanted) {
        assert_eq!(rt; path.as_bytes(), *name);
        assert_eq!(rt; (stamp.length, stamp.time), (*length, *time));
    }
}

#[test]
fn a_tree_stamps_its_watched_files_with_the_numbers_of_their_writes(
    rt: HostRuntime,
) -> Result<(), Fail> {
    let mut tree = tree_that_fails_at(rt.alloc(), &[])?;
    let files = [
        ("lib/z.rb", b"12345".as_slice()),
        ("README", b"x"),
        ("config/loader.conf", b""),
        ("lib/z.rb", b"123"),
    ];
    write_each(&mut tree, &files)?;
    assert!(rt; tree.remove("README"));
    assert!(rt; !tree.remove("README"));
    let wanted = [
        (b"config/loader.conf".as_slice(), 0, 3),
        (b"lib/z.rb", 3, 4),
    ];
    each_is_stamped(&rt, stamps_of(&mut tree)?.as_slice(), &wanted);
    Ok(())
}

/// The files that a read gives; one that fails gives none.
fn files_of(tree: &mut MemTree) -> Result<Option<Snapshot>, AllocError> {
    match tree.read_all() {
        TreeAns::Read(snapshot) => Ok(Some(snapshot)),
        TreeAns::Failed => Ok(None),
        TreeAns::Memory => Err(AllocError),
    }
}

#[test]
fn a_tree_whose_third_call_fails_gives_its_files_again_at_the_fourth(
    rt: HostRuntime,
) -> Result<(), Fail> {
    let mut tree = tree_that_fails_at(rt.alloc(), &[3])?;
    write_each(&mut tree, &[("app/a.rb", b"A")])?;
    assert_eq!(rt; stamps_of(&mut tree)?.len(), 1);
    let first = files_of(&mut tree)?
        .expect(&rt, "the second call reads")
        .copy()?;
    assert!(rt; files_of(&mut tree)?.is_none());
    write_each(&mut tree, &[("app/b.rb", b"B")])?;
    let second = files_of(&mut tree)?.expect(&rt, "the fourth call reads");
    assert_eq!(rt; first.files.len(), 1);
    assert_eq!(rt; second.files.len(), 2);
    assert_eq!(rt; second.files.at(1).bytes.as_bytes(), b"B".as_slice());
    Ok(())
}

#[test]
fn the_configuration_and_the_ruby_files_below_app_and_lib_are_watched(rt: HostRuntime) {
    for path in [
        "config/loader.conf",
        "app/models/user.rb",
        "lib/a.rb",
        "app/.rb",
    ] {
        assert!(rt; is_watched(path.as_bytes()), "{path}");
    }
    for path in [
        "app.rb",
        "apps/a.rb",
        "app/a.rb~",
        "config/routes.rb",
        "x/app/a.rb",
        "",
    ] {
        assert!(rt; !is_watched(path.as_bytes()), "{path}");
    }
}
