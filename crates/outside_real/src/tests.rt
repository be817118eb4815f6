//! Folders made for the tests and read whole, bytes sent to standard output, and a connection from end to end.
use crate::{FolderFault, FolderTree, StdinSource, StdoutSink, TcpLink, TcpPort};
use outside::{
    Delivery, ReadAns, Sink, Snapshot, Source, Stamps, StampsAns, Tree, TreeAns, WriteAns,
    are_within_limits,
};
use outside_links::{Link, Port, PortAns, send_all};
use std::fs::{File, OpenFile};
use std::net::{TcpListener, TcpStream};
use std::os::unix::fs::symlink;
use std::process::Abort;
use std::test::Fail;
use std::{env, fs};

/// Makes an empty folder of this name and goes there.
fn enter(rt: &HostRuntime, home: &str) -> Result<(), Fail> {
    let _ = fs::remove_dir_all(rt, home);
    fs::create_dir(rt, home)?;
    env::set_current_dir(rt, home)?;
    Ok(())
}

/// Goes back, and removes the folder of this name.
fn leave(rt: &HostRuntime, home: &str) -> Result<(), Fail> {
    env::set_current_dir(rt, "..")?;
    fs::remove_dir_all(rt, home)?;
    Ok(())
}

/// Watched files out of the order of their paths, other files beside them, and links: to a file, to a folder, and one
/// that leads nowhere, as editors make them for a file that is being edited.
fn fill(rt: &HostRuntime) -> Result<(), Fail> {
    fs::create_dir_all(rt, "app/models/admin")?;
    fs::create_dir_all(rt, "config")?;
    fs::create_dir_all(rt, "lib")?;
    fs::write(rt, "lib/z.rb", b"".as_slice())?;
    fs::write(rt, "config/loader.conf", b"ignore lib/old\n".as_slice())?;
    fs::write(rt, "config/other.conf", b"x".as_slice())?;
    fs::write(rt, "app/models/user.rb", b"class User\nend\n".as_slice())?;
    fs::write(rt, "app/models/admin/user.rb", b"ab".as_slice())?;
    fs::write(rt, "app/models/user.txt", b"x".as_slice())?;
    fs::write(rt, "top.rb", b"x".as_slice())?;
    symlink(rt, "user.rb", "app/models/linked.rb")?;
    symlink(rt, "models", "app/others")?;
    symlink(rt, "nobody@nowhere", "app/models/.#user.rb")?;
    Ok(())
}

fn read_files<T: Tree>(tree: &mut T) -> Result<Snapshot, Fail> {
    match tree.read_all() {
        TreeAns::Read(snapshot) => Ok(snapshot),
        _ => Err(Fail::new("the files were not read")),
    }
}

fn read_stamps<T: Tree>(tree: &mut T) -> Result<Stamps, Fail> {
    match tree.stamps() {
        StampsAns::Read(stamps) => Ok(stamps),
        _ => Err(Fail::new("the stamps were not read")),
    }
}

/// The snapshot has these paths and contents, and the stamps are those of its files.
fn each_is_given(rt: &impl Abort, snapshot: &Snapshot, stamps: &Stamps, wanted: &[(&[u8], &[u8])]) {
    assert_eq!(rt; snapshot.files.len(), wanted.len());
    assert_eq!(rt; stamps.len(), wanted.len());
    let given = snapshot.files.as_slice().iter().zip(stamps.as_slice());
    for ((file, stamp), (path, bytes)) in given.zip(wanted) {
        assert_eq!(rt; file.path.as_bytes(), *path);
        assert_eq!(rt; file.bytes.as_bytes(), *bytes);
        assert_eq!(rt; stamp.0.as_bytes(), *path);
        assert_eq!(rt; stamp.1, file.stamp);
        assert_eq!(rt; file.stamp.length, bytes.len() as u64);
        assert!(rt; file.stamp.time > 0);
    }
}

#[test]
fn a_folder_gives_its_watched_files_by_path(rt: HostRuntime) -> Result<(), Fail> {
    enter(&rt, "watched_files_test")?;
    let mut tree = FolderTree::new(rt.clone()?);
    assert_eq!(rt; read_files(&mut tree)?.files.len(), 0);
    fill(&rt)?;
    let snapshot = read_files(&mut tree)?;
    let stamps = read_stamps(&mut tree)?;
    let wanted = [
        (b"app/models/admin/user.rb".as_slice(), b"ab".as_slice()),
        (b"app/models/user.rb", b"class User\nend\n"),
        (b"config/loader.conf", b"ignore lib/old\n"),
        (b"lib/z.rb", b""),
    ];
    each_is_given(&rt, &snapshot, &stamps, &wanted);
    leave(&rt, "watched_files_test")
}

#[test]
fn a_linked_folder_of_the_configuration_is_passed_over(rt: HostRuntime) -> Result<(), Fail> {
    enter(&rt, "linked_config_test")?;
    fs::create_dir(&rt, "settings")?;
    fs::write(&rt, "settings/loader.conf", b"ignore lib/old\n".as_slice())?;
    symlink(&rt, "settings", "config")?;
    let mut tree = FolderTree::new(rt.clone()?);
    assert_eq!(rt; read_files(&mut tree)?.files.len(), 0);
    leave(&rt, "linked_config_test")
}

#[test]
fn files_beyond_the_limits_are_not_read(rt: HostRuntime) -> Result<(), Fail> {
    enter(&rt, "large_file_test")?;
    fs::create_dir(&rt, "lib")?;
    fs::write(&rt, "lib/a.rb", b"A".as_slice())?;
    File::create(&rt, "lib/large.rb")?.set_len(8_589_934_592)?;
    let mut tree = FolderTree::new(rt.clone()?);
    let snapshot = read_files(&mut tree)?;
    let stamps = read_stamps(&mut tree)?;
    assert_eq!(rt; snapshot.files.len(), 2);
    assert_eq!(rt; snapshot.files.at(0).bytes.len(), 0);
    assert_eq!(rt; snapshot.files.at(0).stamp.length, 1);
    assert_eq!(rt; snapshot.files.at(1).bytes.len(), 0);
    assert_eq!(rt; snapshot.files.at(1).stamp.length, 8_589_934_592);
    assert!(rt; !are_within_limits(stamps.as_slice()));
    leave(&rt, "large_file_test")
}

/// Makes folders in one another, whose path is longer than the system takes.
fn make_deep(rt: &HostRuntime, name: &str) -> Result<(), Fail> {
    for _ in 0..17 {
        fs::create_dir(rt, name)?;
        env::set_current_dir(rt, name)?;
    }
    for _ in 0..17 {
        env::set_current_dir(rt, "..")?;
    }
    Ok(())
}

#[test]
fn a_path_that_the_system_refuses_is_a_fault_that_is_told(rt: HostRuntime) -> Result<(), Fail> {
    enter(&rt, "deep_folder_test")?;
    fs::create_dir(&rt, "app")?;
    env::set_current_dir(&rt, "app")?;
    let name = "f".repeat(rt.alloc(), 250)?;
    make_deep(&rt, name.as_str())?;
    env::set_current_dir(&rt, "..")?;
    let mut tree = FolderTree::new(rt.clone()?);
    assert!(rt; tree.last_fault().is_none());
    assert!(rt; matches!(tree.stamps(), StampsAns::Failed));
    match tree.last_fault() {
        Some(FolderFault::System { path, .. }) => assert!(rt; path.as_str().starts_with("app/f")),
        _ => return Err(Fail::new("the fault is not told")),
    }
    assert!(rt; matches!(tree.read_all(), TreeAns::Failed));
    leave(&rt, "deep_folder_test")
}

#[test]
fn standard_output_takes_bytes(rt: HostRuntime) -> Result<(), Fail> {
    let mut out = StdoutSink::new(rt.clone()?);
    let line = b"a line\n".as_slice();
    match out.write(line) {
        WriteAns::Took(count) => assert!(rt; 1 <= count && count <= line.len()),
        WriteAns::Failed => return Err(Fail::new("nothing was taken")),
    }
    Ok(())
}

#[test]
fn a_source_gives_what_its_input_has(rt: HostRuntime) -> Result<(), Fail> {
    let mut source = StdinSource::new(b"abc".as_slice());
    let mut room = [b'.'; 2];
    assert_eq!(rt; source.read(&mut room), ReadAns::Got(2));
    assert_eq!(rt; source.read(&mut room), ReadAns::Got(1));
    assert_eq!(rt; source.read(&mut room), ReadAns::End);
    assert_eq!(rt; room.as_slice(), b"cb".as_slice());
    Ok(())
}

#[test]
fn a_port_gives_as_many_connections_as_it_was_made_for(rt: HostRuntime) -> Result<(), Fail> {
    let listener = TcpListener::bind(&rt, "127.0.0.1:0")?;
    let address = listener.local_addr()?;
    let mut client = TcpLink::new(TcpStream::connect(&rt, address)?);
    let mut port = TcpPort::new(listener, Some(1));
    let PortAns::Link(mut link) = port.accept() else {
        return Err(Fail::new("no connection was given"));
    };
    assert!(rt; matches!(port.accept(), PortAns::End));
    assert_eq!(rt; send_all(&mut client, b"ab"), Delivery::Whole);
    let mut room = [b'.'; 4];
    assert_eq!(rt; link.read(&mut room), ReadAns::Got(2));
    drop(link);
    assert_eq!(rt; client.read(&mut room), ReadAns::End);
    Ok(())
}
