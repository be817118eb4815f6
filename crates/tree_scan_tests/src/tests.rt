use app_config::{Config, read};
use lists::{Listed, Text};
use outside::{CallNumbers, MemTree, Snapshot, Tree, TreeAns};
use ruby_types::CPath;
use std::alloc::{AllocError, Global};
use std::process::Abort;
use std::test::Fail;
use tree_scan::{Site, Sites, camelize, scan};

fn snapshot_of(alloc: Global, files: &[&str]) -> Result<Snapshot, AllocError> {
    let mut tree = MemTree::new(alloc, CallNumbers::new(alloc));
    for path in files {
        tree.write(path, b"")?;
    }
    match tree.read_all() {
        TreeAns::Read(snapshot) => Ok(snapshot),
        TreeAns::Failed | TreeAns::Memory => Err(AllocError),
    }
}

fn config_of(alloc: Global, text: &[u8]) -> Result<Config, AllocError> {
    if text.len() > 1_000 {
        return Err(AllocError);
    }
    match read(alloc, text) {
        Ok(config) => Ok(config),
        Err(_) => Err(AllocError),
    }
}

/// A constant path of the names between `::`.
fn constant(alloc: Global, names: &[&str]) -> Result<CPath, AllocError> {
    let mut path = Listed::new(alloc);
    for name in names {
        path.push(Text::from_bytes(alloc, name.as_bytes())?)?;
    }
    CPath::from_vec(alloc, path.into_vec())
}

/// A constant, and what stands for it in an application of `admin.rb`, `admin/user.rb` and `x/y.rb` below one root.
struct Found {
    names: &'static [&'static str],
    site: Option<Site>,
    file: Option<u32>,
    children: usize,
}

const FOUND: [Found; 6] = [
    Found {
        names: &[],
        site: None,
        file: None,
        children: 2,
    },
    Found {
        names: &["Admin"],
        site: Some(Site::Explicit(0)),
        file: Some(0),
        children: 1,
    },
    Found {
        names: &["Admin", "User"],
        site: Some(Site::File(1)),
        file: Some(1),
        children: 0,
    },
    Found {
        names: &["X"],
        site: Some(Site::Namespace),
        file: None,
        children: 1,
    },
    Found {
        names: &["User"],
        site: None,
        file: None,
        children: 0,
    },
    Found {
        names: &["X", "Y"],
        site: Some(Site::File(2)),
        file: Some(2),
        children: 0,
    },
];

fn small_application(alloc: Global) -> Result<Sites, AllocError> {
    let files = [
        "app/models/admin.rb",
        "app/models/admin/user.rb",
        "app/models/x/y.rb",
    ];
    let snapshot = snapshot_of(alloc, &files)?;
    let config = config_of(alloc, b"")?;
    if snapshot.files.len() > 4_096 {
        return Err(AllocError);
    }
    match scan(alloc, &snapshot, &config) {
        Ok(sites) => Ok(sites),
        Err(_) => Err(AllocError),
    }
}

#[test]
fn sites_are_found_by_constant_path(rt: HostRuntime) -> Result<(), Fail> {
    let sites = small_application(rt.alloc())?;
    for found in &FOUND {
        let path = constant(rt.alloc(), found.names)?;
        assert_eq!(rt; sites.site(&path), found.site);
        assert_eq!(rt; sites.file_of(&path), found.file);
        assert_eq!(rt; sites.children(&path).len(), found.children);
    }
    Ok(())
}

/// A base name, and its constant.
static BASES: [(&[u8], &[u8]); 4] = [
    (b"html_parser", b"HtmlParser"),
    (b"api_status", b"APIStatus"),
    (b"foo-bar", b"Foo-bar"),
    (b"", b""),
];

fn each_is_camelized(
    rt: &impl Abort,
    alloc: Global,
    config: &Config,
    rows: &[(&[u8], &[u8])],
) -> Result<(), Fail> {
    for (base, wanted) in rows {
        assert_eq!(rt; camelize(alloc, base, config)?.as_bytes(), *wanted);
    }
    Ok(())
}

#[test]
fn a_base_is_camelized(rt: HostRuntime) -> Result<(), Fail> {
    let config = config_of(rt.alloc(), b"inflect api_status APIStatus\n")?;
    each_is_camelized(&rt, rt.alloc(), &config, &BASES)
}
