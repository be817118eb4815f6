use outside::{FileBytes, FileEntry, FilePath, Stamp};
use std::alloc::{AllocError, Global};
use std::process::Abort;
use std::test::Fail;
use tree_report::{ExceededLimit, Limit, Refusal, exceeded_limit, is_within_limits};

fn file(alloc: Global, path: &[u8], bytes: &[u8]) -> Result<FileEntry, AllocError> {
    Ok(FileEntry {
        path: FilePath::from_bytes(alloc, path)?,
        bytes: FileBytes::from_bytes(alloc, bytes)?,
        stamp: Stamp { length: 0, time: 1 },
    })
}

/// So many empty files with one path: the limits look at no more of them.
fn files(alloc: Global, count: usize) -> Result<Vec<FileEntry>, AllocError> {
    let mut files = Vec::new(alloc);
    for _ in 0..count {
        files.push(file(alloc, b"app/models/a.rb", b"")?)?;
    }
    Ok(files)
}

fn exceeded(limit: Limit, number: u64) -> Option<ExceededLimit> {
    Some(ExceededLimit { limit, number })
}

/// What exceeds the limits among files of these paths with so many bytes in each.
fn exceeded_by(
    alloc: Global,
    paths: &[&[u8]],
    size: usize,
) -> Result<Option<ExceededLimit>, AllocError> {
    let bytes = vec![in alloc; b' '; size]?;
    let mut all = Vec::new(alloc);
    for path in paths {
        all.push(file(alloc, path, bytes.as_slice())?)?;
    }
    Ok(exceeded_limit(all.as_slice()))
}

#[test]
fn more_than_4096_files_are_too_many(rt: HostRuntime) -> Result<(), Fail> {
    let alloc = rt.alloc();
    let mut many = files(alloc, 4_096)?;
    assert!(rt; is_within_limits(many.as_slice()));
    assert_eq!(rt; exceeded_limit(many.as_slice()), None);
    many.push(file(alloc, b"lib/a.rb", b"")?)?;
    assert_eq!(rt;
        exceeded_limit(many.as_slice()),
        exceeded(Limit::Files, 4_097)
    );
    Ok(())
}

#[test]
fn more_than_4194304_bytes_are_too_many(rt: HostRuntime) -> Result<(), Fail> {
    let paths = [b"lib/a.rb".as_slice(), b"lib/b.rb".as_slice()];
    assert_eq!(rt; exceeded_by(rt.alloc(), &paths, 2_097_152)?, None);
    assert_eq!(rt;
        exceeded_by(rt.alloc(), &paths, 2_097_153)?,
        exceeded(Limit::Bytes, 4_194_306)
    );
    Ok(())
}

#[test]
fn the_first_path_of_more_than_255_bytes_is_too_long(rt: HostRuntime) -> Result<(), Fail> {
    let alloc = rt.alloc();
    let short = vec![in alloc; b'a'; 255]?;
    let long = vec![in alloc; b'a'; 256]?;
    let longer = vec![in alloc; b'a'; 300]?;
    assert_eq!(rt; exceeded_by(alloc, &[short.as_slice()], 0)?, None);
    assert_eq!(rt;
        exceeded_by(
            alloc,
            &[short.as_slice(), long.as_slice(), longer.as_slice()],
            0
        )?,
        exceeded(Limit::Path, 256)
    );
    Ok(())
}

/// A limit, the number that exceeds it, and the line.
static LIMITS: [(Limit, u64, &[u8]); 3] = [
    (Limit::Files, 4_097, b"limit: files 4097\n"),
    (
        Limit::Bytes,
        u64::MAX,
        b"limit: bytes 18446744073709551615\n",
    ),
    (Limit::Path, 256, b"limit: path 256\n"),
];

fn each_limit_is_told(
    rt: &impl Abort,
    alloc: Global,
    rows: &[(Limit, u64, &[u8])],
) -> Result<(), Fail> {
    for (limit, number, wanted) in rows {
        let refusal = Refusal::Limit(ExceededLimit {
            limit: *limit,
            number: *number,
        });
        assert_eq!(rt; refusal.line(alloc)?.as_slice(), *wanted);
    }
    Ok(())
}

#[test]
fn exceeded_limits_are_told_in_one_line(rt: HostRuntime) -> Result<(), Fail> {
    each_limit_is_told(&rt, rt.alloc(), &LIMITS)
}
