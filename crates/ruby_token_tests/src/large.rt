//! Large files.

use ruby_token::{LexFault, LexKind, Token, TokenKind, tokens};
use std::alloc::{AllocError, Global};
use std::test::Fail;
use std::time::{Duration, Instant};

/// So many bytes that repeat these.
fn repeated(alloc: Global, part: &[u8], size: usize) -> Result<Vec<u8>, AllocError> {
    let mut bytes = Vec::with_capacity(alloc, size)?;
    for b in part.iter().cycle().take(size) {
        bytes.push(*b)?;
    }
    Ok(bytes)
}

/// 20 bytes and 14 tokens a line.
#[test]
fn a_million_bytes_of_plain_lines(rt: HostRuntime) -> Result<(), Fail> {
    let bytes = repeated(rt.alloc(), b"ab = \"c#{d}\" + e(1)\n", 1_000_000)?;
    assert_eq!(rt; bytes.len(), 1_000_000);
    let start = Instant::now(&rt)?;
    let found = tokens(rt.alloc(), bytes.as_slice())
        .ok()
        .expect(&rt, "no fault");
    assert!(rt; start.elapsed(&rt)? < Duration::from_secs(5), "one pass");
    assert_eq!(rt; found.len(), 700_000);
    let last = Token {
        kind: TokenKind::Line,
        from: 999_999,
        to: 1_000_000,
    };
    assert_eq!(rt; *found.at(699_999), last);
    Ok(())
}

#[test]
fn insides_nested_to_a_great_depth(rt: HostRuntime) -> Result<(), Fail> {
    let bytes = repeated(rt.alloc(), b"\"#{", 1_000_000)?;
    assert_eq!(rt; bytes.len(), 1_000_000);
    let fault = tokens(rt.alloc(), bytes.as_slice()).err();
    assert_eq!(rt;
        fault,
        Some(LexFault {
            at: 0,
            kind: LexKind::OpenText
        })
    );
    Ok(())
}

/// Runs that a scan looks along without taking them cost no more than their length.
#[test]
fn long_runs_are_read_once(rt: HostRuntime) -> Result<(), Fail> {
    let parts: [&[u8]; 6] = [
        b"[\n",
        b"a;\n ",
        b"# \n\n",
        b"[;\n \n",
        b"'\\'\"",
        b"a: :b ::",
    ];
    let start = Instant::now(&rt)?;
    for part in parts {
        let bytes = repeated(rt.alloc(), part, 200_000)?;
        assert_eq!(rt; bytes.len(), 200_000);
        let _ = tokens(rt.alloc(), bytes.as_slice());
    }
    assert!(rt;
        start.elapsed(&rt)? < Duration::from_secs(10),
        "one pass each"
    );
    Ok(())
}
