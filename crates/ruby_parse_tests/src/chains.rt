//! Chains of a million links, which open no level: they are read and printed by loops. The stack is too small for a
//! call a link,
//! so their trees are taken apart link by link here.

use crate::large::repeated;
use ruby_parse::{parse, print};
use ruby_types::{Def, Expr, FileTree};
use sqlite_items::Boxed;
use std::alloc::Global;
use std::process::Abort;
use std::sync::Wait;
use std::test::Fail;
use std::thread;
use std::thread::Threads;

/// A chain: its start, its link and its end; and the printed text's length, beginning and end.
#[derive(Clone, Copy)]
struct Chain {
    start: &'static str,
    link: &'static str,
    end: &'static str,
    length: usize,
    front: &'static [u8],
    back: &'static [u8],
}

static OPERATORS: [Chain; 3] = [
    Chain {
        start: "X = ",
        link: "1 + ",
        end: "1",
        length: 6_000_004,
        front: b"X = (((",
        back: b"1) + 1) + 1\n",
    },
    Chain {
        start: "X = ",
        link: "1 && ",
        end: "1",
        length: 7_000_004,
        front: b"X = (((",
        back: b"1) && 1) && 1\n",
    },
    Chain {
        start: "X = ",
        link: "1 || ",
        end: "1",
        length: 7_000_004,
        front: b"X = (((",
        back: b"1) || 1) || 1\n",
    },
];

static CALLS_AND_CHOICES: [Chain; 3] = [
    Chain {
        start: "X = A",
        link: ".b",
        end: "",
        length: 2_000_006,
        front: b"X = A.b.b",
        back: b".b.b\n",
    },
    Chain {
        start: "X = A",
        link: "[0]",
        end: "",
        length: 3_000_006,
        front: b"X = A[0][0]",
        back: b"[0][0]\n",
    },
    Chain {
        start: "X = ",
        link: "nil ? 1 : ",
        end: "2",
        length: 12_000_004,
        front: b"X = nil ? 1 : (nil ? 1 : (",
        back: b"))))\n",
    },
];

/// What a link stands around.
fn unlinked(expr: Expr) -> Option<Expr> {
    match expr {
        Expr::Call {
            on,
            name: _name,
            args: _args,
        } => on.map(Boxed::into_inner),
        Expr::And(first, _last) => Some(first.into_inner()),
        Expr::Or(first, _last) => Some(first.into_inner()),
        Expr::Choose(_test, _first, last) => Some(last.into_inner()),
        _other => None,
    }
}

/// The value of a file that is `X = ` and this.
fn assigned(tree: FileTree) -> Option<Expr> {
    match tree.defs.into_vec().pop()? {
        Def::Assign { name: _name, value } => Some(value),
        _other => None,
    }
}

/// Drops a tree link by link: its derived drop calls itself for each.
fn take_apart(tree: FileTree) {
    let mut rest = assigned(tree);
    for _ in 0..1_000_001 {
        rest = rest.and_then(unlinked);
    }
}

/// Whether the printed text of a tree looks so.
fn looks_so(alloc: Global, tree: &FileTree, chain: Chain) -> bool {
    match print(alloc, tree) {
        Ok(text) => {
            let bytes = text.as_bytes();
            bytes.len() == chain.length
                && bytes.starts_with(chain.front)
                && bytes.ends_with(chain.back)
        }
        Err(_) => false,
    }
}

/// Whether a chain is a file whose printed text looks so.
fn is_printed(alloc: Global, chain: Chain) -> bool {
    let Ok(text) = repeated(alloc, chain.start, chain.link, 1_000_000, chain.end, "") else {
        return false;
    };
    if text.len() >= 100_000_000 {
        return false;
    }
    match parse(alloc, text.as_bytes()) {
        Ok(tree) => {
            let looks = looks_so(alloc, &tree, chain);
            take_apart(tree);
            looks
        }
        Err(_) => false,
    }
}

/// Each chain is a file whose printed text looks so.
fn each_is_printed<R: Threads + Wait + Abort>(
    rt: &R,
    alloc: Global,
    chains: [Chain; 3],
) -> Result<(), Fail> {
    for chain in chains {
        let small = thread::Builder::new().stack_size(8 << 20);
        let printed = small.spawn(rt, move || is_printed(alloc, chain))?.join(rt);
        assert!(rt; printed, "the chain of {}", chain.link);
    }
    Ok(())
}

#[test]
fn a_million_operators_are_read_and_printed_by_loops(rt: HostRuntime) -> Result<(), Fail> {
    each_is_printed(&rt, rt.alloc(), OPERATORS)
}

#[test]
fn a_million_calls_or_choices_are_read_and_printed_by_loops(rt: HostRuntime) -> Result<(), Fail> {
    each_is_printed(&rt, rt.alloc(), CALLS_AND_CHOICES)
}
